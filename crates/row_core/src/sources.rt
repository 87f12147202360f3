//! Rows that come one after another, equation by equation, from a source that need not hold them.

ghost use Rattle.std.specs.Prelude.{◌≡◌, ℕ, List, IfOk, OnErr};
ghost use Rattle.row_core.specs.Equations.{IsEquation};
ghost use Rattle.row_core.specs.Contents.{RowContents};
ghost use Rattle.row_core.specs.Sources.{Answers, has_kind, rows_of_equation};

use crate::Row;
use std::alloc::AllocError;

/// A list of rows, which no call changes, and a place in it: before one of the rows of an equation, or
/// after the last of them.
pub trait RowSource {
    /// What the rows say, in their order.
    ghost rows: { Self → List RowContents };

    /// The rows of the equation from the place on, each with its position among all rows, counted from 1.
    ghost ahead: { Self → List (ℕ × RowContents) };

    /// Puts the place before the first row of the equation.
    fn start(&mut self, eq: u8)
        requires { IsEquation eq }
        ensures rows { rows self.new ≡ rows self.old }
        ensures ahead { ahead self.new ≡ rows_of_equation eq (rows self.old) };

    /// The next row of the equation, with its position among all rows, counted from 1, and the place comes
    /// after it; `None` where the equation has no further row. Refuses only where memory runs out, and the
    /// place stays then.
    fn next(&mut self) -> Result<Option<(u64, Row)>, AllocError>
        ensures rows { rows self.new ≡ rows self.old }
        ensures answers { IfOk result (λ found. Answers (ahead self.old) found (ahead self.new)) }
        ensures stays { OnErr result (ahead self.new ≡ ahead self.old) };

    /// Some row of the equation has an entry at a variable of this kind.
    fn has(&self, eq: u8, kind: u8) -> bool
        requires { IsEquation eq }
        ensures { result ≡ has_kind eq kind (rows self.now) };
}
