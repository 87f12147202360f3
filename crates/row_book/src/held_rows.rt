//! Rows that are held, so that they aren't made again.

ghost use Rattle.std.specs.Prelude.{◌≡◌, ◌<◌, ◌++◌, length, slice_index_or, IfSome, OnOk};
ghost use Rattle.row_core.specs.RowLists.{entry_variables};
ghost use Rattle.row_book.specs.Held.{KeepsRows, held_variables};
ghost use Rattle.row_book.specs.Tallies.{AreSameVariables};
ghost use Rattle.row_book.specs.declared.held_rows.HeldRows.{HeldRows};

use crate::gathering::gather_variables;
use row_core::{Row, Var};
use std::alloc::AllocError;

/// As long as all rows so far have no more entries than this, those of an equation are held, however short they are. So the
/// rows of a small model are made once, and what is held of short rows takes some tens of megabytes.
const HELD_ENTRIES: usize = 500_000;

/// Where the rows of an equation and of all before it have more entries than this together, they are held as well: a model of
/// this size takes hundreds of megabytes in any case, and to make so many rows several times takes longest.
const MANY_ENTRIES: usize = 1_500_000;

/// Rows with this many entries or more on average are held in any case: a long row takes far longer to make than to copy.
/// All rows have 4,000,000 entries at most.
const LONG_ROW: usize = 8;

/// The rows of an equation, in order.
#[derive(Drop)]
pub(crate) struct HeldRows {
    pub(crate) eq: u8,
    pub(crate) rows: Vec<Row>,
}

/// Holds the rows of an equation if they are long, or if they and those of all equations before it have few entries or very
/// many, and gathers their variables if they aren't held. They have so many entries (`own`), and with the others so many
/// (`entries`).
pub(crate) fn keep_rows(
    held: &mut Vec<HeldRows>,
    vars: &mut Vec<Var>,
    eq: u8,
    rows: Vec<Row>,
    own: usize,
    entries: usize,
) -> Result<(), AllocError>
    ensures held { OnOk result (KeepsRows eq rows.items held.old.items held.new.items) }
    ensures variables { OnOk result (AreSameVariables
        (vars.new.items ++ held_variables held.new.items) ((vars.old.items ++ held_variables held.old.items) ++ entry_variables rows.items)) }
{
    if entries <= HELD_ENTRIES || entries > MANY_ENTRIES || own / LONG_ROW >= rows.len() {
        held.push(HeldRows { eq, rows })?;
        return Ok(());
    }
    gather_variables(vars, &rows)
}

/// Where the rows of the equation stand, if they are held.
pub(crate) fn position_of_rows(held: &[HeldRows], eq: u8) -> Option<usize>
    ensures { IfSome result (λ i. (i < length held.now) × ((z : HeldRows) → (slice_index_or held.now i z).eq ≡ eq)) }
{
    for i in 0..held.len() {
        if held[i].eq == eq {
            return Some(i);
        }
    }
    None
}
