//! What is due in phase 1, by the kept rows.

ghost use Rattle.std.specs.Prelude.{◌≡◌, ◌<◌};
ghost use Rattle.row_core.specs.Numbers.{is_zero};
ghost use Rattle.simplex_core.specs.Kept.{IsKept};
ghost use Rattle.simplex_core.specs.KeptEnds.{IsKeptDue};
ghost use Rattle.simplex_core.specs.KeptViews.{IsHome, x0_in};

use crate::home::Home;
use crate::kept_choice::{entering, leaving};
use crate::kept_width::fits;
use int_tableau::Tableau;

/// What is due.
#[derive(Clone, Copy)]
pub(crate) enum KeptDue {
    /// A pivot in this row and this column, whose numbers all fit; and whether it is degenerate.
    Pivot(usize, usize, bool),
    /// No column can enter.
    NoColumn,
    /// A number may not fit.
    Unsure,
}

/// x0's row, with the column that enters.
fn home_of(tableau: &Tableau, row: usize, column: usize) -> Home
    requires kept { IsKept row (x0_in tableau.now.tableau) tableau.now.tableau }
    requires column { column < tableau.now.tableau.columns }
    ensures home { IsHome tableau.now.tableau result }
    ensures row { result.row ≡ row }
    ensures column { result.column ≡ column }
{
    Home {
        row,
        column,
        at_x0: tableau.last_entry(row),
        entry: tableau.entry(row, column),
        right: tableau.rhs(row),
    }
}

/// Whether a number is 0.
fn vanishes(number: i128) -> bool
    ensures { result ≡ is_zero number }
{
    number == 0
}

/// What is due in phase 1.
pub(crate) fn next_due(tableau: &Tableau, row: usize, x0: usize, degenerate: u64) -> KeptDue
    requires kept { IsKept row x0 tableau.now.tableau }
    requires last { x0 ≡ x0_in tableau.now.tableau }
    ensures { IsKeptDue tableau.now.tableau row degenerate result }
{
    let Some(column) = entering(tableau, row, x0, degenerate) else {
        return KeptDue::NoColumn;
    };
    let home = home_of(tableau, row, column);
    let Ok(leaving) = leaving(tableau, home) else {
        return KeptDue::Unsure;
    };
    let Some(a) = leaving.chosen else {
        return KeptDue::Unsure;
    };
    if !fits(tableau, home, a.row, leaving.spread) {
        return KeptDue::Unsure;
    }
    KeptDue::Pivot(a.row, column, vanishes(a.right))
}
