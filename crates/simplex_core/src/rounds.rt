//! What is due between two pivots.

ghost use Rattle.std.specs.Prelude.{◌≡◌, ◌+◌, ◌<◌, length, IfSome};
ghost use Rattle.written_method.specs.Rounds.{due};
ghost use Rattle.simplex_core.specs.Views.{due_seen, round_by, state_seen};
ghost use Rattle.simplex_core.specs.Steps.{AreThere};

use crate::choice::{entering, least_right, leaving};
use crate::progress::{Due, Phase, Progress};
use int_tableau::Tableau;

/// A round: a column enters by the entries of a row, and a row leaves for it.
fn round(tableau: &Tableau, row: usize, x0: Option<usize>, degenerate: u64) -> Due
    requires row { row < length tableau.now.tableau.lines }
    requires last { IfSome x0 (λ last. tableau.now.tableau.columns ≡ last + 1) }
    ensures { due_seen result ≡ round_by tableau.now.tableau row x0 degenerate }
{
    match entering(tableau, row, degenerate) {
        None => Due::NoColumn,
        Some(column) => match leaving(tableau, x0, column) {
            None => Due::NoRow(column),
            Some(leaves) => Due::Pivot(leaves, column),
        },
    }
}

/// What is due: x0 is taken into the row with the least right side, or a round is made by the row of w or of z.
pub(crate) fn due(progress: &Progress) -> Due
    requires { AreThere (state_seen progress.now) }
    ensures { due_seen result ≡ due (state_seen progress.now) }
{
    let tableau = &progress.tableau;
    match progress.phase {
        Phase::Start => Due::Pivot(least_right(tableau), tableau.columns() - 1),
        Phase::One => round(
            tableau,
            tableau.rows() + 1,
            Some(tableau.columns() - 1),
            progress.degenerate,
        ),
        Phase::Two => round(tableau, tableau.rows(), None, progress.degenerate),
    }
}
