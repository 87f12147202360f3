//! The state after a pivot.

ghost use Rattle.std.specs.Prelude.{◌≡◌, ◌+◌, ◌-◌, ◌<◌, ◌^◌, true, suc, pos, ◌<ℤ◌, length, IfOk, IfErr, OnOk, if◌then◌else◌};
ghost use Rattle.exact_num.specs.Range.{all_fit};
ghost use Rattle.row_core.specs.Numbers.{is_zero};
ghost use Rattle.row_core.specs.Stops.{IsStop};
ghost use Rattle.row_core.specs.declared.place.Place.TheVariants as places;
ghost use Rattle.written_method.specs.Lines.{entry_of};
ghost use Rattle.written_method.specs.Rounds.{after, step_of};
ghost use Rattle.written_method.specs.Tableaus.{basic_of, line_of, negated, pivot_formed, rows_of};
ghost use Rattle.int_tableau.specs.Counted.{negated_in, pivoted_once};
ghost use Rattle.simplex_core.specs.Views.{left_phase, left_tableau, phase_seen, state_seen};
ghost use Rattle.simplex_core.specs.Steps.{IsDropped, IsMove};

use crate::progress::{Phase, Progress};
use int_tableau::Tableau;
use row_core::Stopped;
use std::alloc::Global;

/// How many degenerate pivots followed one another, with one in this row.
fn degenerate_after(tableau: &Tableau, degenerate: u64, row: usize) -> u64
    requires row { row < length tableau.now.tableau.lines }
    requires countable { suc degenerate < 2 ^ 64 }
    ensures { result ≡ (if is_zero (line_of tableau.now.tableau row).right then suc degenerate else 0) }
{
    if tableau.rhs(row) == 0 {
        degenerate + 1
    } else {
        0
    }
}

/// The pivot that takes x0 into a row, which is multiplied by -1 before.
fn take_in_x0(
    alloc: Global,
    tableau: Tableau,
    row: usize,
    column: usize,
) -> Result<Tableau, Stopped>
    requires row { row < rows_of tableau.tableau }
    requires column { column < tableau.tableau.columns }
    requires positive { pos 0 <ℤ entry_of (line_of (negated row tableau.tableau) row) column }
    requires countable { suc tableau.pivots < 2 ^ 64 }
    ensures value { IfOk result (λ t. t ≡ pivoted_once row column (negated_in row tableau)) }
    ensures fits { OnOk result (all_fit (pivot_formed row column (negated row tableau.tableau)) ≡ true) }
    ensures stopped { IfErr result (IsStop (places.Pivot (suc tableau.pivots)) (all_fit (pivot_formed row column (negated row tableau.tableau)))) }
{
    tableau.negated(row).pivot(alloc, row, column)
}

/// A pivot while x0 is basic. Where x0 leaves, it is dropped, and phase 2 begins.
fn pivot_with_x0(
    alloc: Global,
    tableau: Tableau,
    row: usize,
    column: usize,
) -> Result<(Tableau, Phase), Stopped>
    requires row { row < rows_of tableau.tableau }
    requires column { column < tableau.tableau.columns }
    requires positive { pos 0 <ℤ entry_of (line_of tableau.tableau row) column }
    requires countable { suc tableau.pivots < 2 ^ 64 }
    requires dropped { basic_of tableau.tableau row ≡ tableau.tableau.columns - 1 → IsDropped tableau.tableau row column }
    ensures value { IfOk result (λ o. o.0 ≡ left_tableau row column tableau) }
    ensures phase { IfOk result (λ o. phase_seen o.1 ≡ left_phase row tableau.tableau) }
    ensures fits { OnOk result (all_fit (pivot_formed row column tableau.tableau) ≡ true) }
    ensures stopped { IfErr result (IsStop (places.Pivot (suc tableau.pivots)) (all_fit (pivot_formed row column tableau.tableau))) }
{
    let leaves = tableau.basic(row) == tableau.columns() - 1;
    let next = tableau.pivot(alloc, row, column)?;
    if leaves {
        Ok((next.without_x0(), Phase::Two))
    } else {
        Ok((next, Phase::One))
    }
}

/// The state after the pivot that is due.
///
/// `Width(Pivot(k))`, where this is pivot number k, comes exactly where a number that the pivot forms doesn't fit; any other
/// refusal means that memory ran out.
pub(crate) fn after(
    alloc: Global,
    progress: Progress,
    row: usize,
    column: usize,
) -> Result<Progress, Stopped>
    requires movable { IsMove (state_seen progress) row column }
    requires countable { suc progress.tableau.pivots < 2 ^ 64 }
    requires degenerate { suc progress.degenerate < 2 ^ 64 }
    ensures value { IfOk result (λ s. state_seen s ≡ after (state_seen progress) row column) }
    ensures fits { OnOk result (all_fit (step_of (state_seen progress) row column).formed ≡ true) }
    ensures stopped { IfErr result (IsStop (step_of (state_seen progress) row column).place (all_fit (step_of (state_seen progress) row column).formed)) }
{
    let degenerate = degenerate_after(&progress.tableau, progress.degenerate, row);
    let (tableau, phase) = match progress.phase {
        Phase::Start => (
            take_in_x0(alloc, progress.tableau, row, column)?,
            Phase::One,
        ),
        Phase::One => pivot_with_x0(alloc, progress.tableau, row, column)?,
        Phase::Two => (progress.tableau.pivot(alloc, row, column)?, Phase::Two),
    };
    Ok(Progress {
        tableau,
        phase,
        degenerate,
    })
}
