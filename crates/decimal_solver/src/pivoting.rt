//! The state after a pivot.

ghost use Rattle.std.specs.Prelude.{[], ◌≡◌, ◌+◌, ◌≤◌, ◌<◌, ◌^◌, length, Some, OnOk, IfOk, IfErr};
ghost use Rattle.decimal_solver.specs.Rounds.{after, degenerate_after, factor_in, is_degenerate, others_cleared, phase_by, x0_leaves};
ghost use Rattle.decimal_solver.specs.Views.{IsNothing, line_seen, phase_seen, rows_seen, state_seen};

use crate::clearing::{clear, pivot_line};
use crate::numbers::UNIT;
use crate::states::{GridRow, Line, Phase, State, no_line};
use certified_answers::NoAnswer;
use std::alloc::Global;

/// A pivot is degenerate where its row's right side is at most this.
const DEGENERATE: i128 = 10;

/// What the numbers of the pivot row are multiplied by: the row that x0 is taken into is multiplied by -1 as well.
fn factor_in(phase: Phase) -> i128
    ensures { result ≡ factor_in (phase_seen phase) }
{
    match phase {
        Phase::Start => -UNIT,
        Phase::One => UNIT,
        Phase::Two => UNIT,
    }
}

/// Whether a pivot in a row with this right side is degenerate. The row that x0 is taken into is multiplied by -1 before.
fn is_degenerate(phase: Phase, right: i128) -> bool
    ensures { result ≡ is_degenerate (phase_seen phase) right }
{
    match phase {
        Phase::Start => right >= -DEGENERATE,
        Phase::One => right <= DEGENERATE,
        Phase::Two => right <= DEGENERATE,
    }
}

/// How many degenerate pivots followed one another, after a pivot in this row.
fn degenerate_after(state: &State, row: usize) -> u64
    requires row { row < length state.now.rows.items }
    requires countable { state.now.degenerate + 1 < 2 ^ 64 }
    ensures value { result ≡ degenerate_after (state_seen state.now) row }
    ensures few { result ≤ state.now.degenerate + 1 }
{
    if is_degenerate(state.phase, state.rows[row].line.right) {
        state.degenerate + 1
    } else {
        0
    }
}

/// Whether x0 leaves where this row does.
fn x0_leaves(state: &State, row: usize) -> bool
    requires row { row < length state.now.rows.items }
    ensures { result ≡ x0_leaves (state_seen state.now) row }
{
    match state.phase {
        Phase::Start => false,
        Phase::One => state.rows[row].basic == state.columns.saturating_sub(1),
        Phase::Two => false,
    }
}

/// Clears a column in each row but one, by the new line of that.
#[tactic(auto, unfolding(crate::specs::Rounds::others_cleared))]
fn clear_others(
    alloc: Global,
    rows: &mut Vec<GridRow>,
    row: usize,
    column: usize,
    pivot: &Line,
) -> Result<(), NoAnswer>
    ensures value { OnOk result (others_cleared row column (line_seen pivot.now) [] (rows_seen rows.old.items) ≡ Some (rows_seen rows.new.items)) }
    ensures counted { OnOk result (length rows.new.items ≡ length rows.old.items) }
    ensures nothing { IfErr result (IsNothing (others_cleared row column (line_seen pivot.now) [] (rows_seen rows.old.items))) }
{
    for (position, other) in rows.iter_mut().enumerate() {
        if position != row {
            clear(alloc, column, pivot, &mut other.line)?;
        }
    }
    Ok(())
}

/// The state after the pivot in this row and this column.
pub(crate) fn after(
    alloc: Global,
    state: State,
    row: usize,
    column: usize,
) -> Result<State, NoAnswer>
    requires countable { state.pivots + 1 < 2 ^ 64 }
    requires degenerate { state.degenerate ≤ state.pivots }
    ensures value { IfOk result (λ next. after (state_seen state) row column ≡ Some (state_seen next)) }
    ensures nothing { IfErr result (IsNothing (after (state_seen state) row column)) }
    ensures counted { IfOk result (λ next. length next.rows.items ≡ length state.rows.items) }
    ensures slack { IfOk result (λ next. next.slack ≡ state.slack) }
    ensures made { IfOk result (λ next. next.pivots ≡ state.pivots + 1) }
    ensures few { IfOk result (λ next. next.degenerate ≤ next.pivots) }
{
    if row >= state.rows.len() {
        return Err(NoAnswer::Nothing);
    }
    let pivot = pivot_line(
        alloc,
        factor_in(state.phase),
        column,
        state.columns,
        &state.rows[row].line,
    )?;
    let leaves = x0_leaves(&state, row);
    let degenerate = degenerate_after(&state, row);
    let State {
        mut rows,
        mut cost,
        mut artificial,
        phase,
        slack,
        columns,
        pivots,
        ..
    } = state;
    let scale = rows[row].scale;
    clear_others(alloc, &mut rows, row, column, &pivot)?;
    clear(alloc, column, &pivot, &mut cost)?;
    clear(alloc, column, &pivot, &mut artificial)?;
    if leaves {
        artificial = no_line(alloc);
    }
    rows[row] = GridRow {
        line: pivot,
        basic: column,
        scale,
    };
    Ok(State {
        rows,
        cost,
        artificial,
        phase: phase_after(phase, leaves),
        slack,
        columns: if leaves {
            columns.saturating_sub(1)
        } else {
            columns
        },
        pivots: pivots + 1,
        degenerate,
    })
}

/// The phase after a pivot at which x0 leaves or stays.
fn phase_after(phase: Phase, leaves: bool) -> Phase
    ensures { phase_seen result ≡ phase_by (phase_seen phase) leaves }
{
    match phase {
        Phase::Start => Phase::One,
        Phase::One => { if leaves { Phase::Two } else { Phase::One } }
        Phase::Two => Phase::Two,
    }
}
