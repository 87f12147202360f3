//! The call.

ghost use Rattle.std.specs.Prelude.{◌≡◌, ◌≤◌, length, IfOk};
ghost use Rattle.rounded_simplex.specs.Answers.{IfSolved};

use crate::phases::Finish;
use crate::program::{Answer, Guess, LinearProgram};
use crate::scaling::Scaled;
use crate::state::{State, all_finite};
use call_stages::Watcher;
use sparse_factors::at;
use std::alloc::{AllocError, Global};

/// Guesses an optimum of a linear program.
///
/// `start` has the variables to begin with in the basis, in any order: a column by its number, and then the slack of each row, as the
/// `basis` of a guess at a program with the same rows and columns. They save pivots, and need not be a basis; none are all slacks.
/// `tolerance` is what a row whose greatest entry is 1 may be missed by, and a reduced cost be below 0. The answer is
/// given up once `pivots` pivots are made. The same numbers give the same answer. The error is out of memory.
pub fn guess(
    alloc: Global,
    program: &LinearProgram,
    start: &[usize],
    tolerance: f64,
    pivots: u64,
    watcher: &mut dyn Watcher,
) -> Result<Answer, AllocError>
    ensures values { IfOk result (IfSolved (λ g. length g.values.items ≡ length program.now.raised_costs.items)) }
    ensures multipliers { IfOk result (IfSolved (λ g. length g.multipliers.items ≡ length program.now.right_sides.items)) }
    ensures pivots { IfOk result (IfSolved (λ g. g.pivots ≤ pivots)) }
{
    if !tolerance.is_finite() || !is_finite(program) {
        return Ok(Answer::GivenUp);
    }
    let scaled = Scaled::new(alloc, program)?;
    let Some(mut state) = State::new(alloc, scaled, start, tolerance)? else {
        return Ok(Answer::GivenUp);
    };
    answer_of(
        alloc,
        &mut state,
        program,
        start.is_empty(),
        pivots,
        watcher,
    )
}

/// Makes all pivots, and answers by where they end.
// (A function of its own, since each way out of one that owns the state drops it, and each drop is proved.)
fn answer_of(
    alloc: Global,
    state: &mut State,
    program: &LinearProgram,
    from_slacks: bool,
    pivots: u64,
    watcher: &mut dyn Watcher,
) -> Result<Answer, AllocError>
    ensures values { IfOk result (IfSolved (λ g. length g.values.items ≡ length program.now.raised_costs.items)) }
    ensures multipliers { IfOk result (IfSolved (λ g. length g.multipliers.items ≡ length program.now.right_sides.items)) }
    ensures pivots { IfOk result (IfSolved (λ g. g.pivots ≤ pivots)) }
{
    let finished = state.run(from_slacks, pivots, watcher)?;
    match finished.finish {
        Finish::NoPlan => return Ok(Answer::NoPlan),
        Finish::GivenUp => return Ok(Answer::GivenUp),
        Finish::Optimal => {}
    }
    let values = values_of(alloc, state, program.raised_costs.len())?;
    let multipliers = multipliers_of(alloc, state, program.right_sides.len())?;
    if !all_finite(&values) || !all_finite(&multipliers) {
        return Ok(Answer::GivenUp);
    }
    let basis = basis_of(alloc, state)?;
    Ok(Answer::Solved(Guess {
        values,
        multipliers,
        pivots: finished.pivots,
        basis,
    }))
}

/// Whether all numbers of a program are finite.
fn is_finite(program: &LinearProgram) -> bool {
    all_finite(&program.values)
        && all_finite(&program.right_sides)
        && all_finite(&program.raised_costs)
        && all_finite(&program.lowered_costs)
}

/// The value of each column, unscaled.
fn values_of(alloc: Global, state: &State, columns: usize) -> Result<Vec<f64>, AllocError>
    ensures { IfOk result (λ v. length v.items ≡ columns) }
{
    let mut values = Vec::new(alloc);
    for column in 0..columns {
        let value = match state.basis.slot(column) {
            Some(slot) => at(&state.values, slot, 0.0)
                * at(&state.program.column_scales, column, 1.0),
            None => 0.0,
        };
        values.push(value)?;
    }
    Ok(values)
}

/// The multiplier of each row, unscaled: the reduced cost of its slack.
fn multipliers_of(alloc: Global, state: &State, rows: usize) -> Result<Vec<f64>, AllocError>
    ensures { IfOk result (λ v. length v.items ≡ rows) }
{
    let mut multipliers = Vec::new(alloc);
    for row in 0..rows {
        let slack = state.basis.slack(row);
        let multiplier = if state.basis.is_basic(slack) {
            0.0
        } else {
            at(&state.reduced_costs, slack, 0.0) / at(&state.program.row_sizes, row, 1.0)
        };
        multipliers.push(multiplier)?;
    }
    Ok(multipliers)
}

/// The basic variables, ascending.
fn basis_of(alloc: Global, state: &State) -> Result<Vec<usize>, AllocError> {
    let mut basis = Vec::with_capacity(alloc, state.program.rows)?;
    for variable in 0..state.variables() {
        if state.basis.is_basic(variable) {
            basis.push(variable)?;
        }
    }
    Ok(basis)
}
