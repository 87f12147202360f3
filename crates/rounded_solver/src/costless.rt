//! A plan that costs nothing, where nothing costs less.
//!
//! No gap in millionths can be kept beside a bound of 0. So the columns that cost something stay 0, the rest is solved, and all
//! multipliers are 0.

ghost use Rattle.std.specs.Prelude.{◌≤◌, IfOk};
ghost use Rattle.certified_answers.specs.Answers.{IsFoundBy};
ghost use Rattle.row_problem.specs.ProgramsOf.{IsPosedProblem};

use crate::asked::{Limits, no_guess};
use crate::certifying::certified;
use crate::limit::limited_guess;
use crate::tries::RoundedEnd;
use call_stages::{Stage, Watcher};
use certified_answers::{Certified, NoAnswer};
use exact_num::Frac;
use presolved_program::{Aim, Stop, prepare};
use rounded_program::{margins_of, rounded_program, values_of};
use row_core::fraction;
use row_problem::Problem;
use std::alloc::{AllocError, Global};
use written_method::Reduced;

/// The decimals of values, and the significant digits of multipliers, which are all 0.
const PLACES: i32 = 7;

const DIGITS: i32 = 9;

/// The plan that costs nothing, where the checker accepts it.
pub(crate) fn costless_plan(
    alloc: Global,
    problem: &Problem<'_>,
    limits: Limits,
    watcher: &mut dyn Watcher,
) -> Result<Certified, NoAnswer>
    requires { IsPosedProblem problem.now }
    ensures { IfOk result (IsFoundBy problem.now.rows.now problem.now.vars.now limits.ppm limits.pivots) }
{
    let end = costless_end(alloc, problem.reduced, limits.pivots, watcher).map_err(no_guess)?;
    watcher.see(Stage::Checks);
    certified(
        alloc,
        problem,
        &end.values,
        &end.multipliers,
        limits,
        end.pivots,
    )
}

/// The end of a guess at what costs nothing, with multipliers that are all 0.
fn costless_end(
    alloc: Global,
    reduced: &Reduced,
    pivots: u64,
    watcher: &mut dyn Watcher,
) -> Result<RoundedEnd, Stop>
    ensures made { IfOk result (λ end. end.pivots ≤ pivots) }
{
    let smaller = prepare(alloc, reduced, Aim::Costless)?;
    if smaller.is_false() {
        return Err(Stop::GivenUp);
    }
    let margins = margins_of(alloc, &smaller, PLACES, DIGITS)?;
    let asked = rounded_program(alloc, &smaller, &margins)?;
    match limited_guess(alloc, &asked, pivots, watcher)? {
        Some(guess) => Ok(RoundedEnd {
            values: values_of(alloc, &smaller, &margins, &guess.values)?,
            multipliers: zeros(alloc, reduced.rows.len())?,
            pivots: guess.pivots,
        }),
        None => Err(Stop::GivenUp),
    }
}

/// So many zeros.
fn zeros(alloc: Global, count: usize) -> Result<Vec<Frac>, AllocError> {
    let mut list = Vec::with_capacity(alloc, count)?;
    for _ in 0..count {
        list.push(fraction(0))?;
    }
    Ok(list)
}
