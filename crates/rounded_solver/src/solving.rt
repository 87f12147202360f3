//! The attempt over the rows of a problem.

ghost use Rattle.std.specs.Prelude.{◌≡◌, IfOk, IfSome};
ghost use Rattle.certified_answers.specs.Answers.{IsFoundBy};
ghost use Rattle.row_problem.specs.ProgramsOf.{IsPosedProblem};
ghost use Rattle.certified_answers.specs.declared.costs.Cost.TheVariants.{Model};

use crate::asked::{Limits, no_guess};
use crate::costless::costless_plan;
use crate::refuting::refutation;
use crate::tries::cheapest_plan;
use call_stages::Watcher;
use certified_answers::{Certified, NoAnswer};
use presolved_program::{Aim, prepare};
use row_problem::Problem;
use std::alloc::{AllocError, Global};

/// Looks for a plan whose cost is above a proved bound by at most so many millionths of the bound, or for multipliers that
/// show that there is no plan. Each guess may take so many pivots at most.
///
/// Nothing is given to which the checker doesn't say yes. A plan has one value for each variable, in order; multipliers ascend by the
/// names of rows; the pivots that are told are those of the guess. When nothing is given isn't defined: then nothing is known of the
/// rows. Refuses only out of memory.
pub fn guessed(
    alloc: Global,
    problem: &Problem<'_>,
    ppm: u32,
    pivots: u64,
    watcher: &mut dyn Watcher,
) -> Result<Option<Certified>, AllocError>
    requires problem { IsPosedProblem problem.now }
    requires model { problem.now.cost ≡ Model }
    ensures { IfOk result (λ found. IfSome found (IsFoundBy problem.now.rows.now problem.now.vars.now ppm pivots)) }
{
    match attempts(alloc, problem, Limits { ppm, pivots }, watcher) {
        Ok(found) => Ok(found),
        Err(NoAnswer::Memory) => Err(AllocError),
        Err(_) => Ok(None),
    }
}

/// A plan of least cost; where there seems to be none, what proves that; where nothing could be kept beside the bound, a plan that costs
/// nothing.
fn attempts(
    alloc: Global,
    problem: &Problem<'_>,
    limits: Limits,
    watcher: &mut dyn Watcher,
) -> Result<Option<Certified>, NoAnswer>
    requires { IsPosedProblem problem.now }
    ensures { IfOk result (λ found. IfSome found (IsFoundBy problem.now.rows.now problem.now.vars.now limits.ppm limits.pivots)) }
{
    let smaller = prepare(alloc, problem.reduced, Aim::Cheapest).map_err(no_guess)?;
    match cheapest_plan(alloc, problem, smaller, limits, watcher) {
        Ok(Some(found)) => Ok(Some(found)),
        Ok(None) => Ok(Some(refutation(alloc, problem, limits, watcher)?)),
        Err(NoAnswer::Memory) => Err(NoAnswer::Memory),
        Err(_) => Ok(Some(costless_plan(alloc, problem, limits, watcher)?)),
    }
}
