//! One trial by the rounded method: a bound of the value of one variable, and a plan that comes near it, both checked.

ghost use Rattle.std.specs.Prelude.{◌≡◌, IfOk, OnOk, length};
ghost use Rattle.row_problem.specs.Prelude.{value_of, keys_of};
ghost use Rattle.span_finder.specs.RoundedTrials.{IsClose, IsRoundedEnd, end_of};
ghost use Rattle.span_finder.specs.Trials.{IsTrial};

use crate::near::checked_near;
use call_stages::{Stage, Watcher};
use certified_answers::{Goal, NoAnswer, accepted_bound, accepted_plan, plan_laws};
use exact_num::Frac;
use rounded_solver::{TRIES, guess_optimum};
use row_core::{Plan, Var, fraction};
use row_problem::{Problem, carry_multipliers, carry_plan};
use std::alloc::Global;

/// What a trial finds. The checker has said yes to it.
#[derive(Drop)]
pub(crate) struct RoundedEnd {
    /// No plan of the rows has less of the variable, where the least value is looked for, or more, where the greatest is.
    pub end: Frac,
    /// A plan of the rows with a value near it.
    pub plan: Plan,
}

/// The first try that the checker accepts, with a value of the plan within so many millionths of the end: from `start`, a value for each
/// column in order, and where it accepts none, from nothing, so values that are far off hide no end. The values that the last guess ends at
/// are left there.
pub(crate) fn rounded_trial(
    alloc: Global,
    problem: &Problem<'_>,
    var: Var,
    goal: Goal,
    start: &mut Vec<f64>,
    ppm: u32,
    pivots: u64,
    watcher: &mut dyn Watcher,
) -> Result<RoundedEnd, NoAnswer>
    requires { IsTrial problem.now var goal }
    ensures { IfOk result (IsRoundedEnd problem.now var goal ppm) }
{
    let is_started = start.iter().any(|value| *value > 0.0);
    match accepted_try(alloc, problem, var, goal, start, ppm, pivots, watcher) {
        Ok(found) => Ok(found),
        Err(NoAnswer::Memory) => Err(NoAnswer::Memory),
        Err(stop) => {
            if !is_started {
                return Err(stop);
            }
            start.clear();
            accepted_try(alloc, problem, var, goal, start, ppm, pivots, watcher)
        }
    }
}

/// The first try that the checker accepts, each from where the one before ended.
fn accepted_try(
    alloc: Global,
    problem: &Problem<'_>,
    var: Var,
    goal: Goal,
    start: &mut Vec<f64>,
    ppm: u32,
    pivots: u64,
    watcher: &mut dyn Watcher,
) -> Result<RoundedEnd, NoAnswer>
    requires { IsTrial problem.now var goal }
    ensures { IfOk result (IsRoundedEnd problem.now var goal ppm) }
{
    for (places, digits) in TRIES {
        match one_try(
            alloc, problem, var, goal, start, places, digits, ppm, pivots, watcher,
        ) {
            Ok(found) => return Ok(found),
            Err(NoAnswer::Memory) => return Err(NoAnswer::Memory),
            Err(_) => {}
        }
    }
    Err(NoAnswer::Nothing)
}

/// One try, with so many decimals of values and significant digits of multipliers.
fn one_try(
    alloc: Global,
    problem: &Problem<'_>,
    var: Var,
    goal: Goal,
    start: &mut Vec<f64>,
    places: i32,
    digits: i32,
    ppm: u32,
    pivots: u64,
    watcher: &mut dyn Watcher,
) -> Result<RoundedEnd, NoAnswer>
    requires { IsTrial problem.now var goal }
    ensures { IfOk result (IsRoundedEnd problem.now var goal ppm) }
{
    match guess_optimum(
        alloc,
        problem.reduced,
        start,
        places,
        digits,
        pivots,
        watcher,
    )? {
        Some(guessed) => {
            watcher.see(Stage::Checks);
            carried(
                alloc,
                problem,
                var,
                goal,
                &guessed.values,
                &guessed.multipliers,
                ppm,
            )
        }
        None => Err(NoAnswer::Nothing),
    }
}

/// Values of the columns and multipliers of the rows that are left, carried back to all rows and checked.
fn carried(
    alloc: Global,
    problem: &Problem<'_>,
    var: Var,
    goal: Goal,
    values: &Plan,
    lambda: &[Frac],
    ppm: u32,
) -> Result<RoundedEnd, NoAnswer>
    requires trial { IsTrial problem.now var goal }
    requires keyed { keys_of values.now ≡ problem.now.reduced.now.columns.items }
    requires counted { length lambda.now ≡ length problem.now.reduced.now.rows.items }
    ensures { IfOk result (IsRoundedEnd problem.now var goal ppm) }
{
    let plan = carry_plan(alloc, problem, values)?;
    plan_laws(&plan);
    let multipliers = carry_multipliers(alloc, problem, lambda, false)?;
    accepted_plan(problem.rows, problem.vars, &plan)?;
    let bound = accepted_bound(
        alloc,
        problem.rows,
        problem.vars,
        problem.cost,
        &multipliers,
    )?;
    let end = end_of(goal, bound);
    checked_close(goal, ppm, plan.value(var), end)?;
    Ok(RoundedEnd { end, plan })
}

/// The end of the values that a bound of a trial's cost leaves. The least value isn't below 0, since no capacity is.
fn end_of(goal: Goal, bound: Frac) -> Frac
    ensures { value_of result ≡ end_of goal (value_of bound) }
{
    match goal {
        Goal::Least => { if bound.num < 0 { fraction(0) } else { bound } }
        Goal::Greatest => Frac {
            num: -bound.num,
            den: bound.den,
        },
    }
}

/// The value of a plan is within so many millionths of the end.
fn checked_close(goal: Goal, ppm: u32, value: Frac, end: Frac) -> Result<(), NoAnswer>
    ensures { OnOk result (IsClose goal ppm (value_of value) (value_of end)) }
{
    match goal {
        Goal::Least => checked_near(ppm, value, end, end),
        Goal::Greatest => checked_near(ppm, end, value, end),
    }
}
