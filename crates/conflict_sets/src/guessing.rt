//! A trial by guesses in numbers of limited accuracy, of which the checker judges what is made.

ghost use Rattle.std.specs.Prelude.{◌≡◌, IfOk, IfSome, length};
ghost use Rattle.row_core.specs.Numbers.{keys_of};
ghost use Rattle.row_problem.specs.ProgramsOf.{IsPosedProblem};
ghost use Rattle.conflict_sets.specs.Pieces.{IsFinding, IsTriedOf, listed_by};

use crate::copying::{trial_program, trial_rows};
use crate::listing::Listing;
use crate::trial::Finding;
use call_stages::{Stage, Watcher};
use certified_answers::{NoAnswer, accepted_plan, accepted_refutation, multiplier_laws, plan_laws};
use exact_num::Frac;
use rounded_solver::{Guess, guess_multipliers, guess_values};
use row_core::{Plan, Stopped};
use row_problem::{Problem, carry_plan};
use std::alloc::{AllocError, Global};
use variable_elimination::lift_multipliers;
use written_method::Reduced;

/// The decimals of values, try by try: fewer need fewer bits.
const PLACES: [i32; 3] = [7, 5, 4];

/// The significant digits of multipliers, try by try.
const DIGITS: [i32; 3] = [9, 7, 5];

/// A plan of the equations and those of its inequalities that are listed, or multipliers that show that there is none, by
/// guesses that take so many pivots each at most. None where no guess is accepted: then nothing is known of these rows. Guesses at a plan
/// begin from `start`, a value for each column in order, where the trial before left any; where nothing is accepted so, they are made
/// again from nothing, and values that are far off hide no plan.
pub(crate) fn guessed(
    alloc: Global,
    problem: &Problem<'_>,
    listing: &Listing<'_>,
    start: &mut Vec<f64>,
    pivots: u64,
    watcher: &mut dyn Watcher,
) -> Result<Option<Finding>, AllocError>
    requires { IsPosedProblem problem.now }
    ensures worth { IfOk result (λ found. IfSome found (IsFinding (listed_by listing.now) problem.now.rows.now problem.now.vars.now)) }
{
    let tried = trial_program(alloc, problem.reduced, listing)?;
    let is_started = !start.is_empty();
    if let Some(finding) = guessed_plan(alloc, problem, listing, &tried, start, pivots, watcher)? {
        return Ok(Some(finding));
    }
    if let Some(finding) = guessed_refutation(alloc, problem, listing, &tried, pivots, watcher)? {
        return Ok(Some(finding));
    }
    if is_started {
        start.clear();
        return guessed_plan(alloc, problem, listing, &tried, start, pivots, watcher);
    }
    Ok(None)
}

/// Multipliers that show that the equations and those of its inequalities that are listed have no plan, by guesses alone.
pub(crate) fn refuted_by_guess(
    alloc: Global,
    problem: &Problem<'_>,
    listing: &Listing<'_>,
    pivots: u64,
    watcher: &mut dyn Watcher,
) -> Result<Option<Finding>, AllocError>
    requires { IsPosedProblem problem.now }
    ensures worth { IfOk result (λ found. IfSome found (IsFinding (listed_by listing.now) problem.now.rows.now problem.now.vars.now)) }
{
    let tried = trial_program(alloc, problem.reduced, listing)?;
    guessed_refutation(alloc, problem, listing, &tried, pivots, watcher)
}

/// The plan of the first guess that the checker accepts.
fn guessed_plan(
    alloc: Global,
    problem: &Problem<'_>,
    listing: &Listing<'_>,
    tried: &Reduced,
    start: &mut Vec<f64>,
    pivots: u64,
    watcher: &mut dyn Watcher,
) -> Result<Option<Finding>, AllocError>
    requires problem { IsPosedProblem problem.now }
    requires tried { IsTriedOf (listed_by listing.now) problem.now.reduced.now tried.now }
    ensures worth { IfOk result (λ found. IfSome found (IsFinding (listed_by listing.now) problem.now.rows.now problem.now.vars.now)) }
{
    for places in PLACES {
        match guess_values(alloc, tried, start, places, pivots, watcher)? {
            Guess::Values(values) => {
                watcher.see(Stage::Checks);
                match checked_values(alloc, problem, listing, tried, &values)? {
                    Some(finding) => return Ok(Some(finding)),
                    None => {}
                }
            }
            Guess::NoValues => return Ok(None),
            Guess::Nothing => {}
        }
    }
    Ok(None)
}

/// The plan of guessed values, carried back, where the checker accepts it over the rows of the trial.
fn checked_values(
    alloc: Global,
    problem: &Problem<'_>,
    listing: &Listing<'_>,
    tried: &Reduced,
    values: &Plan,
) -> Result<Option<Finding>, AllocError>
    requires problem { IsPosedProblem problem.now }
    requires tried { IsTriedOf (listed_by listing.now) problem.now.reduced.now tried.now }
    requires keyed { keys_of values.now ≡ tried.now.columns.items }
    ensures worth { IfOk result (λ found. IfSome found (IsFinding (listed_by listing.now) problem.now.rows.now problem.now.vars.now)) }
{
    let plan = match carry_plan(alloc, problem, values) {
        Ok(plan) => plan,
        Err(Stopped::Width(_)) => return Ok(None),
        Err(Stopped::Memory) => return Err(AllocError),
    };
    plan_laws(&plan);
    let rows = trial_rows(alloc, problem.rows, listing)?;
    match accepted_plan(&rows, problem.vars, &plan) {
        Ok(_) => Ok(Some(Finding::Plan(plan))),
        Err(_) => Ok(None),
    }
}

/// The multipliers of the first guess that the checker accepts.
fn guessed_refutation(
    alloc: Global,
    problem: &Problem<'_>,
    listing: &Listing<'_>,
    tried: &Reduced,
    pivots: u64,
    watcher: &mut dyn Watcher,
) -> Result<Option<Finding>, AllocError>
    requires problem { IsPosedProblem problem.now }
    requires tried { IsTriedOf (listed_by listing.now) problem.now.reduced.now tried.now }
    ensures worth { IfOk result (λ found. IfSome found (IsFinding (listed_by listing.now) problem.now.rows.now problem.now.vars.now)) }
{
    for digits in DIGITS {
        match guess_multipliers(alloc, tried, digits, pivots, watcher)? {
            Some(lambda) => {
                watcher.see(Stage::Checks);
                match checked_multipliers(alloc, problem, listing, tried, &lambda)? {
                    Some(finding) => return Ok(Some(finding)),
                    None => {}
                }
            }
            None => return Ok(None),
        }
    }
    Ok(None)
}

/// Guessed multipliers, carried back to all rows, where the checker accepts that they show that there is no plan.
fn checked_multipliers(
    alloc: Global,
    problem: &Problem<'_>,
    listing: &Listing<'_>,
    tried: &Reduced,
    lambda: &[Frac],
) -> Result<Option<Finding>, AllocError>
    requires problem { IsPosedProblem problem.now }
    requires tried { IsTriedOf (listed_by listing.now) problem.now.reduced.now tried.now }
    requires counted { length lambda.now ≡ length tried.now.rows.items }
    ensures worth { IfOk result (λ found. IfSome found (IsFinding (listed_by listing.now) problem.now.rows.now problem.now.vars.now)) }
{
    let multipliers = match lift_multipliers(
        alloc,
        problem.rows,
        problem.defs,
        tried,
        lambda,
        false,
    ) {
        Ok(multipliers) => multipliers,
        Err(Stopped::Width(_)) => return Ok(None),
        Err(Stopped::Memory) => return Err(AllocError),
    };
    multiplier_laws(&multipliers);
    match accepted_refutation(alloc, problem.rows, problem.vars, &multipliers) {
        Ok(()) => Ok(Some(Finding::Refutation(multipliers))),
        Err(NoAnswer::Memory) => Err(AllocError),
        Err(_) => Ok(None),
    }
}
