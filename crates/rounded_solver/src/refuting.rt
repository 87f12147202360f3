//! Tries at multipliers that show that there is no plan.

ghost use Rattle.std.specs.Prelude.{◌≤◌, IfOk};
ghost use Rattle.certified_answers.specs.Answers.{IsFoundBy};
ghost use Rattle.row_problem.specs.ProgramsOf.{IsPosedProblem};

use crate::asked::{Limits, no_guess};
use crate::certifying::refuted;
use crate::limit::limited_guess;
use call_stages::{Stage, Watcher};
use certified_answers::{Certified, NoAnswer};
use exact_num::Frac;
use presolved_program::{Aim, Program, Stop, prepare};
use rounded_program::{Margins, elastic_program, margins_of, multipliers_of};
use row_problem::Problem;
use std::alloc::Global;

/// The significant digits of multipliers, try by try.
const TRIES: [i32; 3] = [9, 7, 5];

/// The decimals of values, of which none are rounded here.
const PLACES: i32 = 7;

/// Multipliers, and the pivots that they took.
#[derive(Drop)]
pub(crate) struct Refuting {
    pub(crate) multipliers: Vec<Frac>,
    pub(crate) pivots: u64,
}

/// The first try that the checker accepts.
pub(crate) fn refutation(
    alloc: Global,
    problem: &Problem<'_>,
    limits: Limits,
    watcher: &mut dyn Watcher,
) -> Result<Certified, NoAnswer>
    requires { IsPosedProblem problem.now }
    ensures { IfOk result (IsFoundBy problem.now.rows.now problem.now.vars.now limits.ppm limits.pivots) }
{
    let smaller = prepare(alloc, problem.reduced, Aim::Refutation).map_err(no_guess)?;
    for digits in TRIES {
        match one_try(alloc, problem, &smaller, digits, limits, watcher) {
            Ok(found) => return Ok(found),
            Err(NoAnswer::Memory) => return Err(NoAnswer::Memory),
            Err(_) => {}
        }
    }
    Err(NoAnswer::Nothing)
}

/// One try, with so many significant digits.
fn one_try(
    alloc: Global,
    problem: &Problem<'_>,
    smaller: &Program,
    digits: i32,
    limits: Limits,
    watcher: &mut dyn Watcher,
) -> Result<Certified, NoAnswer>
    requires { IsPosedProblem problem.now }
    ensures { IfOk result (IsFoundBy problem.now.rows.now problem.now.vars.now limits.ppm limits.pivots) }
{
    let guessed = make_guess(alloc, smaller, digits, limits.pivots, watcher).map_err(no_guess)?;
    watcher.see(Stage::Checks);
    refuted(alloc, problem, &guessed.multipliers, limits, guessed.pivots)
}

/// The multipliers of a guess.
pub(crate) fn make_guess(
    alloc: Global,
    smaller: &Program,
    digits: i32,
    pivots: u64,
    watcher: &mut dyn Watcher,
) -> Result<Refuting, Stop>
    ensures made { IfOk result (λ guessed. guessed.pivots ≤ pivots) }
{
    let margins = margins_of(alloc, smaller, PLACES, digits)?;
    let guess = elastic_guess(alloc, smaller, &margins, pivots, watcher)?;
    let multipliers = multipliers_of(alloc, smaller, &margins, &guess.multipliers)?;
    Ok(Refuting {
        multipliers,
        pivots: guess.pivots,
    })
}

/// Multipliers before they are rounded, and the pivots that they took.
#[derive(Drop)]
pub(crate) struct ElasticGuess {
    pub(crate) multipliers: Vec<f64>,
    pub(crate) pivots: u64,
}

/// A guess at multipliers that show that there is no plan. Where a row is false as it stands, nothing has to be guessed, and there are none.
pub(crate) fn elastic_guess(
    alloc: Global,
    smaller: &Program,
    margins: &Margins,
    pivots: u64,
    watcher: &mut dyn Watcher,
) -> Result<ElasticGuess, Stop>
    ensures made { IfOk result (λ guessed. guessed.pivots ≤ pivots) }
{
    if smaller.is_false() {
        return Ok(ElasticGuess {
            multipliers: Vec::new(alloc),
            pivots: 0,
        });
    }
    let asked = elastic_program(alloc, smaller, margins)?;
    match limited_guess(alloc, &asked, pivots, watcher)? {
        Some(guess) => Ok(ElasticGuess {
            multipliers: guess.multipliers,
            pivots: guess.pivots,
        }),
        None => Err(Stop::GivenUp),
    }
}
