//! Tries at a plan of least cost, each with other numbers of decimals.

ghost use Rattle.std.specs.Prelude.{◌≤◌, IfOk, IfSome};
ghost use Rattle.certified_answers.specs.Answers.{IsFoundBy};
ghost use Rattle.row_problem.specs.ProgramsOf.{IsPosedProblem};

use crate::asked::{Limits, no_guess};
use crate::certifying::certified;
use crate::limit::{Origin, guess_from};
use crate::starting::{floats_of, starting_basis};
use call_stages::{Stage, Watcher};
use certified_answers::{Certified, NoAnswer};
use exact_num::Frac;
use presolved_program::{Program, Stop};
use rounded_program::{Margins, margins_of, multipliers_of, rounded_program, values_of};
use row_problem::Problem;
use std::alloc::Global;

/// The decimals of values and the significant digits of multipliers, try by try: fewer need fewer bits, and leave a wider gap.
pub const TRIES: [(i32, i32); 5] = [(8, 10), (7, 9), (6, 8), (5, 7), (4, 6)];

/// Values of columns or of variables and multipliers of rows, both in order, and the pivots that they took.
#[derive(Drop)]
pub(crate) struct RoundedEnd {
    pub(crate) values: Vec<Frac>,
    pub(crate) multipliers: Vec<Frac>,
    pub(crate) pivots: u64,
}

/// The first try that the checker accepts. None where there seems to be no plan.
pub(crate) fn cheapest_plan(
    alloc: Global,
    problem: &Problem<'_>,
    smaller: Program,
    limits: Limits,
    watcher: &mut dyn Watcher,
) -> Result<Option<Certified>, NoAnswer>
    requires { IsPosedProblem problem.now }
    ensures { IfOk result (λ found. IfSome found (IsFoundBy problem.now.rows.now problem.now.vars.now limits.ppm limits.pivots)) }
{
    if smaller.is_false() {
        return Ok(None);
    }
    for (places, digits) in TRIES {
        match one_try(alloc, problem, &smaller, places, digits, limits, watcher) {
            Ok(found) => return Ok(found),
            Err(NoAnswer::Memory) => return Err(NoAnswer::Memory),
            Err(_) => {}
        }
    }
    Err(NoAnswer::Nothing)
}

/// One try, with so many decimals.
fn one_try(
    alloc: Global,
    problem: &Problem<'_>,
    smaller: &Program,
    places: i32,
    digits: i32,
    limits: Limits,
    watcher: &mut dyn Watcher,
) -> Result<Option<Certified>, NoAnswer>
    requires { IsPosedProblem problem.now }
    ensures { IfOk result (λ found. IfSome found (IsFoundBy problem.now.rows.now problem.now.vars.now limits.ppm limits.pivots)) }
{
    let mut start = Vec::new(alloc);
    match rounded_end(
        alloc,
        smaller,
        &mut start,
        places,
        digits,
        limits.pivots,
        watcher,
    ) {
        Ok(Some(end)) => {
            watcher.see(Stage::Checks);
            let found = certified(
                alloc,
                problem,
                &end.values,
                &end.multipliers,
                limits,
                end.pivots,
            )?;
            Ok(Some(found))
        }
        Ok(None) => Ok(None),
        Err(stop) => Err(no_guess(stop)),
    }
}

/// The end of a guess, rounded. None where there seems to be no plan. The guess begins from values of the columns, in order, where there
/// are any, and leaves those that it ends at.
pub(crate) fn rounded_end(
    alloc: Global,
    smaller: &Program,
    start: &mut Vec<f64>,
    places: i32,
    digits: i32,
    pivots: u64,
    watcher: &mut dyn Watcher,
) -> Result<Option<RoundedEnd>, Stop>
    ensures made { IfOk result (λ end. IfSome end (λ e. e.pivots ≤ pivots)) }
{
    let margins = margins_of(alloc, smaller, places, digits)?;
    match values_end(alloc, smaller, &margins, start, pivots, watcher)? {
        Some(end) => Ok(Some(RoundedEnd {
            values: end.values,
            multipliers: multipliers_of(alloc, smaller, &margins, &end.multipliers)?,
            pivots: end.pivots,
        })),
        None => Ok(None),
    }
}

/// Values of columns, and the multipliers of rows before they are rounded.
#[derive(Drop)]
pub(crate) struct ValuesEnd {
    pub(crate) values: Vec<Frac>,
    multipliers: Vec<f64>,
    pivots: u64,
}

/// The end of a guess with these margins, of which the values are rounded. None where there seems to be no plan.
pub(crate) fn values_end(
    alloc: Global,
    smaller: &Program,
    margins: &Margins,
    start: &mut Vec<f64>,
    pivots: u64,
    watcher: &mut dyn Watcher,
) -> Result<Option<ValuesEnd>, Stop>
    ensures made { IfOk result (λ end. IfSome end (λ e. e.pivots ≤ pivots)) }
{
    let asked = rounded_program(alloc, smaller, margins)?;
    let basis = starting_basis(alloc, smaller, &asked, start)?;
    match guess_from(alloc, &asked, &basis, Origin::Values, pivots, watcher)? {
        Some(guess) => {
            let values = values_of(alloc, smaller, margins, &guess.values)?;
            *start = floats_of(alloc, &values)?;
            Ok(Some(ValuesEnd {
                values,
                multipliers: guess.multipliers,
                pivots: guess.pivots,
            }))
        }
        None => Ok(None),
    }
}
