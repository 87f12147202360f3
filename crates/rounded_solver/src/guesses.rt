//! Guesses at a linear program alone, for a caller that has what is made of them checked.

ghost use Rattle.std.specs.Prelude.{◌≡◌, true, length, IfOk, IfSome};
ghost use Rattle.row_core.specs.Numbers.{ascends, keys_of};
ghost use Rattle.row_core.specs.Order.{var_cmp};
ghost use Rattle.rounded_solver.specs.Guesses.{IfValues};

use crate::plans::plan_of;
use crate::refuting::make_guess;
use crate::tries::{rounded_end, values_end};
use call_stages::Watcher;
use exact_num::Frac;
use presolved_program::{Aim, Program, Stop, prepare};
use rounded_program::margins_of;
use row_core::Plan;
use std::alloc::{AllocError, Global};
use written_method::Reduced;

/// The significant digits of multipliers, for which costs keep room.
const DIGITS: i32 = 9;

/// What a guess at values comes to. Nothing is proved of it.
#[derive(Drop)]
pub enum Guess {
    /// A value for each column, in order. They should meet all rows.
    Values(Plan),
    /// There seem to be no such values.
    NoValues,
    /// Nothing.
    Nothing,
}

/// A guess at a plan of least cost, and at what shows that none costs less. Nothing is proved of it.
#[derive(Drop)]
pub struct GuessedOptimum {
    /// A value for each column, in order.
    pub values: Plan,
    /// A multiplier for each row, in order.
    pub multipliers: Vec<Frac>,
}

/// Guesses at values of least cost, with so many decimals, by so many pivots at most. It begins from `start`, a value for each column in
/// order, of any accuracy, where there are any, and leaves those that it finds there, rounded, for the next guess, and none where it gives
/// up; where there seem to be no values, those that it began from stay. Refuses only out of memory.
///
/// A value stands for each column, in order; that they meet the rows, or that no values do, has to be checked.
pub fn guess_values(
    alloc: Global,
    reduced: &Reduced,
    start: &mut Vec<f64>,
    places: i32,
    pivots: u64,
    watcher: &mut dyn Watcher,
) -> Result<Guess, AllocError>
    requires { ascends var_cmp reduced.now.columns.items ≡ true }
    ensures { IfOk result (IfValues reduced.now.columns.items) }
{
    match values_guessed(alloc, reduced, start, places, pivots, watcher) {
        Ok(guessed) => Ok(guessed),
        Err(Stop::GivenUp) => {
            start.clear();
            Ok(Guess::Nothing)
        }
        Err(Stop::Memory) => Err(AllocError),
    }
}

/// The values of a guess, or why there are none.
fn values_guessed(
    alloc: Global,
    reduced: &Reduced,
    start: &mut Vec<f64>,
    places: i32,
    pivots: u64,
    watcher: &mut dyn Watcher,
) -> Result<Guess, Stop>
    requires { ascends var_cmp reduced.now.columns.items ≡ true }
    ensures { IfOk result (IfValues reduced.now.columns.items) }
{
    let smaller = prepare(alloc, reduced, Aim::Cheapest)?;
    if smaller.is_false() {
        return Ok(Guess::NoValues);
    }
    values_of_smaller(alloc, reduced, &smaller, start, places, pivots, watcher)
}

/// The values of a guess at the smaller program.
fn values_of_smaller(
    alloc: Global,
    reduced: &Reduced,
    smaller: &Program,
    start: &mut Vec<f64>,
    places: i32,
    pivots: u64,
    watcher: &mut dyn Watcher,
) -> Result<Guess, Stop>
    requires { ascends var_cmp reduced.now.columns.items ≡ true }
    ensures { IfOk result (IfValues reduced.now.columns.items) }
{
    let margins = margins_of(alloc, smaller, places, DIGITS)?;
    match values_end(alloc, smaller, &margins, start, pivots, watcher)? {
        Some(end) => {
            let plan = plan_of(alloc, reduced.columns.as_slice(), &end.values)?;
            Ok(Guess::Values(plan))
        }
        None => Ok(Guess::NoValues),
    }
}

/// Guesses at values of least cost with so many decimals, and at the multipliers that prove that cost with so many significant
/// digits, by so many pivots at most. None where nothing is guessed. It begins from `start`, as `guess_values` does, and leaves the values that it
/// finds there, and none where nothing is guessed. Refuses only out of memory.
///
/// That the values meet the rows, and that the multipliers prove a cost near theirs, has to be checked. `TRIES` has the numbers of
/// decimals and digits to be tried, in order.
pub fn guess_optimum(
    alloc: Global,
    reduced: &Reduced,
    start: &mut Vec<f64>,
    places: i32,
    digits: i32,
    pivots: u64,
    watcher: &mut dyn Watcher,
) -> Result<Option<GuessedOptimum>, AllocError>
    requires { ascends var_cmp reduced.now.columns.items ≡ true }
    ensures values { IfOk result (λ found. IfSome found (λ guessed. keys_of guessed.values ≡ reduced.now.columns.items)) }
    ensures multipliers { IfOk result (λ found. IfSome found (λ guessed. length guessed.multipliers.items ≡ length reduced.now.rows.items)) }
{
    match optimum_guessed(alloc, reduced, start, places, digits, pivots, watcher) {
        Ok(guessed) => {
            if guessed.multipliers.len() == reduced.rows.len() {
                Ok(Some(guessed))
            } else {
                Ok(None)
            }
        }
        Err(Stop::GivenUp) => {
            start.clear();
            Ok(None)
        }
        Err(Stop::Memory) => Err(AllocError),
    }
}

/// A guess at the optimum, or why there is none.
fn optimum_guessed(
    alloc: Global,
    reduced: &Reduced,
    start: &mut Vec<f64>,
    places: i32,
    digits: i32,
    pivots: u64,
    watcher: &mut dyn Watcher,
) -> Result<GuessedOptimum, Stop>
    requires { ascends var_cmp reduced.now.columns.items ≡ true }
    ensures { IfOk result (λ guessed. keys_of guessed.values ≡ reduced.now.columns.items) }
{
    let smaller = prepare(alloc, reduced, Aim::Cheapest)?;
    if smaller.is_false() {
        return Err(Stop::GivenUp);
    }
    let Some(end) = rounded_end(alloc, &smaller, start, places, digits, pivots, watcher)? else {
        return Err(Stop::GivenUp);
    };
    let values = plan_of(alloc, reduced.columns.as_slice(), &end.values)?;
    Ok(GuessedOptimum {
        values,
        multipliers: end.multipliers,
    })
}

/// Guesses at multipliers that refute the rows, with so many significant digits, by so many pivots at most: one for each row, in
/// order, not all of them 0. None where nothing is guessed. Refuses only out of memory.
///
/// That they refute the rows has to be checked.
pub fn guess_multipliers(
    alloc: Global,
    reduced: &Reduced,
    digits: i32,
    pivots: u64,
    watcher: &mut dyn Watcher,
) -> Result<Option<Vec<Frac>>, AllocError>
    ensures { IfOk result (λ found. IfSome found (λ lambda. length lambda.items ≡ length reduced.now.rows.items)) }
{
    match multipliers_guessed(alloc, reduced, digits, pivots, watcher) {
        Ok(lambda) => {
            if lambda.len() == reduced.rows.len() && has_some(&lambda) {
                Ok(Some(lambda))
            } else {
                Ok(None)
            }
        }
        Err(Stop::GivenUp) => Ok(None),
        Err(Stop::Memory) => Err(AllocError),
    }
}

/// Guessed multipliers, or why there are none.
fn multipliers_guessed(
    alloc: Global,
    reduced: &Reduced,
    digits: i32,
    pivots: u64,
    watcher: &mut dyn Watcher,
) -> Result<Vec<Frac>, Stop> {
    let smaller = prepare(alloc, reduced, Aim::Refutation)?;
    let guessed = make_guess(alloc, &smaller, digits, pivots, watcher)?;
    Ok(guessed.multipliers)
}

/// Whether some multiplier isn't 0.
fn has_some(lambda: &[Frac]) -> bool {
    lambda.iter().any(|multiplier| multiplier.num != 0)
}
