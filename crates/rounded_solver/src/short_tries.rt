//! Tries with numbers that are short by their size, over named rows alone.

ghost use Rattle.std.specs.Prelude.{◌≤◌, IfOk, IfSome};
ghost use Rattle.certified_answers.specs.Answers.{IsFoundBy};
ghost use Rattle.rounded_solver.specs.Listed.{AreListed};

use crate::asked::{Limits, NamedRows, no_guess};
use crate::certifying::{certified_rows, refuted_rows};
use crate::short_numbers::{Doubt, Measured, measure, short_end, short_refuting, without_costs};
use call_stages::{Stage, Watcher};
use certified_answers::{Certified, NoAnswer};
use row_core::{Row, Var};
use std::alloc::{AllocError, Global};

/// The decimals of values and the significant digits of multipliers, try by try.
const TRIES: [(i32, i32); 2] = [(8, 10), (6, 8)];

/// The significant digits of multipliers that show that there is no plan, and how many decimals more than the fewest sums get, try by try.
const REFUTING: [(i32, i32); 3] = [(12, 5), (10, 2), (8, 0)];

/// Looks for a plan whose cost is above a proved bound by at most so many millionths of the bound, or for multipliers that show that
/// there is no plan, from rows alone: no defined variable is removed from them exactly, so it goes on where that forms numbers that
/// don't fit. Each guess may take so many pivots at most. `defs` says of each row which variable it defines, if it defines one, and
/// `vars` are the variables of the rows. `start` has a value for each of them, in order, where there is a plan to start from: another
/// model's, or another solver's answer, of any accuracy, 0 where nothing is known.
///
/// Nothing is given to which the checker doesn't say yes. A plan has one value for each variable, in order; multipliers ascend by the
/// names of rows; the pivots that are told are those of the guess. When nothing is given isn't defined: then nothing is known of the
/// rows. Refuses only out of memory.
pub fn guessed_rows(
    alloc: Global,
    rows: &[Row],
    defs: &[Option<Var>],
    vars: &[Var],
    start: Option<&[f64]>,
    ppm: u32,
    pivots: u64,
    watcher: &mut dyn Watcher,
) -> Result<Option<Certified>, AllocError>
    requires { AreListed rows.now vars.now }
    ensures { IfOk result (λ found. IfSome found (IsFoundBy rows.now vars.now ppm pivots)) }
{
    let asked = NamedRows { rows, defs, vars };
    match short_attempts(alloc, &asked, start, Limits { ppm, pivots }, watcher) {
        Ok(found) => Ok(found),
        Err(NoAnswer::Memory) => Err(AllocError),
        Err(_) => Ok(None),
    }
}

/// A plan of least cost by guesses from given values, and where they find none, by guesses from nothing: so values that are far off, or
/// make numbers that don't fit, hide none. Where there seems to be none, what proves that.
fn short_attempts(
    alloc: Global,
    asked: &NamedRows<'_>,
    start: Option<&[f64]>,
    limits: Limits,
    watcher: &mut dyn Watcher,
) -> Result<Option<Certified>, NoAnswer>
    requires { AreListed asked.now.rows.now asked.now.vars.now }
    ensures { IfOk result (λ found. IfSome found (IsFoundBy asked.now.rows.now asked.now.vars.now limits.ppm limits.pivots)) }
{
    if start.is_some() {
        match short_plan(alloc, asked, start, limits, watcher) {
            Ok(Some(found)) => return Ok(Some(found)),
            Err(NoAnswer::Memory) => return Err(NoAnswer::Memory),
            _ => {}
        }
    }
    match short_plan(alloc, asked, None, limits, watcher)? {
        Some(found) => Ok(Some(found)),
        None => Ok(Some(short_refutation(alloc, asked, limits, watcher)?)),
    }
}

/// The first try at a plan that the checker accepts. None where there seems to be no plan.
fn short_plan(
    alloc: Global,
    asked: &NamedRows<'_>,
    start: Option<&[f64]>,
    limits: Limits,
    watcher: &mut dyn Watcher,
) -> Result<Option<Certified>, NoAnswer>
    requires { AreListed asked.now.rows.now asked.now.vars.now }
    ensures { IfOk result (λ found. IfSome found (IsFoundBy asked.now.rows.now asked.now.vars.now limits.ppm limits.pivots)) }
{
    for (places, digits) in TRIES {
        let first = measure(alloc, asked, start, limits.pivots, watcher).map_err(no_guess)?;
        let Some(measured) = first else {
            return Ok(None);
        };
        match one_try(alloc, asked, measured, places, digits, limits, watcher) {
            Ok(found) => return Ok(found),
            Err(NoAnswer::Memory) => return Err(NoAnswer::Memory),
            Err(_) => {}
        }
    }
    Err(NoAnswer::Nothing)
}

/// One try, with so many decimals where there is room for them. What was measured is gone before the checks, in which memory is needed most.
fn one_try(
    alloc: Global,
    asked: &NamedRows<'_>,
    measured: Measured,
    places: i32,
    digits: i32,
    limits: Limits,
    watcher: &mut dyn Watcher,
) -> Result<Option<Certified>, NoAnswer>
    requires listed { AreListed asked.now.rows.now asked.now.vars.now }
    requires made { measured.first.pivots ≤ limits.pivots }
    ensures { IfOk result (λ found. IfSome found (IsFoundBy asked.now.rows.now asked.now.vars.now limits.ppm limits.pivots)) }
{
    match short_end(
        alloc,
        asked,
        measured,
        places,
        digits,
        limits.pivots,
        watcher,
    ) {
        Ok(Some(end)) => {
            watcher.see(Stage::Checks);
            let found = certified_rows(
                alloc,
                asked,
                &end.values,
                &end.multipliers,
                limits,
                end.pivots,
            )?;
            Ok(Some(found))
        }
        Ok(None) => Ok(None),
        Err(stop) => Err(no_guess(stop)),
    }
}

/// The first try at multipliers that show that there is no plan that the checker accepts.
fn short_refutation(
    alloc: Global,
    asked: &NamedRows<'_>,
    limits: Limits,
    watcher: &mut dyn Watcher,
) -> Result<Certified, NoAnswer>
    requires { AreListed asked.now.rows.now asked.now.vars.now }
    ensures { IfOk result (IsFoundBy asked.now.rows.now asked.now.vars.now limits.ppm limits.pivots) }
{
    let doubt = without_costs(alloc, asked).map_err(no_guess)?;
    for (digits, more) in REFUTING {
        match one_refuting_try(alloc, asked, &doubt, digits, more, limits, watcher) {
            Ok(found) => return Ok(found),
            Err(NoAnswer::Memory) => return Err(NoAnswer::Memory),
            Err(_) => {}
        }
    }
    Err(NoAnswer::Nothing)
}

/// One try at such multipliers.
fn one_refuting_try(
    alloc: Global,
    asked: &NamedRows<'_>,
    doubt: &Doubt,
    digits: i32,
    more: i32,
    limits: Limits,
    watcher: &mut dyn Watcher,
) -> Result<Certified, NoAnswer>
    requires { AreListed asked.now.rows.now asked.now.vars.now }
    ensures { IfOk result (IsFoundBy asked.now.rows.now asked.now.vars.now limits.ppm limits.pivots) }
{
    let guessed = short_refuting(
        alloc,
        asked.vars,
        doubt,
        digits,
        more,
        limits.pivots,
        watcher,
    );
    let end = guessed.map_err(no_guess)?;
    watcher.see(Stage::Checks);
    refuted_rows(alloc, asked, &end.multipliers, limits, end.pivots)
}
