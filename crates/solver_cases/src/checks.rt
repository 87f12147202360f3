//! What the checker says: `NAME|gap|COST|BOUND|PPM`, or `NAME|KIND|ROWS|NUMBERS|COST`, of which `plan` and `direction` have values of the
//! three variables and `bound` and `none` multipliers of the first three rows. `COST` stands where another cost than the model's is meant.

ghost use Rattle.std.specs.Prelude.{IsTrue};
ghost use Rattle.exact_num.specs.Range.{InRange};
ghost use Rattle.row_core.specs.Numbers.{variables_of, numbers_of, ascends, all_in_range};
ghost use Rattle.row_core.specs.Order.{var_cmp};
ghost use Rattle.certificate_checker.specs.CostNumbers.{IsCost};

use crate::numbers::{fraction_of, next_fraction};
use crate::small_rows::{ACTIVITY, CAPACITY, FIRST, NAMES, number, rows};
use crate::verdicts::told;
use certificate_checker::{
    CostNumbers, Verdict, check_bound, check_direction, check_gap, check_infeasible, check_plan,
};
use row_core::kind_numbers::TOTAL_DISCOUNTED_COST;
use row_core::{Multipliers, Plan, Row, Var};
use std::alloc::{AllocError, Global};
use std::io;

/// The cost.
pub(crate) const COST: Var = Var {
    kind: TOTAL_DISCOUNTED_COST,
    index: FIRST,
};

/// The variables.
const VARS: [Var; 3] = [ACTIVITY, CAPACITY, COST];

/// Prints what the checker says of a case.
pub fn print_check(rt: &HostRuntime, line: &str) -> io::Result<()> {
    let mut fields = line.split('|');
    let name = fields.next().unwrap_or("");
    let kind = fields.next().unwrap_or("");
    let first = fields.next().unwrap_or("");
    let second = fields.next().unwrap_or("");
    let third = fields.next().unwrap_or("");
    println!(rt; "== {name}")?;
    if kind == "gap" {
        let ppm = third.parse::<u32>().unwrap_or(0);
        let found = check_gap(fraction_of(first), fraction_of(second), ppm);
        println!(rt; "{}", told(rt.alloc(), found)?)?;
        return Ok(());
    }
    let Ok(rows) = rows(rt.alloc(), COST, first) else {
        println!(rt; "no rows")?;
        return Ok(());
    };
    let found = match kind {
        "plan" => check_plan(&rows, &VARS, &plan(rt.alloc(), second)?),
        "direction" => check_along(rt.alloc(), &rows, second, third)?,
        "none" => check_infeasible(rt.alloc(), &rows, &VARS, &multipliers(rt.alloc(), second)?)?,
        _ => check_proof(rt.alloc(), &rows, second, third)?,
    };
    println!(rt; "{}", told(rt.alloc(), found)?)?;
    Ok(())
}

/// What is said of a direction of these values.
fn check_along(
    alloc: Global,
    rows: &[Row],
    values: &str,
    cost: &str,
) -> Result<Verdict, AllocError> {
    let direction = plan(alloc, values)?;
    let numbers = costs(cost);
    Ok(check_direction(rows, &VARS, &numbers_in(cost, &numbers), &direction))
}

/// What is said of the bound of these multipliers.
fn check_proof(
    alloc: Global,
    rows: &[Row],
    values: &str,
    cost: &str,
) -> Result<Verdict, AllocError> {
    let multipliers = multipliers(alloc, values)?;
    let numbers = costs(cost);
    check_bound(
        alloc,
        rows,
        &VARS,
        &numbers_in(cost, &numbers),
        &multipliers,
    )
}

/// The cost of these numbers, and where none are written the model's.
fn numbers_in<'a>(text: &str, numbers: &'a [(Var, i128)]) -> CostNumbers<'a>
    requires ascending { IsTrue (ascends var_cmp (variables_of numbers.now)) }
    requires fits { IsTrue (all_in_range (numbers_of numbers.now)) }
    ensures { IsCost result }
{
    if text.is_empty() {
        CostNumbers::Model
    } else {
        CostNumbers::Given(numbers)
    }
}

/// The values of the three variables.
fn plan(alloc: Global, text: &str) -> Result<Plan, AllocError> {
    let mut words = text.split_ascii_whitespace();
    let activity = next_fraction(words.next());
    let capacity = next_fraction(words.next());
    let cost = next_fraction(words.next());
    let values = vec![in alloc; (ACTIVITY, activity), (CAPACITY, capacity), (COST, cost)]?;
    Ok(Plan::of(values))
}

/// The multipliers of the first three rows.
fn multipliers(alloc: Global, text: &str) -> Result<Multipliers, AllocError> {
    let mut words = text.split_ascii_whitespace();
    let first = next_fraction(words.next());
    let second = next_fraction(words.next());
    let third = next_fraction(words.next());
    let values = vec![in alloc; (NAMES[0], first), (NAMES[1], second), (NAMES[2], third)]?;
    Ok(Multipliers::of(values))
}

/// A cost of whole numbers.
fn costs(text: &str) -> [(Var, i128); 3]
    ensures ascending { IsTrue (ascends var_cmp (variables_of result)) }
    ensures fits { IsTrue (all_in_range (numbers_of result)) }
{
    let mut words = text.split_ascii_whitespace();
    let activity = whole(words.next());
    let capacity = whole(words.next());
    let cost = whole(words.next());
    [(ACTIVITY, activity), (CAPACITY, capacity), (COST, cost)]
}

/// A whole number.
fn whole(text: Option<&str>) -> i128
    ensures { InRange result }
{
    i128::from(number(text))
}
