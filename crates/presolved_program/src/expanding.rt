//! Inequalities in columns alone, in rounded numbers: without the numbers of many digits that the exact elimination of the defined
//! variables may want.

use crate::access::{at, filled, item, push_at, put};
use crate::decimals::{digits_before, float_power, over, power};
use crate::entries::{Entry, whole};
use crate::floats::{float_of, nearest};
use crate::inequalities::{Aim, Inequalities, forget_costs, no_rows};
use crate::layout::{Layout, number_at};
use crate::stop::Stop;
use crate::sums::{Gathered, Sum};
use exact_num::{difference, fits};
use row_core::equation_numbers::{EBA11, EBB4};
use row_core::kind_numbers::{
    ANNUAL_TECHNOLOGY_EMISSION_PENALTY_BY_EMISSION, CAPITAL_INVESTMENT, DISCOUNTED_OPERATING_COST,
    MODEL_PERIOD_COST_BY_REGION, PRODUCTION, PRODUCTION_ANNUAL, RATE_OF_TOTAL_ACTIVITY,
    TOTAL_CAPACITY_IN_RESERVE_MARGIN, TOTAL_DISCOUNTED_COST, TOTAL_RE_PRODUCTION_ANNUAL, TRADE,
};
use row_core::{Row, RowName, Sense, Var};
use std::alloc::Global;

/// The greatest number of a row gets so many digits before and after the point.
const DIGITS: i32 = 16;

/// Numbers of data have at most so many decimals: what is as good as such a number is taken for it.
const DECIMALS: i32 = 9;

/// A cost below this is an error of rounding, and counts as 0.
const NOTHING: f64 = 0.0000000000001;

/// By so much of itself a number may be off.
const OFF: f64 = 1.0 / 1125899906842624.0;

/// Variables as sums of columns.
#[derive(Drop)]
struct Expanding {
    /// The sum of each variable that has one yet.
    sums: Vec<Option<Sum>>,
    gathered: Gathered,
}

/// The inequalities among rows as rows that read at most, without defined variables, for an aim. The columns are the variables that
/// aren't defined, in order.
pub fn expanded(
    alloc: Global,
    rows: &[Row],
    vars: &[Var],
    layout: &Layout,
    aim: Aim,
) -> Result<Inequalities, Stop> {
    let columns = layout.chosen.as_slice();
    let mut all = no_rows(alloc, free_among(alloc, vars, columns)?)?;
    expand(alloc, &mut all, rows, vars, layout, aim)?;
    Ok(all)
}

/// Adds the rows that read at most, and the costs for an aim.
// (What is owned is made in one function and filled in another: each `?` of a function drops all that it owns, and each drop is proved.)
fn expand(
    alloc: Global,
    all: &mut Inequalities,
    rows: &[Row],
    vars: &[Var],
    layout: &Layout,
    aim: Aim,
) -> Result<(), Stop> {
    let columns = layout.chosen.as_slice();
    let mut expanding = Expanding {
        sums: column_sums(alloc, vars.len(), columns)?,
        gathered: Gathered::new(alloc, columns.len())?,
    };
    expand_rows(alloc, all, &mut expanding, rows, vars, layout)?;
    price(alloc, all, vars, layout, columns)?;
    if aim != Aim::Cheapest {
        forget_costs(all, aim)?;
    }
    Ok(())
}

/// Takes the rows one after another: a definition is kept, another row that reads at most is added.
fn expand_rows(
    alloc: Global,
    all: &mut Inequalities,
    expanding: &mut Expanding,
    rows: &[Row],
    vars: &[Var],
    layout: &Layout,
) -> Result<(), Stop> {
    for (place, row) in rows.iter().enumerate() {
        match at(&layout.defined, place)? {
            Some(variable) => {
                if !is_cost(at(vars, variable)?.kind) {
                    define(alloc, expanding, row, item(&layout.rows, place)?, variable)?;
                }
            }
            None => {
                if row.sense != Sense::Equal {
                    add_row(alloc, all, expanding, row, item(&layout.rows, place)?, vars)?;
                }
            }
        }
    }
    Ok(())
}

/// Which columns may be below 0.
fn free_among(alloc: Global, vars: &[Var], columns: &[usize]) -> Result<Vec<bool>, Stop> {
    let mut free = Vec::with_capacity(alloc, columns.len())?;
    for variable in columns {
        free.push(at(vars, *variable)?.kind == TRADE)?;
    }
    Ok(free)
}

/// Each column is itself; of other variables nothing is known yet.
fn column_sums(alloc: Global, count: usize, columns: &[usize]) -> Result<Vec<Option<Sum>>, Stop> {
    let mut sums = Vec::with_capacity(alloc, count)?;
    let mut column: usize = 0;
    for variable in 0..count {
        if columns.get(column) == Some(&variable) {
            let mut entries = Vec::with_capacity(alloc, 1)?;
            entries.push((column, 1.0))?;
            sums.push(Some(Sum {
                entries,
                constant: 0.0,
            }))?;
            column = column.saturating_add(1);
        } else {
            sums.push(None)?;
        }
    }
    Ok(sums)
}

/// Whether a variable is a cost: no inequality has one.
fn is_cost(kind: u8) -> bool {
    (CAPITAL_INVESTMENT <= kind && kind <= DISCOUNTED_OPERATING_COST)
        || (ANNUAL_TECHNOLOGY_EMISSION_PENALTY_BY_EMISSION <= kind
            && kind <= MODEL_PERIOD_COST_BY_REGION)
}

/// The sum of the variable that a row defines.
fn define(
    alloc: Global,
    expanding: &mut Expanding,
    row: &Row,
    entries: &[Entry],
    variable: usize,
) -> Result<(), Stop> {
    let own = float_of(number_at(entries, variable));
    expanding
        .gathered
        .add_entries(&expanding.sums, entries, own, Some(variable))?;
    expanding.gathered.add_constant(-float_of(row.rhs) / own);
    let sum = expanding.gathered.take(alloc, -1.0)?;
    match expanding.sums.get_mut(variable) {
        Some(place) => {
            *place = Some(sum);
            Ok(())
        }
        None => Err(Stop::GivenUp),
    }
}

/// The number of a row that is 1 in the equation, where there is one: the row over it is the equation.
fn unit_of(row: &Row) -> Result<i128, Stop> {
    for (var, number) in &row.entries {
        if is_unit(var.kind) {
            return Ok(number.saturating_abs());
        }
    }
    match row.entries.first() {
        Some((_, number)) => Ok(number.saturating_abs()),
        None => Ok(1),
    }
}

/// Whether inequalities of several variables have this one times 1.
fn is_unit(kind: u8) -> bool {
    kind == PRODUCTION
        || kind == PRODUCTION_ANNUAL
        || kind == RATE_OF_TOTAL_ACTIVITY
        || kind == TOTAL_CAPACITY_IN_RESERVE_MARGIN
        || kind == TOTAL_RE_PRODUCTION_ANNUAL
}

/// Adds an inequality; one that reads at least is negated.
fn add_row(
    alloc: Global,
    all: &mut Inequalities,
    expanding: &mut Expanding,
    row: &Row,
    entries: &[Entry],
    vars: &[Var],
) -> Result<(), Stop> {
    let unit = unit_of(row)?;
    let divisor = float_of(unit);
    expanding
        .gathered
        .add_entries(&expanding.sums, entries, divisor, None)?;
    let negated = row.sense == Sense::Least;
    let sign = if negated { -1.0 } else { 1.0 };
    expanding
        .gathered
        .add_constant(-float_of(row.rhs) / divisor);
    let sum = expanding.gathered.take(alloc, sign)?;
    let places = places_of(row.name, &sum)?;
    add_entries(alloc, all, &sum, places)?;
    let side = rounded_number(-sum.constant, places)?;
    all.right.push(whole(side)?)?;
    all.sides.push(float_of(side))?;
    all.names.push(row.name)?;
    all.negated.push(negated)?;
    all.scales.push(over(power(places.unsigned_abs())?, unit)?)?;
    all.row_on.push(true)?;
    Ok(())
}

/// How many decimals the numbers of a row get. Balances of timeslices and of the year get the same, so that one is the sum of the
/// others.
fn places_of(name: RowName, sum: &Sum) -> Result<i32, Stop> {
    if name.eq == EBA11 || name.eq == EBB4 {
        return Ok(DIGITS);
    }
    let mut most: f64 = 0.0;
    for (_, number) in &sum.entries {
        most = most.max(number.abs());
    }
    if most == 0.0 {
        return Ok(DIGITS);
    }
    Ok(DIGITS.saturating_sub(digits_before(most)?).max(DECIMALS))
}

/// The entries of a row, with so many decimals.
fn add_entries(alloc: Global, all: &mut Inequalities, sum: &Sum, places: i32) -> Result<(), Stop> {
    let row = all.rows.len();
    let mut entries = Vec::with_capacity(alloc, sum.entries.len())?;
    for (column, value) in &sum.entries {
        let number = rounded_number(*value, places)?;
        if number != 0 {
            entries.push(Entry::new(*column, number)?)?;
            push_at(&mut all.columns, *column, Entry::new(row, number)?)?;
        }
    }
    all.rows.push(entries)?;
    Ok(())
}

/// A number times 10^places, rounded: exactly where it is as good as a number of data.
fn rounded_number(value: f64, places: i32) -> Result<i128, Stop> {
    let scaled = value * float_power(DECIMALS);
    let short = nearest(scaled)?;
    if (scaled - float_of(short)).abs() <= scaled.abs() * OFF {
        let more = power(places.saturating_sub(DECIMALS).unsigned_abs())?;
        return Ok(exact_num::product(short, more)?);
    }
    nearest(value * float_power(places))
}

/// The cost of each column: from the last definition to the first, a variable hands its cost to what defines it.
fn price(
    alloc: Global,
    all: &mut Inequalities,
    vars: &[Var],
    layout: &Layout,
    columns: &[usize],
) -> Result<(), Stop> {
    let mut costs = filled(alloc, 0.0, vars.len())?;
    for (variable, var) in vars.iter().enumerate() {
        if var.kind == TOTAL_DISCOUNTED_COST {
            put(&mut costs, variable, 1.0)?;
        }
    }
    for row in (0..layout.rows.len()).rev() {
        if let Some(variable) = at(&layout.defined, row)? {
            hand_on(&mut costs, item(&layout.rows, row)?, variable)?;
        }
    }
    for (column, variable) in columns.iter().enumerate() {
        let cost = at(&costs, *variable)?;
        if cost.abs() > NOTHING {
            put(&mut all.costs, column, cost)?;
        }
    }
    Ok(())
}

/// Hands the cost of a defined variable to the others of its row.
fn hand_on(costs: &mut [f64], entries: &[Entry], variable: usize) -> Result<(), Stop> {
    let cost = at(costs, variable)?;
    if cost == 0.0 {
        return Ok(());
    }
    let own = float_of(number_at(entries, variable));
    for entry in entries {
        if entry.at != variable {
            let before = at(costs, entry.at)?;
            put(
                costs,
                entry.at,
                before - cost * (float_of(entry.number) / own),
            )?;
        }
    }
    Ok(())
}
