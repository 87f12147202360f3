//! New capacities raised, until total capacities have few decimals; and the values of all variables.
//!
//! A residual capacity with many decimals makes the total capacity one with as many. The row that says how much of a capacity is used in a
//! year multiplies it by a number of up to 36 decimals, so it has to be short.

use crate::room::Room;
use exact_num::{Frac, add, cmp_frac, mul, sub};
use presolved_program::{
    Layout, Stop, at, filled, float_of, item, less_product, number_at, put, quotient, rounded_up,
    whole,
};
use row_core::equation_numbers::{CAA2, CAB1, NCC1, TCC1};
use row_core::kind_numbers::NEW_CAPACITY;
use row_core::{Index, Row, Var};
use std::alloc::Global;

/// 2^120: products of capacities below this need not be shorter.
const WIDE: f64 = 1329227995784915872903807060280344576.0;

/// A total capacity, in its place among the variables, and the decimal that it may be raised to.
#[derive(Clone, Copy)]
struct Total {
    variable: usize,
    capacity: Frac,
    short: Frac,
}

/// The value of each variable, in order, from values of those that a plan chooses. New capacities are raised, year by year, so that total
/// capacities have no more decimals than there is room for.
pub(crate) fn raised_values(
    alloc: Global,
    rows: &[Row],
    vars: &[Var],
    layout: &Layout,
    room: &Room,
    chosen: &[Frac],
) -> Result<Vec<Frac>, Stop> {
    let mut values = filled(alloc, whole(0)?, vars.len())?;
    for (variable, value) in layout.chosen.iter().zip(chosen.iter()) {
        put(&mut values, *variable, *value)?;
    }
    for (place, row) in rows.iter().enumerate() {
        if row.name.eq == CAA2
            && let Some(total) = wide_total(&mut values, rows, layout, room, place)?
        {
            raise(&mut values, rows, vars, layout, row.name.index, total)?;
        }
    }
    for place in 0..rows.len() {
        if let Some(variable) = at(&layout.defined, place)? {
            let value = defined_value(&values, rows, layout, place, variable)?;
            put(&mut values, variable, value)?;
        }
    }
    Ok(values)
}

/// The total capacity that a row defines, where it makes a long number in the row that says how much of it is used.
fn wide_total(
    values: &mut [Frac],
    rows: &[Row],
    layout: &Layout,
    room: &Room,
    place: usize,
) -> Result<Option<Total>, Stop> {
    let Some(variable) = at(&layout.defined, place)? else {
        return Ok(None);
    };
    for entry in item(&layout.rows, place)? {
        if entry.at != variable
            && let Some(definer) = at(&layout.definer, entry.at)?
        {
            let accumulated = defined_value(values, rows, layout, definer, entry.at)?;
            put(values, entry.at, accumulated)?;
        }
    }
    let capacity = defined_value(values, rows, layout, place, variable)?;
    if !is_wide(rows, layout, variable, capacity)? {
        return Ok(None);
    }
    let short = rounded_up(capacity, at(&room.places, variable)?)?;
    Ok(Some(Total {
        variable,
        capacity,
        short,
    }))
}

/// The value of the variable that a row defines.
fn defined_value(
    values: &[Frac],
    rows: &[Row],
    layout: &Layout,
    place: usize,
    variable: usize,
) -> Result<Frac, Stop> {
    let entries = item(&layout.rows, place)?;
    let mut rest = whole(item(rows, place)?.rhs)?;
    for entry in entries {
        if entry.at != variable {
            rest = less_product(rest, entry.value(), at(values, entry.at)?)?;
        }
    }
    quotient(rest, whole(number_at(entries, variable))?)
}

/// Whether a total capacity makes a long number in the row that says how much of it is used.
fn is_wide(rows: &[Row], layout: &Layout, total: usize, capacity: Frac) -> Result<bool, Stop> {
    for entry in item(&layout.columns, total)? {
        if item(rows, entry.at)?.name.eq == CAB1 {
            let size = float_of(entry.number) * float_of(capacity.num);
            return Ok(size.abs() >= WIDE);
        }
    }
    Ok(false)
}

/// Raises the new capacity of a region, technology and year by what the total capacity lacks, where limits allow it.
fn raise(
    values: &mut [Frac],
    rows: &[Row],
    vars: &[Var],
    layout: &Layout,
    index: Index,
    total: Total,
) -> Result<(), Stop> {
    let var = Var {
        kind: NEW_CAPACITY,
        index,
    };
    let Ok(variable) = vars.binary_search(&var) else {
        return Ok(());
    };
    let raised = add(at(values, variable)?, sub(total.short, total.capacity)?)?;
    if keeps_limit(rows, layout, total.variable, TCC1, total.short)?
        && keeps_limit(rows, layout, variable, NCC1, raised)?
    {
        put(values, variable, raised)?;
    }
    Ok(())
}

/// Whether a value keeps the rows of its column that this equation makes, which have no other entry.
fn keeps_limit(
    rows: &[Row],
    layout: &Layout,
    variable: usize,
    equation: u8,
    value: Frac,
) -> Result<bool, Stop> {
    for entry in item(&layout.columns, variable)? {
        let row = item(rows, entry.at)?;
        if row.name.eq == equation {
            let used = mul(entry.value(), value)?;
            if cmp_frac(whole(row.rhs)?, used).is_lt() {
                return Ok(false);
            }
        }
    }
    Ok(true)
}
