//! How large the numbers of a plan and of multipliers are, in rounded numbers.

ghost use Rattle.std.specs.Prelude.{◌≡◌, false, IfSome};
ghost use Rattle.row_core.specs.Kinds.{kind_is_free};

use exact_num::Frac;
use presolved_program::{
    Entry, Layout, Stop, at, digits_before, filled, float_of, float_of_frac, float_power, item,
    number_at, put,
};
use row_core::kind_numbers::{
    DISCOUNTED_CAPITAL_INVESTMENT, DISCOUNTED_OPERATING_COST,
    DISCOUNTED_TECHNOLOGY_EMISSIONS_PENALTY, TOTAL_ANNUAL_TECHNOLOGY_ACTIVITY_BY_MODE,
    TOTAL_CAPACITY_ANNUAL, TOTAL_DISCOUNTED_COST,
};
use row_core::{Row, Var};
use std::alloc::Global;

/// Nine tenths of 2^127: what a number that is formed of this size may be.
const ROOM: f64 = 153126683000000000000000000000000000000.0;

/// How many decimals fit beside numbers of this size.
pub(crate) fn places_within(size: f64) -> Result<i32, Stop> {
    Ok(digits_before(ROOM / size)?.saturating_sub(1))
}

/// The value of each variable, from values of the columns.
pub(crate) fn values_of_all(
    alloc: Global,
    rows: &[Row],
    layout: &Layout,
    values: &[Frac],
) -> Result<Vec<f64>, Stop> {
    let mut all = filled(alloc, 0.0, layout.columns.len())?;
    for (variable, value) in layout.chosen.iter().zip(values.iter()) {
        put(&mut all, *variable, float_of_frac(*value))?;
    }
    for (place, row) in rows.iter().enumerate() {
        if let Some(variable) = at(&layout.defined, place)? {
            let value = defined_value(&all, row, item(&layout.rows, place)?, variable)?;
            put(&mut all, variable, value)?;
        }
    }
    Ok(all)
}

/// The value of the variable that a row defines.
fn defined_value(all: &[f64], row: &Row, entries: &[Entry], variable: usize) -> Result<f64, Stop> {
    let mut rest = float_of(row.rhs);
    for entry in entries {
        if entry.at != variable {
            rest = rest - float_of(entry.number) * at(all, entry.at)?;
        }
    }
    Ok(rest / float_of(number_at(entries, variable)))
}

/// The multiplier of each row, from those of the inequalities.
pub(crate) fn multipliers_of_all(
    alloc: Global,
    vars: &[Var],
    layout: &Layout,
    named: &[Frac],
) -> Result<Vec<f64>, Stop> {
    let mut all = filled(alloc, 0.0, layout.rows.len())?;
    for (row, multiplier) in layout.left.iter().zip(named.iter()) {
        put(&mut all, *row, float_of_frac(*multiplier))?;
    }
    for row in (0..layout.rows.len()).rev() {
        if let Some(variable) = at(&layout.defined, row)? {
            let start = if at(vars, variable)?.kind == TOTAL_DISCOUNTED_COST {
                1.0
            } else {
                0.0
            };
            let sum = column_sum(&all, item(&layout.columns, variable)?, row)?;
            let own = number_at(item(&layout.rows, row)?, variable);
            put(&mut all, row, (start - sum.value) / float_of(own))?;
        }
    }
    Ok(all)
}

/// A sum, and that of the absolute values.
#[derive(Clone, Copy)]
pub(crate) struct SizedSum {
    pub(crate) value: f64,
    pub(crate) size: f64,
}

/// The sum of a column's numbers times multipliers, but for one row.
pub(crate) fn column_sum(all: &[f64], entries: &[Entry], but: usize) -> Result<SizedSum, Stop> {
    let mut sum = SizedSum {
        value: 0.0,
        size: 0.0,
    };
    for entry in entries {
        if entry.at != but {
            let part = float_of(entry.number) * at(all, entry.at)?;
            sum.value = sum.value + part;
            sum.size = sum.size + part.abs();
        }
    }
    Ok(sum)
}

/// What the parts of a plan's cost are together, and somewhat more.
pub(crate) fn cost_size(vars: &[Var], all: &[f64]) -> f64 {
    let mut size = 1.0;
    for (var, value) in vars.iter().zip(all.iter()) {
        if is_part_of_cost(var.kind) {
            size = size + 1.05 * value.abs();
        }
    }
    size
}

/// What the parts of a bound are together, and somewhat more.
pub(crate) fn bound_size(rows: &[Row], multipliers: &[f64]) -> f64 {
    let mut size = 1.0;
    for (row, multiplier) in rows.iter().zip(multipliers.iter()) {
        size = size + 1.05 * (float_of(row.rhs) * *multiplier).abs();
    }
    size
}

/// Whether a variable is a part of what a technology costs.
fn is_part_of_cost(kind: u8) -> bool {
    kind == DISCOUNTED_CAPITAL_INVESTMENT
        || kind == DISCOUNTED_OPERATING_COST
        || kind == DISCOUNTED_TECHNOLOGY_EMISSIONS_PENALTY
}

/// How many decimals the sum of a column's multipliers is rounded down to, where it is: such a variable is at least 0, so its column
/// may have less than its cost, and without that the sums of capacities and of activities have the most digits of all.
pub(crate) fn short_sum(kind: u8) -> Option<i32>
    ensures { IfSome result (λ places. kind_is_free kind ≡ false) }
{
    if kind == TOTAL_CAPACITY_ANNUAL {
        Some(9)
    } else if kind == TOTAL_ANNUAL_TECHNOLOGY_ACTIVITY_BY_MODE {
        Some(10)
    } else {
        None
    }
}

/// By how much the sum of each variable's multipliers may be off, since sums of others are rounded down, with so many decimals more than
/// the fewest.
pub(crate) fn sum_errors(
    alloc: Global,
    vars: &[Var],
    layout: &Layout,
    more: i32,
) -> Result<Vec<f64>, Stop> {
    let mut errors = filled(alloc, 0.0, vars.len())?;
    for row in (0..layout.rows.len()).rev() {
        if let Some(variable) = at(&layout.defined, row)? {
            let mut error = at(&errors, variable)?;
            if let Some(places) = short_sum(at(vars, variable)?.kind) {
                error = error + 1.0 / float_power(places.saturating_add(more));
            }
            if error > 0.0 {
                add_error(&mut errors, item(&layout.rows, row)?, variable, error)?;
            }
        }
    }
    Ok(errors)
}

/// Adds the error of a defined variable's sum to those of the others of its row.
fn add_error(
    errors: &mut [f64],
    entries: &[Entry],
    variable: usize,
    error: f64,
) -> Result<(), Stop> {
    let own = float_of(number_at(entries, variable));
    for entry in entries {
        if entry.at != variable {
            let before = at(errors, entry.at)?;
            let part = (float_of(entry.number) / own).abs();
            put(errors, entry.at, before + part * error)?;
        }
    }
    Ok(())
}
