//! How many decimals the values and multipliers of a problem's rows may have, so that what the checks form of them fits.

use crate::asked::NamedRows;
use crate::sizes::{
    bound_size, column_sum, cost_size, multipliers_of_all, places_within, sum_errors, values_of_all,
};
use exact_num::Frac;
use presolved_program::{
    Entry, Layout, Program, Stop, at, filled, float_of, float_power, item, number_at, over, put,
    whole,
};
use rounded_program::{Rounding, places_beside, plain_rounding};
use row_core::equation_numbers::{ACC3, CAA2, CAA3, CAB1};
use row_core::kind_numbers::{
    NEW_CAPACITY, RATE_OF_ACTIVITY, RATE_OF_TOTAL_ACTIVITY, TOTAL_CAPACITY_ANNUAL,
    TOTAL_DISCOUNTED_COST,
};
use row_core::{Row, Var};
use std::alloc::Global;

/// More decimals than any number gets: no limit.
const MANY: i32 = 99;

/// The decimals of data.
const OF_DATA: i32 = 9;

/// The decimals that a demand has beside those of a balance's multiplier, and one more.
const BESIDE_BALANCE: i32 = 10;

/// The least sum of multipliers that room is left for.
const LEAST: f64 = 0.001;

/// Limits on decimals, by the places of variables and rows.
#[derive(Drop)]
pub(crate) struct Room {
    /// For each RateOfActivity the part of the year that its timeslice has: a rate times it is energy. 1 for any other variable.
    pub(crate) units: Vec<Frac>,
    /// How many decimals the value of each variable may have; of an activity, its energy.
    pub(crate) places: Vec<i32>,
    /// How many decimals the cost has beside those of the variable; below 0 where the cost doesn't depend on it.
    beside: Vec<i32>,
    /// How many decimals the multiplier of each row may have.
    pub(crate) digits: Vec<i32>,
    /// How many decimals the multiplier of a combination of balances may have.
    pub(crate) combined: i32,
    /// By how much the sum of each variable's multipliers may be off.
    pub(crate) errors: Vec<f64>,
}

/// The room that a plan and multipliers of about this size leave.
pub(crate) fn room_of(
    alloc: Global,
    rows: &[Row],
    vars: &[Var],
    layout: &Layout,
    values: &[Frac],
    named: &[Frac],
) -> Result<Room, Stop> {
    let all_values = values_of_all(alloc, rows, layout, values)?;
    let all_multipliers = multipliers_of_all(alloc, vars, layout, named)?;
    let mut room = Room {
        units: filled(alloc, whole(1)?, vars.len())?,
        places: filled(alloc, MANY, vars.len())?,
        beside: filled(alloc, -1, vars.len())?,
        digits: filled(alloc, MANY, rows.len())?,
        combined: places_within(bound_size(rows, &all_multipliers))?.saturating_sub(BESIDE_BALANCE),
        errors: sum_errors(alloc, vars, layout, 0)?,
    };
    limit_usages(&mut room, rows, vars, layout, &all_values, &all_multipliers)?;
    limit_defined(&mut room, rows, layout)?;
    let whole_cost = places_within(cost_size(vars, &all_values))?;
    limit_by_cost(&mut room, rows, vars, layout, whole_cost)?;
    Ok(room)
}

/// Limits the decimals of what the rows of used capacities name.
fn limit_usages(
    room: &mut Room,
    rows: &[Row],
    vars: &[Var],
    layout: &Layout,
    values: &[f64],
    multipliers: &[f64],
) -> Result<(), Stop> {
    for (place, row) in rows.iter().enumerate() {
        let entries = item(&layout.rows, place)?;
        if row.name.eq == CAB1 {
            let size = usage_size(vars, entries, values)?;
            limit_usage(room, vars, entries, places_within(size)?)?;
            let column = sum_at_capacity(vars, layout, entries, multipliers)?;
            put(&mut room.digits, place, places_within(column.max(LEAST))?)?;
        }
    }
    Ok(())
}

/// Limits the modes of an activity, and notes the parts of the year.
fn limit_defined(room: &mut Room, rows: &[Row], layout: &Layout) -> Result<(), Stop> {
    for (place, row) in rows.iter().enumerate() {
        if let Some(variable) = at(&layout.defined, place)? {
            let entries = item(&layout.rows, place)?;
            if row.name.eq == CAA3 {
                limit_modes(room, entries, variable)?;
            } else if row.name.eq == ACC3 {
                note_units(room, entries, variable)?;
            }
        }
    }
    Ok(())
}

/// The greater side of the row that says how much of a capacity is used in a year.
fn usage_size(vars: &[Var], entries: &[Entry], values: &[f64]) -> Result<f64, Stop> {
    let mut capacity = 0.0;
    let mut activity = 0.0;
    let mut unit: f64 = 0.0;
    for entry in entries {
        let part = (float_of(entry.number) * at(values, entry.at)?).abs();
        if at(vars, entry.at)?.kind == TOTAL_CAPACITY_ANNUAL {
            capacity = capacity + part;
        } else {
            activity = activity + part;
            unit = unit.max(float_of(entry.number).abs());
        }
    }
    Ok((1.05 * activity.max(capacity)).max(LEAST * unit).max(LEAST))
}

/// Limits the decimals of the capacity and of the activities of such a row.
fn limit_usage(room: &mut Room, vars: &[Var], entries: &[Entry], places: i32) -> Result<(), Stop> {
    for entry in entries {
        let kind = at(vars, entry.at)?.kind;
        let limit = if kind == RATE_OF_TOTAL_ACTIVITY {
            places
        } else {
            places.min(OF_DATA)
        };
        put(&mut room.places, entry.at, limit)?;
    }
    Ok(())
}

/// The sum of the absolute values of the multipliers in the column of such a row's capacity.
fn sum_at_capacity(
    vars: &[Var],
    layout: &Layout,
    entries: &[Entry],
    multipliers: &[f64],
) -> Result<f64, Stop> {
    for entry in entries {
        if at(vars, entry.at)?.kind == TOTAL_CAPACITY_ANNUAL
            && let Some(definer) = at(&layout.definer, entry.at)?
        {
            let sum = column_sum(multipliers, item(&layout.columns, entry.at)?, definer)?;
            return Ok(sum.size);
        }
    }
    Ok(0.0)
}

/// The activities of all modes have the limit of their sum.
fn limit_modes(room: &mut Room, entries: &[Entry], variable: usize) -> Result<(), Stop> {
    let limit = at(&room.places, variable)?;
    for entry in entries {
        if entry.at != variable {
            put(&mut room.places, entry.at, limit)?;
        }
    }
    Ok(())
}

/// The parts of the year, of a row that sums up the activity of a year.
fn note_units(room: &mut Room, entries: &[Entry], variable: usize) -> Result<(), Stop> {
    let own = number_at(entries, variable).saturating_abs();
    for entry in entries {
        if entry.at != variable {
            let part = over(entry.number.saturating_abs(), own)?;
            if part.num > 0 {
                put(&mut room.units, entry.at, part)?;
            }
        }
    }
    Ok(())
}

/// Limits the decimals of what a plan chooses by those that fit beside its cost.
fn limit_by_cost(
    room: &mut Room,
    rows: &[Row],
    vars: &[Var],
    layout: &Layout,
    places: i32,
) -> Result<(), Stop> {
    for (variable, var) in vars.iter().enumerate() {
        if var.kind == TOTAL_DISCOUNTED_COST {
            put(&mut room.beside, variable, 0)?;
        }
    }
    for place in (0..layout.rows.len()).rev() {
        if let Some(variable) = at(&layout.defined, place)? {
            let is_energy = item(rows, place)?.name.eq == ACC3;
            hand_beside(room, item(&layout.rows, place)?, variable, is_energy)?;
        }
    }
    for variable in &layout.chosen {
        let beside = at(&room.beside, *variable)?;
        if beside >= 0 {
            let limit = at(&room.places, *variable)?;
            put(
                &mut room.places,
                *variable,
                limit.min(places.saturating_sub(beside)),
            )?;
        }
    }
    Ok(())
}

/// Hands the decimals that the cost has beside a defined variable to the others of its row, with those of their factors. An activity is
/// counted as energy, which has no factor.
fn hand_beside(
    room: &mut Room,
    entries: &[Entry],
    variable: usize,
    is_energy: bool,
) -> Result<(), Stop> {
    let beside = at(&room.beside, variable)?;
    if beside < 0 {
        return Ok(());
    }
    let own = number_at(entries, variable);
    for entry in entries {
        if entry.at != variable {
            let more = if is_energy {
                0
            } else {
                decimals_of(over(entry.number, own)?.den)
            };
            let before = at(&room.beside, entry.at)?;
            put(
                &mut room.beside,
                entry.at,
                before.max(beside.saturating_add(more)),
            )?;
        }
    }
    Ok(())
}

/// How many decimals the fractions of a denominator have, of its factors 2 and 5 alone.
fn decimals_of(denominator: i128) -> i32 {
    times_of(denominator, 2).max(times_of(denominator, 5))
}

/// How often a factor above 1 divides a number above 0.
fn times_of(number: i128, factor: i128) -> i32 {
    let mut rest = number;
    let mut count: i32 = 0;
    for _ in 0..127 {
        if factor <= 1 || rest % factor != 0 {
            break;
        }
        rest = rest / factor;
        count = count.saturating_add(1);
    }
    count
}

/// How values and multipliers are rounded where there is so much room: values with `places` decimals beside their cost's digits where
/// they may have as many. New capacities are rounded upward, and raised until the total capacity has no more decimals than it may have.
pub(crate) fn rounding_within(
    alloc: Global,
    asked: &NamedRows<'_>,
    layout: &Layout,
    program: &Program,
    room: &Room,
    places: i32,
) -> Result<Rounding, Stop> {
    let mut rounding = plain_rounding(alloc, program, places)?;
    limit_values(&mut rounding, asked.vars, layout, program, room, places)?;
    limit_rises(alloc, &mut rounding, asked, layout, program, room)?;
    limit_digits(&mut rounding, layout, room)?;
    Ok(rounding)
}

/// Limits the decimals of values.
fn limit_values(
    rounding: &mut Rounding,
    vars: &[Var],
    layout: &Layout,
    program: &Program,
    room: &Room,
    places: i32,
) -> Result<(), Stop> {
    for (column, variable) in layout.chosen.iter().enumerate() {
        let unit = at(&room.units, *variable)?;
        let mut cost = at(&program.all.costs, column)?;
        if at(vars, *variable)?.kind == RATE_OF_ACTIVITY {
            cost = cost / presolved_program::float_of_frac(unit);
        }
        let wanted = places_beside(cost, places)?.min(at(&room.places, *variable)?);
        put(&mut rounding.units, column, unit)?;
        put(&mut rounding.places, column, wanted)?;
        put(&mut rounding.errors, column, at(&room.errors, *variable)?)?;
    }
    Ok(())
}

/// Limits how much new capacities are raised.
fn limit_rises(
    alloc: Global,
    rounding: &mut Rounding,
    asked: &NamedRows<'_>,
    layout: &Layout,
    program: &Program,
    room: &Room,
) -> Result<(), Stop> {
    let rises = rises_of(alloc, asked.rows, layout, room)?;
    let raised = raisable(alloc, program)?;
    for (column, variable) in layout.chosen.iter().enumerate() {
        if at(asked.vars, *variable)?.kind == NEW_CAPACITY && at(&raised, column)? {
            put(&mut rounding.rises, column, at(&rises, *variable)?)?;
        }
    }
    Ok(())
}

/// Limits the digits of multipliers.
fn limit_digits(rounding: &mut Rounding, layout: &Layout, room: &Room) -> Result<(), Stop> {
    rounding.combined = rounding.combined.min(room.combined);
    for (place, row) in layout.left.iter().enumerate() {
        let most = at(&rounding.digits, place)?;
        let digits = most.min(at(&room.digits, *row)?);
        put(&mut rounding.digits, place, digits)?;
    }
    Ok(())
}

/// How much each new capacity may be raised: a unit of the last place of each total capacity that has it.
fn rises_of(alloc: Global, rows: &[Row], layout: &Layout, room: &Room) -> Result<Vec<f64>, Stop> {
    let mut rises = filled(alloc, 0.0, layout.columns.len())?;
    for (place, row) in rows.iter().enumerate() {
        if row.name.eq == CAA2
            && let Some(total) = at(&layout.defined, place)?
        {
            let rise = 1.0 / float_power(at(&room.places, total)?);
            for entry in item(&layout.rows, place)? {
                if entry.at != total {
                    note_rise(&mut rises, layout, entry.at, rise)?;
                }
            }
        }
    }
    Ok(rises)
}

/// Notes a rise at the new capacities that an accumulated one is the sum of.
fn note_rise(
    rises: &mut [f64],
    layout: &Layout,
    accumulated: usize,
    rise: f64,
) -> Result<(), Stop> {
    if let Some(definer) = at(&layout.definer, accumulated)? {
        for entry in item(&layout.rows, definer)? {
            if entry.at != accumulated {
                let before = at(rises, entry.at)?;
                put(rises, entry.at, before.max(rise))?;
            }
        }
    }
    Ok(())
}

/// Which columns may be raised: those that are guessed, but for those of equations.
fn raisable(alloc: Global, program: &Program) -> Result<Vec<bool>, Stop> {
    let mut raised = filled(alloc, false, program.all.free.len())?;
    for column in &program.columns {
        put(&mut raised, *column, true)?;
    }
    for equality in &program.equalities {
        for entry in &item(&program.lines, equality.first)?.entries {
            put(&mut raised, entry.at, false)?;
        }
    }
    Ok(raised)
}
