//! Room for rounding: what the rounding of values may take from a row, and that of multipliers from a column.

use crate::rounding::{Rounding, plain_rounding};
use exact_num::Frac;
use presolved_program::{
    Equality, Line, Made, Program, Stop, at, decimal, digits_before, filled, float_of,
    float_of_frac, float_power, item, number_in, plus_product, put, weighted, whole,
};
use std::alloc::Global;

/// 2^-33: what a row with the greatest entry 1 may be missed by, with room to spare.
const TOLERANCE: f64 = 1.0 / 8589934592.0;

/// How values and multipliers are rounded, and the room that this wants.
#[derive(Drop)]
pub struct Margins {
    /// How values are rounded.
    pub(crate) rounding: Rounding,
    /// How many decimals the multiplier of each line gets.
    pub(crate) digits: Vec<i32>,
    /// What the way back through Trade wants of each line.
    pub(crate) needs: Vec<Frac>,
    /// How far off the value of each column may be.
    pub(crate) halves: Vec<f64>,
    /// The least value of each column that solves an equation.
    pub(crate) leasts: Vec<Least>,
    /// The right side of each line that is left, in their order.
    pub(crate) right: Vec<f64>,
    /// The cost of each column that is left, in their order, raised and lowered.
    pub(crate) raised: Vec<f64>,
    pub(crate) lowered: Vec<f64>,
}

/// A column that doesn't fall below a value.
#[derive(Clone, Copy)]
pub(crate) struct Least {
    pub(crate) column: usize,
    pub(crate) value: f64,
}

/// The room that values with `places` decimals beside their cost's digits want, and multipliers with `digits` significant digits
/// beside their row's greatest entry.
pub fn margins_of(
    alloc: Global,
    program: &Program,
    places: i32,
    digits: i32,
) -> Result<Margins, Stop> {
    let rounding = plain_rounding(alloc, program, places)?;
    margins_for(alloc, program, rounding, digits)
}

/// The room that values and multipliers want that are rounded so, multipliers with `digits` significant digits beside their row's
/// greatest entry, where they may have as many.
pub fn margins_for(
    alloc: Global,
    program: &Program,
    rounding: Rounding,
    digits: i32,
) -> Result<Margins, Stop> {
    let mut margins = Margins {
        rounding,
        digits: filled(alloc, 0, program.lines.len())?,
        needs: filled(alloc, whole(0)?, program.lines.len())?,
        halves: Vec::with_capacity(alloc, program.all.free.len())?,
        leasts: Vec::with_capacity(alloc, program.equalities.len())?,
        right: Vec::with_capacity(alloc, program.left.len())?,
        raised: Vec::with_capacity(alloc, program.columns.len())?,
        lowered: Vec::with_capacity(alloc, program.columns.len())?,
    };
    fill(alloc, &mut margins, program, digits)?;
    Ok(margins)
}

/// Reckons the room, of which nothing is known yet.
// (What is owned is made in one function and filled in another: each `?` of a function drops all that it owns, and each drop is proved.)
fn fill(alloc: Global, margins: &mut Margins, program: &Program, digits: i32) -> Result<(), Stop> {
    for column in 0..program.all.free.len() {
        let half = margins.rounding.half(column)?;
        margins.halves.push(half)?;
    }
    add_needs(margins, program)?;
    add_leasts(margins, program)?;
    lower_right_sides(alloc, margins, program)?;
    let grid = add_digits(alloc, margins, program, digits)?;
    move_costs(margins, program, &grid)
}

/// For each combination: one unit of the free column's last place at the line below, and what its two lines need.
fn add_needs(margins: &mut Margins, program: &Program) -> Result<(), Stop> {
    for merge in &program.merges {
        let places = at(&margins.rounding.places, merge.column)?;
        let unit = decimal(1, places)?;
        for made in &merge.made {
            let need = need_of(margins, program, *made, merge.column, unit)?;
            put(&mut margins.needs, made.line, need)?;
        }
    }
    Ok(())
}

/// What a combination needs.
fn need_of(
    margins: &Margins,
    program: &Program,
    made: Made,
    column: usize,
    unit: Frac,
) -> Result<Frac, Stop> {
    let lower = number_in(item(&program.lines, made.below)?, column);
    let size = whole(lower.saturating_abs())?;
    let step = exact_num::mul(made.below_times, size)?;
    let parts = weighted(
        made,
        at(&margins.needs, made.above)?,
        at(&margins.needs, made.below)?,
    )?;
    plus_product(parts, step, unit)
}

/// The least value of each column that solves an equation, so that it doesn't fall below 0 by what the others are off.
fn add_leasts(margins: &mut Margins, program: &Program) -> Result<(), Stop> {
    for equality in &program.equalities {
        let half = off_by(margins, program, *equality)?;
        put(&mut margins.halves, equality.column, half)?;
        margins.leasts.push(Least {
            column: equality.column,
            value: half + TOLERANCE,
        })?;
    }
    Ok(())
}

/// How far off the column that solves an equation may be.
fn off_by(margins: &Margins, program: &Program, equality: Equality) -> Result<f64, Stop> {
    let line = item(&program.lines, equality.first)?;
    let mut sum = 3.0 * TOLERANCE * at(&program.tops, equality.first)?;
    let mut own = 0.0;
    for entry in &line.entries {
        let size = float_of(entry.number).abs();
        if entry.at == equality.column {
            own = size;
        } else {
            sum = sum + size * at(&margins.halves, entry.at)?;
        }
    }
    if own > 0.0 {
        Ok(sum / own)
    } else {
        Err(Stop::GivenUp)
    }
}

/// Each right side less what rounding may add up to in its line; those of equations are only loosened by the tolerance.
fn lower_right_sides(alloc: Global, margins: &mut Margins, program: &Program) -> Result<(), Stop> {
    let mut equal = filled(alloc, false, program.lines.len())?;
    for equality in &program.equalities {
        put(&mut equal, equality.first, true)?;
        put(&mut equal, equality.second, true)?;
    }
    for place in &program.left {
        let line = item(&program.lines, *place)?;
        let loose = TOLERANCE * at(&program.tops, *place)?;
        let right = float_of_frac(line.right);
        if at(&equal, *place)? {
            margins.right.push(right + loose)?;
            continue;
        }
        let room = loose
            + float_of_frac(at(&margins.needs, *place)?)
            + nearest_room(margins, line)?;
        let lowered = right - room;
        let rise = rising_room(margins, line)?;
        let none_left = lowered >= 0.0 && lowered - rise < 0.0;
        margins
            .right
            .push(if none_left { lowered } else { lowered - rise })?;
    }
    Ok(())
}

/// What rounding to the nearest may add to a line.
fn nearest_room(margins: &Margins, line: &Line) -> Result<f64, Stop> {
    let mut room = 0.0;
    for entry in &line.entries {
        if at(&margins.rounding.rises, entry.at)? == 0.0 {
            room = room + float_of(entry.number).abs() * at(&margins.halves, entry.at)?;
        }
    }
    Ok(room)
}

/// What values that are rounded upward and raised may add to a line.
fn rising_room(margins: &Margins, line: &Line) -> Result<f64, Stop> {
    let mut room = 0.0;
    for entry in &line.entries {
        let rise = at(&margins.rounding.rises, entry.at)?;
        if rise > 0.0 && entry.number > 0 {
            let unit = 2.0 * at(&margins.halves, entry.at)?;
            room = room + float_of(entry.number) * (unit + rise);
        }
    }
    Ok(room)
}

/// The decimals of each line's multiplier. The unit of the last place of each is handed on.
fn add_digits(
    alloc: Global,
    margins: &mut Margins,
    program: &Program,
    digits: i32,
) -> Result<Vec<f64>, Stop> {
    let mut grid = filled(alloc, 0.0, program.lines.len())?;
    for place in &program.left {
        let line = item(&program.lines, *place)?;
        let unit = float_of_frac(line.unit).abs();
        let top = at(&program.tops, *place)?;
        let most = match line.origin {
            Some(row) => at(&margins.rounding.digits, row)?,
            None => margins.rounding.combined,
        };
        let all = digits.saturating_add(digits_before(top * unit)?).min(most);
        put(&mut margins.digits, *place, all)?;
        put(&mut grid, *place, unit / float_power(all))?;
    }
    Ok(grid)
}

/// Each cost, raised and lowered by what rounding may add up to in its column.
fn move_costs(margins: &mut Margins, program: &Program, grid: &[f64]) -> Result<(), Stop> {
    for column in &program.columns {
        let mut room = at(&margins.rounding.errors, *column)?;
        let mut most: f64 = 0.0;
        for entry in item(&program.uses, *column)? {
            let size = float_of(entry.number).abs();
            room = room + size * at(grid, entry.at)? / 2.0;
            let top = at(&program.tops, entry.at)?;
            if top > 0.0 {
                most = most.max(size / top);
            }
        }
        room = room + TOLERANCE * most;
        let cost = at(&program.all.costs, *column)?;
        margins.raised.push(cost + room)?;
        let rises = at(&margins.rounding.rises, *column)? > 0.0;
        margins.lowered.push(if rises && cost == 0.0 {
            0.0
        } else {
            cost - room
        })?;
    }
    Ok(())
}
