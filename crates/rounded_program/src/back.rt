//! From guessed values to exact ones of all columns.

use crate::margins::Margins;
use exact_num::{Frac, cmp_frac, sub};
use presolved_program::{
    Equality, Line, Merge, Program, Step, Stop, at, between, filled, float_of, float_of_frac, item,
    less_product, number_in, put, quotient, short_above, whole,
};
use std::alloc::Global;

/// 2^-44: by so much of the sum of absolute values a sum of rounded numbers may be off.
const OFF: f64 = 1.0 / 17592186044416.0;

/// The value of each column of the linear program, in order, from guessed values of the columns that are left: these rounded, the
/// columns that solve equations, the free ones, and those that presolve took.
pub fn values_of(
    alloc: Global,
    program: &Program,
    margins: &Margins,
    guessed: &[f64],
) -> Result<Vec<Frac>, Stop> {
    let mut values = filled(alloc, whole(0)?, program.all.free.len())?;
    for (column, guess) in program.columns.iter().zip(guessed.iter()) {
        if *guess > 0.0 {
            put(
                &mut values,
                *column,
                margins.rounding.value(*column, *guess)?,
            )?;
        }
    }
    for equality in &program.equalities {
        solve(&mut values, program, *equality)?;
    }
    for merge in program.merges.iter().rev() {
        let value = traded(&values, program, margins, merge)?;
        put(&mut values, merge.column, value)?;
    }
    undo(&mut values, program, margins)?;
    Ok(values)
}

/// The right side of a line less what all columns but one take of it.
fn rest_of(values: &[Frac], line: &Line, column: usize) -> Result<Frac, Stop> {
    let mut rest = line.right;
    for entry in &line.entries {
        if entry.at != column {
            rest = less_product(rest, entry.value(), at(values, entry.at)?)?;
        }
    }
    Ok(rest)
}

/// The column that solves an equation.
fn solve(values: &mut [Frac], program: &Program, equality: Equality) -> Result<(), Stop> {
    let line = item(&program.lines, equality.first)?;
    let rest = rest_of(values, line, equality.column)?;
    let own = whole(number_in(line, equality.column))?;
    put(values, equality.column, quotient(rest, own)?)
}

/// The value that a line leaves a free column at most, or at least.
fn bound_in(
    values: &[Frac],
    program: &Program,
    margins: &Margins,
    place: usize,
    column: usize,
) -> Result<Frac, Stop> {
    let line = item(&program.lines, place)?;
    let rest = sub(rest_of(values, line, column)?, at(&margins.needs, place)?)?;
    quotient(rest, whole(number_in(line, column))?)
}

/// The value of a free column: the shortest decimal between the bounds that its lines leave it, nearest to 0.
fn traded(
    values: &[Frac],
    program: &Program,
    margins: &Margins,
    merge: &Merge,
) -> Result<Frac, Stop> {
    let mut most: Option<Frac> = None;
    for place in &merge.above {
        let bound = bound_in(values, program, margins, *place, merge.column)?;
        if most.is_none_or(|old| cmp_frac(bound, old).is_lt()) {
            most = Some(bound);
        }
    }
    let mut least: Option<Frac> = None;
    for place in &merge.below {
        let bound = bound_in(values, program, margins, *place, merge.column)?;
        if least.is_none_or(|old| cmp_frac(old, bound).is_lt()) {
            least = Some(bound);
        }
    }
    between(least, most, at(&margins.rounding.places, merge.column)?)
}

/// The columns that presolve took: those with equal bounds, and then, from the last step to the first, those that can be made large
/// enough.
fn undo(values: &mut [Frac], program: &Program, margins: &Margins) -> Result<(), Stop> {
    for step in &program.steps {
        if let Step::Equal { column, value, .. } = step {
            put(values, *column, *value)?;
        }
    }
    for step in program.steps.iter().rev() {
        if let Step::Helper { column, rows } = step {
            let mut most: f64 = 0.0;
            for row in rows {
                most = most.max(wanted(values, program, *row, *column)?);
            }
            let unit = at(&margins.rounding.units, *column)?;
            let short = short_above(most * float_of_frac(unit), 2)?;
            put(values, *column, quotient(short, unit)?)?;
        }
    }
    Ok(())
}

/// What a row wants of a column that costs nothing, and somewhat more.
fn wanted(values: &[Frac], program: &Program, row: usize, column: usize) -> Result<f64, Stop> {
    let side = at(&program.all.sides, row)?;
    let mut sum = -side;
    let mut size = side.abs();
    let mut own = 0.0;
    for entry in item(&program.all.rows, row)? {
        let number = float_of(entry.number);
        if entry.at == column {
            own = -number;
        } else {
            let part = number * float_of_frac(at(values, entry.at)?);
            sum = sum + part;
            size = size + part.abs();
        }
    }
    if own > 0.0 {
        Ok((sum + size * OFF) / own)
    } else {
        Err(Stop::GivenUp)
    }
}
