//! From guessed multipliers to exact ones of all rows.

use crate::margins::Margins;
use exact_num::{Frac, div, mul, sub};
use presolved_program::{
    Program, Step, Stop, at, filled, float_of, float_of_frac, item, plus_product, put, rounded_to,
    short_above, short_below, whole,
};
use std::alloc::Global;

/// 2^-44: by so much of the sum of absolute values a sum of rounded numbers may be off.
const OFF: f64 = 1.0 / 17592186044416.0;

/// The multiplier of each row of the linear program, in order, from guessed multipliers of the rows that were guessed of: those of
/// the named rows, over what these were multiplied by.
pub fn multipliers_of(
    alloc: Global,
    program: &Program,
    margins: &Margins,
    guessed: &[f64],
) -> Result<Vec<Frac>, Stop> {
    let mut multipliers = named_multipliers(alloc, program, margins, guessed)?;
    for row in 0..multipliers.len() {
        let named = at(&multipliers, row)?;
        let scale = at(&program.all.scales, row)?;
        if scale.num == 0 {
            return Err(Stop::GivenUp);
        }
        put(&mut multipliers, row, div(named, scale)?)?;
    }
    Ok(multipliers)
}

/// The multiplier of each named row that became a row of the linear program, in order, from guessed multipliers of the rows that were
/// guessed of: these rounded, then handed to the lines that were combined, and to the rows that presolve took.
pub fn named_multipliers(
    alloc: Global,
    program: &Program,
    margins: &Margins,
    guessed: &[f64],
) -> Result<Vec<Frac>, Stop> {
    let mut multipliers = filled(alloc, whole(0)?, program.all.rows.len())?;
    if let Some(row) = program.false_row {
        put(&mut multipliers, row, whole(1)?)?;
    }
    take_lines(alloc, &mut multipliers, program, margins, guessed)?;
    for step in program.steps.iter().rev() {
        undo(&mut multipliers, program, margins, step)?;
    }
    signed(&mut multipliers, program)?;
    Ok(multipliers)
}

/// The multipliers of lines: those of rows as they are, and those of combinations handed to their rows.
fn take_lines(
    alloc: Global,
    multipliers: &mut [Frac],
    program: &Program,
    margins: &Margins,
    guessed: &[f64],
) -> Result<(), Stop> {
    let mut made = filled(alloc, whole(0)?, program.lines.len())?;
    if let Some(line) = program.false_line {
        give_line(multipliers, &mut made, program, line, whole(1)?)?;
    } else {
        round(multipliers, &mut made, program, margins, guessed)?;
    }
    for merge in program.merges.iter().rev() {
        for part in &merge.made {
            let multiplier = at(&made, part.line)?;
            let above = plus_product(at(&made, part.above)?, multiplier, part.above_times)?;
            put(&mut made, part.above, above)?;
            let below = plus_product(at(&made, part.below)?, multiplier, part.below_times)?;
            put(&mut made, part.below, below)?;
        }
    }
    for (line, multiplier) in program.lines.iter().zip(made.iter()) {
        if let Some(row) = line.origin
            && multiplier.num != 0
        {
            let named = mul(*multiplier, at(&program.all.scales, row)?)?;
            put(multipliers, row, named)?;
        }
    }
    Ok(())
}

/// A short multiplier of a line: of the named row where the line is a row, else of the line.
fn give_line(
    multipliers: &mut [Frac],
    made: &mut [Frac],
    program: &Program,
    place: usize,
    short: Frac,
) -> Result<(), Stop> {
    let line = item(&program.lines, place)?;
    match line.origin {
        Some(row) => put(multipliers, row, short),
        None => put(made, place, mul(short, line.unit)?),
    }
}

/// Guessed multipliers of scaled rows, as short decimals for the named rows.
fn round(
    multipliers: &mut [Frac],
    made: &mut [Frac],
    program: &Program,
    margins: &Margins,
    guessed: &[f64],
) -> Result<(), Stop> {
    for (place, guess) in program.left.iter().zip(guessed.iter()) {
        if *guess > 0.0 {
            let unit = item(&program.lines, *place)?.unit;
            let size = float_of_frac(unit) * at(&program.tops, *place)?;
            let short = rounded_to(*guess / size, at(&margins.digits, *place)?)?;
            give_line(multipliers, made, program, *place, short)?;
        }
    }
    Ok(())
}

/// What is left of a column's cost, and by how much that may be off.
#[derive(Clone, Copy)]
struct Rest {
    value: f64,
    off: f64,
}

/// The cost of a column and the sum of its numbers times their rows' multipliers.
fn rest_of(
    multipliers: &[Frac],
    program: &Program,
    margins: &Margins,
    column: usize,
) -> Result<Rest, Stop> {
    let mut value = at(&program.all.costs, column)?;
    let mut size = value.abs();
    for entry in item(&program.all.columns, column)? {
        let scale = float_of_frac(at(&program.all.scales, entry.at)?);
        let part = float_of(entry.number) * float_of_frac(at(multipliers, entry.at)?) / scale;
        value = value + part;
        size = size + part.abs();
    }
    Ok(Rest {
        value,
        off: size * OFF + at(&margins.rounding.errors, column)?,
    })
}

/// The number of a row at a column, rounded; 0 where it has none.
fn number_at(program: &Program, row: usize, column: usize) -> Result<f64, Stop> {
    let entries = item(&program.all.rows, row)?;
    match entries.binary_search_by_key(&column, |entry| entry.at) {
        Ok(place) => Ok(float_of(entries[place].number)),
        Err(_) => Ok(0.0),
    }
}

/// Undoes a step of presolve.
fn undo(
    multipliers: &mut [Frac],
    program: &Program,
    margins: &Margins,
    step: &Step,
) -> Result<(), Stop> {
    match step {
        Step::Zero { row, columns } => cover(multipliers, program, margins, *row, columns),
        Step::Equal {
            column,
            below,
            above,
            ..
        } => take_rest(multipliers, program, margins, *column, *below, *above),
        Step::Helper { .. } => Ok(()),
    }
}

/// Raises the multiplier of a row whose columns are 0 until their costs are covered.
fn cover(
    multipliers: &mut [Frac],
    program: &Program,
    margins: &Margins,
    row: usize,
    columns: &[usize],
) -> Result<(), Stop> {
    let mut most: f64 = 0.0;
    for column in columns {
        let rest = rest_of(multipliers, program, margins, *column)?;
        let number = number_at(program, row, *column)?;
        most = most.max((rest.off - rest.value) / number);
    }
    give(multipliers, program, row, most, Rounding::Above(2))
}

/// Gives the rest of a column with equal bounds to the one of its two rows whose sign fits.
fn take_rest(
    multipliers: &mut [Frac],
    program: &Program,
    margins: &Margins,
    column: usize,
    below: usize,
    above: usize,
) -> Result<(), Stop> {
    let rest = rest_of(multipliers, program, margins, column)?;
    let low = rest.value - rest.off;
    if low < 0.0 {
        let number = number_at(program, above, column)?;
        give(
            multipliers,
            program,
            above,
            -low / number,
            Rounding::Above(7),
        )
    } else {
        let number = number_at(program, below, column)?;
        give(
            multipliers,
            program,
            below,
            -low / number,
            Rounding::Below(7),
        )
    }
}

/// To so many significant digits, upwards or downwards.
#[derive(Clone, Copy)]
enum Rounding {
    Above(i32),
    Below(i32),
}

/// Sets the multiplier of a row to a short one for the named row.
fn give(
    multipliers: &mut [Frac],
    program: &Program,
    row: usize,
    multiplier: f64,
    rounding: Rounding,
) -> Result<(), Stop> {
    let named = multiplier * float_of_frac(at(&program.all.scales, row)?);
    let short = match rounding {
        Rounding::Above(digits) => short_above(named, digits)?,
        Rounding::Below(digits) => short_below(named, digits)?,
    };
    put(multipliers, row, short)
}

/// Multipliers of rows that read at most are at most 0, those of negated rows at least 0.
fn signed(multipliers: &mut [Frac], program: &Program) -> Result<(), Stop> {
    for row in 0..multipliers.len() {
        if !at(&program.all.negated, row)? {
            let turned = sub(whole(0)?, at(multipliers, row)?)?;
            put(multipliers, row, turned)?;
        }
    }
    Ok(())
}
