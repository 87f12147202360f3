//! The smaller program in rounded numbers, each row with the greatest entry 1.

use crate::margins::Margins;
use presolved_program::{Program, Stop, at, filled, float_of, float_of_frac, item, put};
use rounded_simplex::LinearProgram;
use std::alloc::Global;

/// The program with its margins: the lines that are left, and then one row for each least value.
pub fn rounded_program(
    alloc: Global,
    program: &Program,
    margins: &Margins,
) -> Result<LinearProgram, Stop> {
    let mut made = empty_program(alloc)?;
    fill(alloc, &mut made, program, margins)?;
    Ok(made)
}

/// Fills the program with its margins.
// (What is owned is made in one function and filled in another: each `?` of a function drops all that it owns, and each drop is proved.)
fn fill(
    alloc: Global,
    made: &mut LinearProgram,
    program: &Program,
    margins: &Margins,
) -> Result<(), Stop> {
    let places = places_of(alloc, program)?;
    let leasts = leasts_of(alloc, program, margins)?;
    for column in &program.columns {
        add_column(made, program, &places, *column)?;
        if let Some(row) = at(&leasts, *column)? {
            made.rows.push(row)?;
            made.values.push(-1.0)?;
        }
        made.starts.push(made.rows.len())?;
    }
    add_right_sides(made, program, margins)?;
    add_costs(made, margins)
}

/// Appends the right sides: of the lines, and of the least values.
fn add_right_sides(
    made: &mut LinearProgram,
    program: &Program,
    margins: &Margins,
) -> Result<(), Stop> {
    for (line, right) in program.left.iter().zip(margins.right.iter()) {
        made.right_sides.push(*right / at(&program.tops, *line)?)?;
    }
    for least in &margins.leasts {
        made.right_sides.push(-least.value)?;
    }
    Ok(())
}

/// Appends the costs of the columns.
fn add_costs(made: &mut LinearProgram, margins: &Margins) -> Result<(), Stop> {
    for (raised, lowered) in margins.raised.iter().zip(margins.lowered.iter()) {
        made.raised_costs.push(*raised)?;
        made.lowered_costs.push(*lowered)?;
    }
    Ok(())
}

/// The program without margins of right sides, in which each row has a column of its own that costs 1: so it always has an optimum.
pub fn elastic_program(
    alloc: Global,
    program: &Program,
    margins: &Margins,
) -> Result<LinearProgram, Stop> {
    let mut made = empty_program(alloc)?;
    fill_elastic(alloc, &mut made, program, margins)?;
    Ok(made)
}

/// Fills that program.
fn fill_elastic(
    alloc: Global,
    made: &mut LinearProgram,
    program: &Program,
    margins: &Margins,
) -> Result<(), Stop> {
    let places = places_of(alloc, program)?;
    for column in &program.columns {
        add_column(made, program, &places, *column)?;
        made.starts.push(made.rows.len())?;
    }
    add_costs(made, margins)?;
    for (row, line) in program.left.iter().enumerate() {
        let right = float_of_frac(item(&program.lines, *line)?.right);
        made.right_sides.push(right / at(&program.tops, *line)?)?;
        made.rows.push(row)?;
        made.values.push(-1.0)?;
        made.starts.push(made.rows.len())?;
        made.raised_costs.push(1.0)?;
        made.lowered_costs.push(1.0)?;
    }
    Ok(())
}

/// No rows and no columns.
fn empty_program(alloc: Global) -> Result<LinearProgram, Stop> {
    Ok(LinearProgram {
        starts: filled(alloc, 0, 1)?,
        rows: Vec::new(alloc),
        values: Vec::new(alloc),
        right_sides: Vec::new(alloc),
        raised_costs: Vec::new(alloc),
        lowered_costs: Vec::new(alloc),
    })
}

/// The row of each line that is left.
fn places_of(alloc: Global, program: &Program) -> Result<Vec<usize>, Stop> {
    let mut places = filled(alloc, 0, program.lines.len())?;
    for (row, line) in program.left.iter().enumerate() {
        put(&mut places, *line, row)?;
    }
    Ok(places)
}

/// The row of each column's least value, where it has one.
fn leasts_of(
    alloc: Global,
    program: &Program,
    margins: &Margins,
) -> Result<Vec<Option<usize>>, Stop> {
    let mut rows = filled(alloc, None, program.all.free.len())?;
    let mut row = program.left.len();
    for least in &margins.leasts {
        put(&mut rows, least.column, Some(row))?;
        row = row.saturating_add(1);
    }
    Ok(rows)
}

/// Appends the entries of a column, over the greatest entries of their rows.
fn add_column(
    made: &mut LinearProgram,
    program: &Program,
    places: &[usize],
    column: usize,
) -> Result<(), Stop> {
    for entry in item(&program.uses, column)? {
        made.rows.push(at(places, entry.at)?)?;
        let top = at(&program.tops, entry.at)?;
        made.values.push(float_of(entry.number) / top)?;
    }
    Ok(())
}
