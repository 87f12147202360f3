//! The basis at which a guess starts, from given values.
//!
//! At a corner of the plans the variables that aren't 0 are basic. Values that were rounded tell which these are but for what margins make:
//! where a plan uses nothing, a row's right side is a little below 0, so that some column has to be a little above it.

ghost use Rattle.std.specs.Prelude.{◌≡◌, length, IfOk};

use exact_num::Frac;
use presolved_program::{Layout, Program, Stop, at, filled, float_of_frac, put};
use rounded_simplex::LinearProgram;
use row_core::{Plan, Var};
use std::alloc::{AllocError, Global};

/// A row has room if its slack is above this part of its greatest term: values of four digits may leave as much in a row that is tight.
const SLACK_PART: f64 = 1e-3;

/// The same of a row that asks for something, as that of a demand does. The plan of a model with higher demands leaves room in each of these,
/// which are tight in the plan that is looked for; that of the same model seldom leaves so little.
const NEED_PART: f64 = 0.25;

/// A column counts in a row if its term is above this part of the row's greatest.
const COLUMN_PART: f64 = 1e-6;

/// The greatest number that is rounding or a margin. A model's own are seldom as small.
const LEAST: f64 = 1e-6;

/// What the tightest row is off by, through sums of rounded numbers.
const CLEAR: f64 = 1e-13;

/// What columns take of the right side of a row, and the size of the row's greatest term, the right side among them.
#[derive(Clone, Copy)]
struct Terms {
    taken: f64,
    size: f64,
}

/// A value for each column, and the terms of each row.
#[derive(Drop)]
struct Point {
    values: Vec<f64>,
    terms: Vec<Terms>,
}

/// The column that makes room in a row at the least price: how much each unit of it makes, and what a unit of room costs.
#[derive(Clone, Copy)]
struct Relief {
    column: usize,
    number: f64,
    price: f64,
}

/// The values of a plan for these variables, in order, rounded; 0 where the plan has none. Guesses at a similar model may start from them.
pub fn starting_values(alloc: Global, plan: &Plan, vars: &[Var]) -> Result<Vec<f64>, AllocError>
    ensures { IfOk result (λ values. length values.items ≡ length vars.now) }
{
    let mut values = Vec::with_capacity(alloc, vars.len())?;
    for place in 0..vars.len() {
        values.push(float_of_frac(plan.value(vars[place])))?;
    }
    Ok(values)
}

/// These values, rounded.
pub(crate) fn floats_of(alloc: Global, exact: &[Frac]) -> Result<Vec<f64>, AllocError> {
    let mut values = Vec::with_capacity(alloc, exact.len())?;
    for value in exact {
        values.push(float_of_frac(*value))?;
    }
    Ok(values)
}

/// The values of the columns of a linear program, of those of all variables, both in order. None where none are given.
pub(crate) fn column_values(
    alloc: Global,
    layout: &Layout,
    start: Option<&[f64]>,
) -> Result<Vec<f64>, Stop> {
    let mut values = Vec::new(alloc);
    if let Some(given) = start {
        for variable in &layout.chosen {
            values.push(given.get(*variable).copied().unwrap_or(0.0))?;
        }
    }
    Ok(values)
}

/// The variables with which a guess at a program begins, from a value for each column of the linear program, in order; one that isn't there
/// is 0. First the slacks of the rows that have room, then the columns that count in a row, and those that small rows want. None, which
/// are all slacks, where no values are given or no column counts.
pub(crate) fn starting_basis(
    alloc: Global,
    smaller: &Program,
    asked: &LinearProgram,
    start: &[f64],
) -> Result<Vec<usize>, Stop> {
    let mut basis = Vec::new(alloc);
    if start.is_empty() {
        return Ok(basis);
    }
    let all = point_of(alloc, asked, left_values(alloc, smaller, start)?)?;
    let mut point = point_of(alloc, asked, counting_values(alloc, asked, &all)?)?;
    if point.values.iter().any(|value| *value > 0.0) {
        let raised = relieve(alloc, asked, &mut point)?;
        let columns = basic_columns(alloc, asked, &point, &raised)?;
        push_slacks(&mut basis, asked, &point)?;
        basis.extend_from_slice(&columns)?;
    }
    Ok(basis)
}

/// The values of the columns that are left, in order, none below 0.
fn left_values(alloc: Global, smaller: &Program, start: &[f64]) -> Result<Vec<f64>, Stop> {
    let mut values = Vec::with_capacity(alloc, smaller.columns.len())?;
    for column in &smaller.columns {
        values.push(match start.get(*column) {
            Some(value) => value.max(0.0),
            None => 0.0,
        })?;
    }
    Ok(values)
}

/// The values, with the terms that they make.
fn point_of(alloc: Global, asked: &LinearProgram, values: Vec<f64>) -> Result<Point, Stop> {
    let mut terms = Vec::with_capacity(alloc, asked.right_sides.len())?;
    for right in &asked.right_sides {
        terms.push(Terms {
            taken: 0.0,
            size: right.abs(),
        })?;
    }
    for (column, value) in values.iter().enumerate() {
        if *value > 0.0 {
            add_column(&mut terms, asked, column, *value)?;
        }
    }
    Ok(Point { values, terms })
}

/// Adds the terms of a column with this value.
fn add_column(
    terms: &mut [Terms],
    asked: &LinearProgram,
    column: usize,
    value: f64,
) -> Result<(), Stop> {
    for place in at(&asked.starts, column)?..at(&asked.starts, column.saturating_add(1))? {
        let row = at(&asked.rows, place)?;
        let term = at(&asked.values, place)? * value;
        let before = at(terms, row)?;
        let after = Terms {
            taken: before.taken + term,
            size: before.size.max(term.abs()),
        };
        put(terms, row, after)?;
    }
    Ok(())
}

/// The values of the columns that count in a row, and 0 for the others.
fn counting_values(alloc: Global, asked: &LinearProgram, point: &Point) -> Result<Vec<f64>, Stop> {
    let mut values = Vec::with_capacity(alloc, point.values.len())?;
    for (column, value) in point.values.iter().enumerate() {
        let counting = *value > 0.0 && counts(asked, &point.terms, column, *value)?;
        values.push(if counting { *value } else { 0.0 })?;
    }
    Ok(values)
}

/// Whether a column with this value counts in a row.
fn counts(asked: &LinearProgram, terms: &[Terms], column: usize, value: f64) -> Result<bool, Stop> {
    for place in at(&asked.starts, column)?..at(&asked.starts, column.saturating_add(1))? {
        let term = at(&asked.values, place)? * value;
        let size = at(terms, at(&asked.rows, place)?)?.size;
        if term.abs() > COLUMN_PART * size + LEAST {
            return Ok(true);
        }
    }
    Ok(false)
}

/// Raises the cheapest column of each row, in order, whose terms are all small and that has no room: what the row lacks then is
/// a margin. For each column that was 0 the last row that it was raised for.
fn relieve(
    alloc: Global,
    asked: &LinearProgram,
    point: &mut Point,
) -> Result<Vec<Option<usize>>, Stop> {
    let mut raised = filled(alloc, None, point.values.len())?;
    for (row, found) in reliefs_of(alloc, asked)?.iter().enumerate() {
        if let Some(relief) = *found {
            let was_raised = at(&raised, relief.column)?.is_some();
            let was_zero = was_raised || at(&point.values, relief.column)? == 0.0;
            if relieve_row(asked, point, row, relief)? && was_zero {
                put(&mut raised, relief.column, Some(row))?;
            }
        }
    }
    Ok(raised)
}

/// Raises a row's cheapest column by what the row lacks, where its terms are small; whether it was raised.
fn relieve_row(
    asked: &LinearProgram,
    point: &mut Point,
    row: usize,
    relief: Relief,
) -> Result<bool, Stop> {
    let terms = at(&point.terms, row)?;
    let lacking = terms.taken - at(&asked.right_sides, row)?;
    let wanted = terms.size <= LEAST && lacking > CLEAR;
    if wanted {
        let step = lacking / relief.number;
        let raised = at(&point.values, relief.column)? + step;
        put(&mut point.values, relief.column, raised)?;
        add_column(&mut point.terms, asked, relief.column, step)?;
    }
    Ok(wanted)
}

/// For each row the column that makes room in it at the least price, if one does; of equal prices the first.
fn reliefs_of(alloc: Global, asked: &LinearProgram) -> Result<Vec<Option<Relief>>, Stop> {
    let mut reliefs = filled(alloc, None, asked.right_sides.len())?;
    for (column, cost) in asked.raised_costs.iter().enumerate() {
        for place in at(&asked.starts, column)?..at(&asked.starts, column.saturating_add(1))? {
            let number = -at(&asked.values, place)?;
            let relief = Relief {
                column,
                number,
                price: cost.max(0.0) / number,
            };
            if number > 0.0 {
                note_relief(&mut reliefs, at(&asked.rows, place)?, relief)?;
            }
        }
    }
    Ok(reliefs)
}

/// Notes a column that makes room in a row, if none does at a price as low.
fn note_relief(reliefs: &mut [Option<Relief>], row: usize, relief: Relief) -> Result<(), Stop> {
    let is_cheapest = match at(reliefs, row)? {
        Some(best) => relief.price < best.price,
        None => true,
    };
    if is_cheapest {
        put(reliefs, row, Some(relief))?;
    }
    Ok(())
}

/// Appends the slacks of the rows that have room, ascending.
fn push_slacks(basis: &mut Vec<usize>, asked: &LinearProgram, point: &Point) -> Result<(), Stop> {
    for row in 0..point.terms.len() {
        if has_room(asked, point, row)? {
            basis.push(point.values.len().saturating_add(row))?;
        }
    }
    Ok(())
}

/// Whether a row has room.
fn has_room(asked: &LinearProgram, point: &Point, row: usize) -> Result<bool, Stop> {
    let terms = at(&point.terms, row)?;
    let right = at(&asked.right_sides, row)?;
    let part = if right < -LEAST {
        NEED_PART
    } else {
        SLACK_PART
    };
    Ok(right - terms.taken - CLEAR > part * terms.size)
}

/// The columns that aren't 0, ascending. One that was raised for a row is left out where others have made room in that row since: its
/// slack is basic then, and with both there would be more basic variables than rows, so that one that matters could be left out.
fn basic_columns(
    alloc: Global,
    asked: &LinearProgram,
    point: &Point,
    raised: &[Option<usize>],
) -> Result<Vec<usize>, Stop> {
    let mut columns = Vec::new(alloc);
    for (column, value) in point.values.iter().enumerate() {
        let is_basic = match at(raised, column)? {
            Some(row) => !has_room(asked, point, row)?,
            None => *value > 0.0,
        };
        if is_basic {
            columns.push(column)?;
        }
    }
    Ok(columns)
}
