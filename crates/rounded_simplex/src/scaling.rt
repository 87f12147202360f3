//! The linear program with scaled rows and columns.

ghost use Rattle.std.specs.Prelude.{◌≤◌, length};

use crate::program::LinearProgram;
use crate::shared_rows::SharedRows;
use sparse_factors::{Lists, at, put};
use std::alloc::{AllocError, Global};

/// More halvings or doublings than this aren't needed for a number that isn't tiny beyond use.
const MOST_EXPONENT: usize = 1000;

/// The program with a greatest entry of 1 in each row, and then of at least 1 and below 2 in each column.
#[derive(Drop)]
pub(crate) struct Scaled {
    pub(crate) rows: usize,
    pub(crate) columns: usize,
    pub(crate) by_column: Lists,
    pub(crate) by_row: SharedRows,
    pub(crate) right_sides: Vec<f64>,
    pub(crate) raised_costs: Vec<f64>,
    pub(crate) lowered_costs: Vec<f64>,
    /// What a row was divided by.
    pub(crate) row_sizes: Vec<f64>,
    /// What a column was multiplied by, a power of 2.
    pub(crate) column_scales: Vec<f64>,
}

impl Scaled {
    /// Scales a program.
    pub(crate) fn new(alloc: Global, program: &LinearProgram) -> Result<Scaled, AllocError> {
        let rows = program.right_sides.len();
        let columns = program.raised_costs.len();
        let row_sizes = row_sizes(alloc, program)?;
        let column_scales = column_scales(alloc, program, &row_sizes)?;
        let by_column = scaled_columns(alloc, program, &row_sizes, &column_scales)?;
        Ok(Scaled {
            rows,
            columns,
            by_row: SharedRows::new(alloc, &by_column, rows, columns)?,
            by_column,
            right_sides: quotients(alloc, &program.right_sides, &row_sizes)?,
            raised_costs: products(alloc, &program.raised_costs, &column_scales)?,
            lowered_costs: products(alloc, &program.lowered_costs, &column_scales)?,
            row_sizes,
            column_scales,
        })
    }
}

/// The size of the greatest entry of each row, or 1 where there is none.
fn row_sizes(alloc: Global, program: &LinearProgram) -> Result<Vec<f64>, AllocError> {
    let mut sizes = Vec::new(alloc);
    for _ in 0..program.right_sides.len() {
        sizes.push(0.0)?;
    }
    for place in 0..program.rows.len() {
        let row = at(&program.rows, place, usize::MAX);
        let size = at(&program.values, place, 0.0).abs();
        if size > at(&sizes, row, 0.0) {
            put(&mut sizes, row, size);
        }
    }
    for size in sizes.iter_mut() {
        if *size == 0.0 {
            *size = 1.0;
        }
    }
    Ok(sizes)
}

/// For each column, the power of 2 that takes its greatest entry to at least 1 and below 2.
fn column_scales(
    alloc: Global,
    program: &LinearProgram,
    row_sizes: &[f64],
) -> Result<Vec<f64>, AllocError> {
    let mut scales = Vec::new(alloc);
    for column in 0..program.raised_costs.len() {
        let mut most = 0.0;
        for place in at(&program.starts, column, 0)..end_of(program, column) {
            let size = entry(program, place, row_sizes).abs();
            if size > most {
                most = size;
            }
        }
        scales.push(power_of_two(-exponent(most)))?;
    }
    Ok(scales)
}

/// Where the entries of a column end, at most where all entries do.
fn end_of(program: &LinearProgram, column: usize) -> usize
    ensures { result ≤ length program.now.rows.items }
{
    at(&program.starts, column.saturating_add(1), 0).min(program.rows.len())
}

/// An entry with its row scaled; 0 where it isn't there.
fn entry(program: &LinearProgram, place: usize, row_sizes: &[f64]) -> f64 {
    let row = at(&program.rows, place, usize::MAX);
    let size = at(row_sizes, row, 0.0);
    if size > 0.0 {
        at(&program.values, place, 0.0) / size
    } else {
        0.0
    }
}

/// The scaled columns, without entries of 0.
fn scaled_columns(
    alloc: Global,
    program: &LinearProgram,
    row_sizes: &[f64],
    column_scales: &[f64],
) -> Result<Lists, AllocError> {
    let mut lists = Lists::none(alloc)?;
    for column in 0..program.raised_costs.len() {
        let scale = at(column_scales, column, 1.0);
        for place in at(&program.starts, column, 0)..end_of(program, column) {
            let value = entry(program, place, row_sizes) * scale;
            if value != 0.0 {
                lists.push(at(&program.rows, place, usize::MAX), value)?;
            }
        }
        lists.close()?;
    }
    Ok(lists)
}

/// The numbers, each divided by its divisor.
fn quotients(alloc: Global, numbers: &[f64], divisors: &[f64]) -> Result<Vec<f64>, AllocError> {
    let mut list = Vec::new(alloc);
    for (place, number) in numbers.iter().enumerate() {
        list.push(*number / at(divisors, place, 1.0))?;
    }
    Ok(list)
}

/// The numbers, each multiplied by its factor.
fn products(alloc: Global, numbers: &[f64], factors: &[f64]) -> Result<Vec<f64>, AllocError> {
    let mut list = Vec::new(alloc);
    for (place, number) in numbers.iter().enumerate() {
        list.push(*number * at(factors, place, 1.0))?;
    }
    Ok(list)
}

/// The exponent of a positive number: how often it has to be halved to be at least 1 and below 2. 0 for another one.
pub(crate) fn exponent(number: f64) -> f64 {
    let mut left = number;
    let mut count = 0.0;
    if left > 0.0 && left.is_finite() {
        for _ in 0..MOST_EXPONENT {
            if left >= 2.0 {
                left *= 0.5;
                count += 1.0;
            } else if left < 1.0 {
                left *= 2.0;
                count -= 1.0;
            } else {
                break;
            }
        }
    }
    count
}

/// 2 to a whole number.
pub(crate) fn power_of_two(exponent: f64) -> f64 {
    let mut power = 1.0;
    let mut left = exponent;
    for _ in 0..MOST_EXPONENT {
        if left >= 1.0 {
            power *= 2.0;
            left -= 1.0;
        } else if left <= -1.0 {
            power *= 0.5;
            left += 1.0;
        } else {
            break;
        }
    }
    power
}
