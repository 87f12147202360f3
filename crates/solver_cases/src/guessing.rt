//! How good a guess is.

use rounded_simplex::LinearProgram;

/// What a row may be missed by, and a value or a multiplier be below 0.
pub const MISS: f64 = 1e-8;

/// What a cost may be off by, of 1 and of the cost.
const OFF: f64 = 1e-7;

/// The sum of the products.
pub fn inner(numbers: &[f64], others: &[f64]) -> f64 {
    let mut sum = 0.0;
    for (number, other) in numbers.iter().zip(others) {
        sum += *number * *other;
    }
    sum
}

/// How far the rows are missed by at most.
pub fn greatest_miss(program: &LinearProgram, values: &[f64]) -> f64 {
    let mut most = 0.0;
    for (row, right) in program.right_sides.iter().enumerate() {
        let miss = left_side(program, values, row) - *right;
        if miss > most {
            most = miss;
        }
    }
    most
}

/// The sum of a row.
fn left_side(program: &LinearProgram, values: &[f64], row: usize) -> f64 {
    let mut sum = 0.0;
    for (column, value) in values.iter().enumerate() {
        for place in start(program, column)..start(program, column.saturating_add(1)) {
            if program.rows.get(place).copied() == Some(row) {
                sum += program.values.get(place).copied().unwrap_or(0.0) * *value;
            }
        }
    }
    sum
}

/// Where the entries of a column begin, or all end.
fn start(program: &LinearProgram, column: usize) -> usize {
    let start = program.starts.get(column).copied().unwrap_or(0);
    start.min(program.rows.len())
}

/// All are at least 0, nearly.
pub fn is_signed(numbers: &[f64]) -> bool {
    numbers.iter().all(|number| *number > -MISS)
}

/// The number is the least cost, nearly.
pub fn is_near(number: f64, least: f64) -> bool {
    (number - least).abs() < OFF * (1.0 + least.abs())
}
