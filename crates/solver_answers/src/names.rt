//! What is found at the names of columns and rows.

ghost use Rattle.std.specs.Prelude.{◌≡◌};
ghost use Rattle.solver_answers.specs.Names.{at_column, at_name, at_row};

use crate::found::Found;
use crate::numbers::{place_in, whole_in};

/// What is found at a name: `C` and the number of a column, `R` and that of a row, or `M` and any number, a combination of rows.
pub(crate) fn at_name(columns: usize, rows: usize, name: &[u8], value: Option<f64>) -> Found
    ensures { result ≡ at_name columns rows name.now value }
{
    let Some((letter, digits)) = name.split_first() else {
        return Found::Wrong;
    };
    match *letter {
        b'C' => at_column(place_in(columns, digits), value),
        b'R' => at_row(place_in(rows, digits), value),
        b'M' => at_sum(whole_in(digits), value),
        _ => Found::Wrong,
    }
}

/// What is found at the place of a column.
pub(crate) fn at_column(place: Option<usize>, value: Option<f64>) -> Found
    ensures { result ≡ at_column place value }
{
    match (place, value) {
        (Some(place), Some(value)) => Found::Value(place, value),
        _ => Found::Wrong,
    }
}

/// What is found at the place of a row.
fn at_row(place: Option<usize>, value: Option<f64>) -> Found
    ensures { result ≡ at_row place value }
{
    match (place, value) {
        (Some(_), Some(_)) => Found::Passed,
        _ => Found::Wrong,
    }
}

/// What is found at a combination of rows.
fn at_sum(number: Option<u64>, value: Option<f64>) -> Found
    ensures { result ≡ at_row number value }
{
    match (number, value) {
        (Some(_), Some(_)) => Found::Passed,
        _ => Found::Wrong,
    }
}
