//! Values and multipliers of the last state.

ghost use Rattle.std.specs.Prelude.{[], ◌≡◌, ◌+◌, ◌<◌, ◌^◌, true, length, pos, map, replicate, slice_index_or, Some, IfOk, IfErr};
ghost use Rattle.row_problem.specs.Prelude.{InRange, whole, value_of, ascends, keys_of, var_cmp, width_of};
ghost use Rattle.decimal_solver.specs.Ends.{at_most_0, column_values, row_multiplier, row_multipliers, spread, value_in_column, variable_value, variable_values};
ghost use Rattle.decimal_solver.specs.Views.{IsNothing, entries_seen, number_seen, rows_seen};

use crate::choosing::clipped;
use crate::numbers::UNIT;
use crate::states::{Entry, GridRow, Number};
use certified_answers::NoAnswer;
use exact_num::{Frac, product, ratio, sub};
use int_tableau::{column_after, is_split};
use row_core::{Plan, Var, fraction};
use std::alloc::{AllocError, Global};

/// The value of each column: what its row's right side says where it is basic, else 0.
pub(crate) fn column_values(
    alloc: Global,
    columns: usize,
    rows: &[GridRow],
) -> Result<Vec<Frac>, AllocError>
    ensures { IfOk result (λ values. map value_of values.items ≡ column_values (replicate columns (whole (pos 0))) (rows_seen rows.now)) }
{
    let mut values = vec![in alloc; fraction(0); columns]?;
    for row in rows {
        if row.basic < values.len() {
            values[row.basic] = ratio(clipped(row.line.right), UNIT);
        }
    }
    Ok(values)
}

/// The value at a position, 0 after the last.
fn value_at(values: &[Frac], column: usize) -> Frac
    ensures { value_of result ≡ value_in_column (map value_of values.now) column }
{
    if column < values.len() {
        values[column]
    } else {
        fraction(0)
    }
}

/// The value of a variable whose first column is this one.
fn variable_value(values: &[Frac], column: usize, variable: Var) -> Result<Frac, NoAnswer>
    requires { column + 1 < 2 ^ 64 }
    ensures value { IfOk result (λ x. variable_value (map value_of values.now) column variable ≡ Some (value_of x)) }
    ensures nothing { IfErr result (IsNothing (variable_value (map value_of values.now) column variable)) }
{
    let value = value_at(values, column);
    if is_split(variable) {
        Ok(sub(value, value_at(values, column + 1))?)
    } else {
        Ok(value)
    }
}

/// The values of variables, which ascend.
pub(crate) fn variable_values(
    alloc: Global,
    values: &[Frac],
    variables: &[Var],
) -> Result<Plan, NoAnswer>
    requires ascending { ascends var_cmp variables.now ≡ true }
    requires countable { width_of variables.now + 1 < 2 ^ 64 }
    ensures value { IfOk result (λ plan. variable_values (map value_of values.now) 0 [] variables.now ≡ Some plan) }
    ensures keyed { IfOk result (λ plan. keys_of plan ≡ variables.now) }
    ensures nothing { IfErr result (IsNothing (variable_values (map value_of values.now) 0 [] variables.now)) }
{
    let mut made = Vec::with_capacity(alloc, variables.len())?;
    let mut column = 0;
    for variable in variables {
        made.push((*variable, variable_value(values, column, *variable)?))?;
        column = column_after(*variable, column);
    }
    Ok(Plan::of(made))
}

/// The numbers of entries, column by column.
pub(crate) fn spread(
    alloc: Global,
    columns: usize,
    entries: &[Entry],
) -> Result<Vec<Number>, AllocError>
    ensures { IfOk result (λ numbers. map number_seen numbers.items ≡ spread (replicate columns (pos 0)) (entries_seen entries.now)) }
{
    let mut numbers = vec![in alloc; Number { value: 0 }; columns]?;
    for entry in entries {
        if entry.column < numbers.len() {
            numbers[entry.column] = Number {
                value: entry.number,
            };
        }
    }
    Ok(numbers)
}

/// The number in a column, 0 after the last.
fn number_in(numbers: &[Number], column: usize) -> i128
    ensures value { result ≡ slice_index_or (map number_seen numbers.now) column (pos 0) }
    ensures range { InRange result }
{
    if column < numbers.len() {
        numbers[column].value
    } else {
        0
    }
}

/// The number in a column, of which one above 0 counts as 0.
fn number_at(numbers: &[Number], column: usize) -> i128
    ensures value { result ≡ at_most_0 (slice_index_or (map number_seen numbers.now) column (pos 0)) }
    ensures range { InRange result }
{
    let number = number_in(numbers, column);
    if 0 < number { 0 } else { number }
}

/// The multiplier of a row by the number of its slack, over a billion times the row's scale.
fn row_multiplier(number: i128, scale: i128) -> Result<Frac, NoAnswer>
    requires { InRange number }
    ensures value { IfOk result (λ made. row_multiplier number scale ≡ Some (value_of made)) }
    ensures nothing { IfErr result (IsNothing (row_multiplier number scale)) }
{
    let d = product(UNIT, scale)?;
    if d == 0 {
        return Err(NoAnswer::Nothing);
    }
    Ok(ratio(number, d))
}

/// The multipliers of rows whose slacks stand from a column on.
#[tactic(auto, unfolding(crate::specs::Ends::row_multipliers))]
pub(crate) fn row_multipliers(
    alloc: Global,
    numbers: &[Number],
    first: usize,
    rows: &[GridRow],
) -> Result<Vec<Frac>, NoAnswer>
    requires { first + length rows.now < 2 ^ 64 }
    ensures counted { IfOk result (λ made. length made.items ≡ length rows.now) }
    ensures value { IfOk result (λ made. row_multipliers (map number_seen numbers.now) first [] (rows_seen rows.now) ≡ Some (map value_of made.items)) }
    ensures nothing { IfErr result (IsNothing (row_multipliers (map number_seen numbers.now) first [] (rows_seen rows.now))) }
{
    let mut made = Vec::with_capacity(alloc, rows.len())?;
    for (position, row) in rows.iter().enumerate() {
        made.push(row_multiplier(number_at(numbers, first + position), row.scale)?)?;
    }
    Ok(made)
}
