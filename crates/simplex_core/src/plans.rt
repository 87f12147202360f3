//! A plan or a direction from the values of the columns.

ghost use Rattle.std.specs.Prelude.{◌≡◌, ◌+◌, ◌<◌, ◌^◌, true, None, IfOk, IfErr, OnOk, is_ok, slice_index_or, if◌then◌else◌};
ghost use Rattle.exact_num.specs.Range.{all_fit};
ghost use Rattle.exact_num.specs.Steps.{first_wide};
ghost use Rattle.exact_num.specs.Value.{value_of};
ghost use Rattle.row_core.specs.Numbers.{ascends};
ghost use Rattle.row_core.specs.Order.{var_cmp};
ghost use Rattle.written_method.specs.FirstTableau.{width_of};
ghost use Rattle.written_method.specs.Values.{by_variable, by_variable_steps};
ghost use Rattle.simplex_core.specs.LastTableaus.{place_of, value_at_column, variable_formed, variable_value};
ghost use Rattle.simplex_core.specs.Runs.{IsFirst};

use exact_num::{Frac, TooWide, sub};
use int_tableau::{column_after, is_split};
use row_core::{Place, Plan, Stopped, Var, fraction};
use std::alloc::Global;

/// What is lifted: a place names it.
#[derive(Clone, Copy, PartialEq, Eq)]
pub(crate) enum Lift {
    /// The values of a plan.
    Plan,
    /// The direction of an unbounded end.
    Direction,
}

/// The value at a position, 0 after the last.
fn value_at(values: &[Frac], column: usize) -> Frac
    ensures { value_of result ≡ value_at_column values.now column }
{
    if column < values.len() {
        values[column]
    } else {
        fraction(0)
    }
}

/// The value of a variable whose first column is this one: one that may be negative is its positive part less its negative part.
fn variable_value(values: &[Frac], column: usize, variable: Var) -> Result<Frac, TooWide>
    requires { column + 1 < 2 ^ 64 }
    ensures refused { is_ok result ≡ all_fit (variable_formed (value_at_column values.now) column variable) }
    ensures value { IfOk result (λ v. value_of v ≡ variable_value (value_at_column values.now) column variable) }
{
    let value = value_at(values, column);
    if is_split(variable) {
        sub(value, value_at(values, column + 1))
    } else {
        Ok(value)
    }
}

/// Where the value of a variable is lifted.
fn place_of(lift: Lift, variable: Var) -> Place
    ensures { result ≡ place_of lift variable }
{
    match lift {
        Lift::Plan => Place::LiftPlan(variable),
        Lift::Direction => Place::LiftDirection(variable),
    }
}

/// The values of variables, which ascend, from those of their columns.
///
/// `Width` comes exactly at the first variable whose difference forms a number that doesn't fit.
pub(crate) fn by_variable(
    alloc: Global,
    variables: &[Var],
    values: &[Frac],
    lift: Lift,
) -> Result<Plan, Stopped>
    requires ascending { ascends var_cmp variables.now ≡ true }
    requires countable { width_of variables.now + 1 < 2 ^ 64 }
    ensures value { IfOk result (λ plan. plan ≡ by_variable (value_at_column values.now) 0 variables.now) }
    ensures fits { OnOk result (first_wide (by_variable_steps (place_of lift) (value_at_column values.now) 0 variables.now) ≡ None) }
    ensures stopped { IfErr result (IsFirst (first_wide (by_variable_steps (place_of lift) (value_at_column values.now) 0 variables.now))) }
{
    let mut entries = Vec::with_capacity(alloc, variables.len())?;
    let mut column = 0;
    for variable in variables {
        let Ok(value) = variable_value(values, column, *variable) else {
            return Err(Stopped::Width(place_of(lift, *variable)));
        };
        entries.push((*variable, value))?;
        column = column_after(*variable, column);
    }
    Ok(Plan::of(entries))
}
