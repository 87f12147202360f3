//! Values of the columns carried back to the defined variables.

ghost use Rattle.std.specs.Prelude.{◌≡◌, pos, ◌<ℤ◌, true, None, length, is_ok, List, IfOk, IfErr, OnOk};
ghost use Rattle.std.specs.BTreeMap.{insert_entry};
ghost use Rattle.exact_num.specs.Range.{InRange, all_fit};
ghost use Rattle.exact_num.specs.Steps.{first_wide};
ghost use Rattle.exact_num.specs.Value.{value_of};
ghost use Rattle.exact_num.specs.declared.fraction.Frac.{Frac};
ghost use Rattle.row_core.specs.declared.Row.{Row};
ghost use Rattle.row_core.specs.declared.Var.{Var};
ghost use Rattle.row_core.specs.declared.place.Place.TheVariants.{LiftPlan, LiftDirection};
ghost use Rattle.row_core.specs.Order.{var_cmp};
ghost use Rattle.row_core.specs.Plans.{value_in};
ghost use Rattle.row_core.specs.Rows.{number_at};
ghost use Rattle.row_core.specs.Stops.{IsStop};
ghost use Rattle.written_method.specs.Definitions.{Definition, definitions_of, others_of, rows_of, defined, is_among, AreTriangular};
ghost use Rattle.written_method.specs.Lifted.{lifted, lifted_steps, lifted_value, lifted_formed, right_side, no_right_side};
ghost use Rattle.variable_elimination.specs.Left.{AvoidAll};
ghost use Rattle.variable_elimination.specs.Lifting.{right_by, place_by, definition_by};
ghost use Rattle.variable_elimination.specs.Valued.{values_in};
ghost use Rattle.variable_elimination.specs.Lifts.{CarriesPlan, CarriesDirection, KeepsOthers, MakesRight};
ghost use Rattle.variable_elimination.specs.Meaning.{KeepSigns};
ghost use Rattle.variable_elimination.specs.ReducedRows.{AreReductions};
ghost use Rattle.variable_elimination.specs.SoFar.{IsFirst};

use crate::values::{by_key, entries_of, solved_for};
use exact_num::{Frac, TooWide};
use row_core::{Place, Plan, Row, Stopped, Var, number_of};
use std::alloc::Global;
use std::collections::BTreeMap;

/// What is carried back.
#[derive(Clone, Copy)]
pub(crate) enum Lift {
    /// A plan: each row has its own right side.
    Plan,
    /// A direction: each row has the right side 0.
    Direction,
}

/// The plan of these values of the columns: each defined variable, in the order of rows, gets the value that its row gives
/// it, which is the right side less the sum of the other entries times their values, divided by the variable's own entry.
///
/// Of this plan every row holds, where the reduced rows hold of the values. `Width(LiftPlan(variable))` comes exactly where a
/// number that is formed doesn't fit, with the first variable at which one doesn't: each product and each sum, in ascending
/// order of variables, the difference with the right side, and the quotient. Any other refusal means that memory ran out.
pub fn lift_plan(
    alloc: Global,
    rows: &[Row],
    defs: &[Option<Var>],
    values: &Plan,
) -> Result<Plan, Stopped>
    requires same { length defs.now ≡ length rows.now }
    requires triangular { AreTriangular (definitions_of rows.now defs.now) }
    ensures values { IfOk result (λ plan. plan ≡ lifted right_side (definitions_of rows.now defs.now) values.now) }
    ensures others { IfOk result (KeepsOthers (defined (definitions_of rows.now defs.now)) values.now) }
    ensures holds { (reduced : List Row) (scales : List Frac) → AreReductions (rows_of (definitions_of rows.now defs.now)) (others_of rows.now defs.now) reduced scales
        → AvoidAll (defined (definitions_of rows.now defs.now)) reduced → IfOk result (CarriesPlan rows.now reduced values.now) }
    ensures signs { KeepSigns (definitions_of rows.now defs.now) → IfOk result (MakesRight (defined (definitions_of rows.now defs.now))) }
    ensures fits { OnOk result (first_wide (lifted_steps right_side LiftPlan (definitions_of rows.now defs.now) values.now) ≡ None) }
    ensures stopped { IfErr result (IsFirst (first_wide (lifted_steps right_side LiftPlan (definitions_of rows.now defs.now) values.now))) }
{
    lift_values(alloc, rows, defs, values, Lift::Plan)
}

/// The same for a direction, in which each row has the right side 0; the places are `LiftDirection(variable)`.
pub fn lift_direction(
    alloc: Global,
    rows: &[Row],
    defs: &[Option<Var>],
    values: &Plan,
) -> Result<Plan, Stopped>
    requires same { length defs.now ≡ length rows.now }
    requires triangular { AreTriangular (definitions_of rows.now defs.now) }
    ensures values { IfOk result (λ plan. plan ≡ lifted no_right_side (definitions_of rows.now defs.now) values.now) }
    ensures others { IfOk result (KeepsOthers (defined (definitions_of rows.now defs.now)) values.now) }
    ensures holds { (reduced : List Row) (scales : List Frac) → AreReductions (rows_of (definitions_of rows.now defs.now)) (others_of rows.now defs.now) reduced scales
        → AvoidAll (defined (definitions_of rows.now defs.now)) reduced → IfOk result (CarriesDirection rows.now reduced values.now) }
    ensures signs { KeepSigns (definitions_of rows.now defs.now) → IfOk result (MakesRight (defined (definitions_of rows.now defs.now))) }
    ensures fits { OnOk result (first_wide (lifted_steps no_right_side LiftDirection (definitions_of rows.now defs.now) values.now) ≡ None) }
    ensures stopped { IfErr result (IsFirst (first_wide (lifted_steps no_right_side LiftDirection (definitions_of rows.now defs.now) values.now))) }
{
    lift_values(alloc, rows, defs, values, Lift::Direction)
}

/// The values with those of the defined variables.
fn lift_values(
    alloc: Global,
    rows: &[Row],
    defs: &[Option<Var>],
    values: &Plan,
    goal: Lift,
) -> Result<Plan, Stopped>
    requires same { length defs.now ≡ length rows.now }
    requires triangular { AreTriangular (definitions_of rows.now defs.now) }
    ensures made { IfOk result (λ plan. plan ≡ lifted (right_by goal) (definitions_of rows.now defs.now) values.now) }
    ensures fits { OnOk result (first_wide (lifted_steps (right_by goal) (place_by goal) (definitions_of rows.now defs.now) values.now) ≡ None) }
    ensures stopped { IfErr result (IsFirst (first_wide (lifted_steps (right_by goal) (place_by goal) (definitions_of rows.now defs.now) values.now))) }
{
    let mut lifted = by_key(alloc, values.entries())?;
    for (i, row) in rows.iter().enumerate() {
        if let Some(variable) = defs[i] {
            push_value(row, variable, goal, &mut lifted)?;
        }
    }
    let entries = entries_of(alloc, &lifted)?;
    Ok(Plan::of(entries))
}

/// Adds the value of a defined variable.
fn push_value(
    row: &Row,
    variable: Var,
    goal: Lift,
    values: &mut BTreeMap<Var, Frac>,
) -> Result<(), Stopped>
    requires { pos 0 <ℤ number_at row.now.entries.items variable }
    ensures pushed { OnOk result (values_in values.new ≡ insert_entry var_cmp (values_in values.old) variable (lifted_value (right_by goal) (value_in var_cmp (values_in values.old)) (definition_by row.now variable))) }
    ensures fits { OnOk result (all_fit (lifted_formed (right_by goal) (value_in var_cmp (values_in values.old)) (definition_by row.now variable)) ≡ true) }
    ensures stopped { IfErr result (IsStop (place_by goal variable) (all_fit (lifted_formed (right_by goal) (value_in var_cmp (values_in values.old)) (definition_by row.now variable)))) }
{
    let value = match lifted_value(row, variable, goal, values) {
        Ok(value) => value,
        Err(_) => return Err(Stopped::Width(place_of(goal, variable))),
    };
    let _ = values.insert(variable, value)?;
    Ok(())
}

/// The value that the row gives the variable that it defines.
fn lifted_value(
    row: &Row,
    variable: Var,
    goal: Lift,
    values: &BTreeMap<Var, Frac>,
) -> Result<Frac, TooWide>
    requires { pos 0 <ℤ number_at row.now.entries.items variable }
    ensures refused { is_ok result ≡ all_fit (lifted_formed (right_by goal) (value_in var_cmp (values_in values.now)) (definition_by row.now variable)) }
    ensures value { IfOk result (λ value. value_of value ≡ lifted_value (right_by goal) (value_in var_cmp (values_in values.now)) (definition_by row.now variable)) }
{
    let own = number_of(&row.entries, variable);
    solved_for(variable, &row.entries, right_of(row, goal), own, values)
}

/// The right side that a row has.
fn right_of(row: &Row, goal: Lift) -> i128
    ensures right { (variable : Var) → result ≡ right_by goal (definition_by row.now variable) }
    ensures range { InRange result }
{
    match goal {
        Lift::Plan => row.rhs,
        Lift::Direction => 0,
    }
}

/// The place at which the value of a variable is made.
fn place_of(goal: Lift, variable: Var) -> Place
    ensures { result ≡ place_by goal variable }
{
    match goal {
        Lift::Plan => Place::LiftPlan(variable),
        Lift::Direction => Place::LiftDirection(variable),
    }
}
