//! Multipliers of the reduced rows carried back to the named rows.

ghost use Rattle.std.specs.Prelude.{◌≡◌, [], pos, ◌<ℤ◌, true, false, None, length, map, is_ok, IsTrue, IfOk, IfErr, OnOk};
ghost use Rattle.std.specs.BTreeMap.{insert_entry};
ghost use Rattle.exact_num.specs.Formed.{product_formed};
ghost use Rattle.exact_num.specs.Range.{InRange, all_fit};
ghost use Rattle.exact_num.specs.Rational.{times};
ghost use Rattle.exact_num.specs.Steps.{first_wide};
ghost use Rattle.exact_num.specs.Value.{value_of};
ghost use Rattle.row_core.specs.declared.place.Place.TheVariants.{LiftMultiplier};
ghost use Rattle.row_core.specs.Numbers.{ascends, numbers_of};
ghost use Rattle.row_core.specs.Order.{row_name_cmp};
ghost use Rattle.row_core.specs.Plans.{value_in};
ghost use Rattle.row_core.specs.Rows.{number_at};
ghost use Rattle.row_core.specs.Stops.{IsStop};
ghost use Rattle.written_method.specs.Definitions.{definitions_of, defined, AreTriangular};
ghost use Rattle.written_method.specs.Multiplied.{coefficient, scaled_multipliers, scaled_steps, defined_multipliers, defined_steps, named_multipliers, multiplier_steps};
ghost use Rattle.written_method.specs.SolvedFor.{solved_for, solved_formed};
ghost use Rattle.variable_elimination.specs.Cells.{HaveColumns};
ghost use Rattle.variable_elimination.specs.Certified.{CarriesBound, CarriesSum};
ghost use Rattle.variable_elimination.specs.Eliminations.{IsPartOf, IsWhole};
ghost use Rattle.row_core.specs.RowLists.{names_of};
ghost use Rattle.variable_elimination.specs.SoFar.{IsFirst};
ghost use Rattle.variable_elimination.specs.Valued.{values_in};

use crate::cells::{Columns, column_of, columns_at};
use crate::values::{entries_of, solved_for};
use exact_num::{Frac, TooWide, mul};
use row_core::kind_numbers::TOTAL_DISCOUNTED_COST;
use row_core::{Multipliers, Place, Row, RowName, Stopped, Var, number_of};
use std::alloc::Global;
use std::collections::BTreeMap;
use written_method::Reduced;

/// The multipliers of the named rows, from those of the reduced rows.
///
/// A row that defines nothing has the multiplier of its reduced row times the scale. Then the definitions follow in reverse
/// order of rows: the coefficient of the defined variable in the cost (1 for TotalDiscountedCost; always 0 without
/// `with_cost`), less the sum over the other rows of multiplier times entry at the variable, divided by the definition's own
/// entry. Every other row has the multiplier 0.
///
/// So each defined variable's column has the sum that its coefficient says, and multipliers that prove a bound, or that
/// refute the reduced rows, do the same of the named rows (`certificate_laws`). `Width(LiftMultiplier(name))` comes exactly
/// where a number that is formed doesn't fit, with the first row in this order at which one doesn't; any other refusal
/// means that memory ran out.
pub fn lift_multipliers(
    alloc: Global,
    rows: &[Row],
    defs: &[Option<Var>],
    reduced: &Reduced,
    lambda: &[Frac],
    with_cost: bool,
) -> Result<Multipliers, Stopped>
    requires same { length defs.now ≡ length rows.now }
    requires triangular { AreTriangular (definitions_of rows.now defs.now) }
    requires ordered { IsTrue (ascends row_name_cmp (names_of rows.now)) }
    requires scaled { length reduced.now.scales.items ≡ length reduced.now.rows.items }
    requires counted { length lambda.now ≡ length reduced.now.rows.items }
    ensures multipliers { IfOk result (λ made. made ≡ named_multipliers with_cost rows.now (definitions_of rows.now defs.now) (names_of reduced.now.rows.items) (map value_of reduced.now.scales.items) (map value_of lambda.now)) }
    ensures bounds { with_cost ≡ true → IsWhole rows.now defs.now reduced.now → IfOk result (CarriesBound rows.now (defined (definitions_of rows.now defs.now)) reduced.now lambda.now) }
    ensures refutes { with_cost ≡ false → IsPartOf rows.now defs.now reduced.now → IfOk result (CarriesSum rows.now (defined (definitions_of rows.now defs.now)) reduced.now lambda.now) }
    ensures fits { OnOk result (first_wide (multiplier_steps with_cost rows.now (definitions_of rows.now defs.now) (names_of reduced.now.rows.items) (map value_of reduced.now.scales.items) (map value_of lambda.now)) ≡ None) }
    ensures stopped { IfErr result (IsFirst (first_wide (multiplier_steps with_cost rows.now (definitions_of rows.now defs.now) (names_of reduced.now.rows.items) (map value_of reduced.now.scales.items) (map value_of lambda.now)))) }
{
    let columns = columns_at(alloc, rows, defs)?;
    let mut multipliers = scaled_multipliers(alloc, reduced, lambda)?;
    add_defined(rows, defs, &columns, with_cost, &mut multipliers)?;
    let entries = entries_of(alloc, &multipliers)?;
    Ok(Multipliers::of(entries))
}

/// The multipliers of the reduced rows times the scales, by the names of the rows.
fn scaled_multipliers(
    alloc: Global,
    reduced: &Reduced,
    lambda: &[Frac],
) -> Result<BTreeMap<RowName, Frac>, Stopped>
    requires scaled { length reduced.now.scales.items ≡ length reduced.now.rows.items }
    requires counted { length lambda.now ≡ length reduced.now.rows.items }
    ensures made { IfOk result (λ made. values_in made ≡ scaled_multipliers (names_of reduced.now.rows.items) (map value_of reduced.now.scales.items) (map value_of lambda.now) []) }
    ensures fits { OnOk result (first_wide (scaled_steps (names_of reduced.now.rows.items) (map value_of reduced.now.scales.items) (map value_of lambda.now)) ≡ None) }
    ensures stopped { IfErr result (IsFirst (first_wide (scaled_steps (names_of reduced.now.rows.items) (map value_of reduced.now.scales.items) (map value_of lambda.now)))) }
{
    let mut made = BTreeMap::new(alloc);
    for (i, row) in reduced.rows.iter().enumerate() {
        push_scaled(row.name, lambda[i], reduced.scales[i], &mut made)?;
    }
    Ok(made)
}

/// Adds the multiplier of a reduced row times its scale.
fn push_scaled(
    name: RowName,
    multiplier: Frac,
    scale: Frac,
    made: &mut BTreeMap<RowName, Frac>,
) -> Result<(), Stopped>
    ensures pushed { OnOk result (values_in made.new ≡ insert_entry row_name_cmp (values_in made.old) name (times (value_of multiplier) (value_of scale))) }
    ensures fits { OnOk result (all_fit (product_formed (value_of multiplier) (value_of scale)) ≡ true) }
    ensures stopped { IfErr result (IsStop (LiftMultiplier name) (all_fit (product_formed (value_of multiplier) (value_of scale)))) }
{
    let value = match mul(multiplier, scale) {
        Ok(value) => value,
        Err(_) => return Err(Stopped::Width(Place::LiftMultiplier(name))),
    };
    let _ = made.insert(name, value)?;
    Ok(())
}

/// Adds the multipliers of the definitions, from the last to the first.
fn add_defined(
    rows: &[Row],
    defs: &[Option<Var>],
    columns: &Columns,
    with_cost: bool,
    made: &mut BTreeMap<RowName, Frac>,
) -> Result<(), Stopped>
    requires same { length defs.now ≡ length rows.now }
    requires triangular { AreTriangular (definitions_of rows.now defs.now) }
    requires columns { HaveColumns defs.now rows.now columns.now }
    ensures made { OnOk result (values_in made.new ≡ defined_multipliers with_cost rows.now (definitions_of rows.now defs.now) (values_in made.old)) }
    ensures fits { OnOk result (first_wide (defined_steps with_cost rows.now (definitions_of rows.now defs.now) (values_in made.old)) ≡ None) }
    ensures stopped { IfErr result (IsFirst (first_wide (defined_steps with_cost rows.now (definitions_of rows.now defs.now) (values_in made.old)))) }
{
    for done in 0..rows.len() {
        let i = rows.len() - 1 - done;
        if let Some(variable) = defs[i] {
            push_defined(
                &rows[i],
                variable,
                column_of(columns, variable),
                with_cost,
                made,
            )?;
        }
    }
    Ok(())
}

/// Adds the multiplier of a definition, by the column of its variable.
fn push_defined(
    row: &Row,
    variable: Var,
    column: &[(RowName, i128)],
    with_cost: bool,
    made: &mut BTreeMap<RowName, Frac>,
) -> Result<(), Stopped>
    requires positive { pos 0 <ℤ number_at row.now.entries.items variable }
    requires column_fits { all_fit (numbers_of column.now) ≡ true }
    ensures pushed { OnOk result (values_in made.new ≡ insert_entry row_name_cmp (values_in made.old) row.now.name (solved_for row_name_cmp (value_in row_name_cmp (values_in made.old)) row.now.name column.now (coefficient with_cost variable) (number_at row.now.entries.items variable))) }
    ensures fits { OnOk result (all_fit (solved_formed row_name_cmp (value_in row_name_cmp (values_in made.old)) row.now.name column.now (coefficient with_cost variable) (number_at row.now.entries.items variable)) ≡ true) }
    ensures stopped { IfErr result (IsStop (LiftMultiplier row.now.name) (all_fit (solved_formed row_name_cmp (value_in row_name_cmp (values_in made.old)) row.now.name column.now (coefficient with_cost variable) (number_at row.now.entries.items variable)))) }
{
    let value = match multiplier_of(row, variable, column, with_cost, made) {
        Ok(value) => value,
        Err(_) => return Err(Stopped::Width(Place::LiftMultiplier(row.name))),
    };
    let _ = made.insert(row.name, value)?;
    Ok(())
}

/// The multiplier of a definition, by the column of its variable.
fn multiplier_of(
    row: &Row,
    variable: Var,
    column: &[(RowName, i128)],
    with_cost: bool,
    made: &BTreeMap<RowName, Frac>,
) -> Result<Frac, TooWide>
    requires positive { pos 0 <ℤ number_at row.now.entries.items variable }
    requires column_fits { all_fit (numbers_of column.now) ≡ true }
    ensures refused { is_ok result ≡ all_fit (solved_formed row_name_cmp (value_in row_name_cmp (values_in made.now)) row.now.name column.now (coefficient with_cost variable) (number_at row.now.entries.items variable)) }
    ensures value { IfOk result (λ value. value_of value ≡ solved_for row_name_cmp (value_in row_name_cmp (values_in made.now)) row.now.name column.now (coefficient with_cost variable) (number_at row.now.entries.items variable)) }
{
    let own = number_of(&row.entries, variable);
    solved_for(
        row.name,
        column,
        coefficient(variable, with_cost),
        own,
        made,
    )
}

/// The coefficient of a variable in the cost, or 0 where no cost is asked for.
fn coefficient(variable: Var, with_cost: bool) -> i128
    ensures value { result ≡ coefficient with_cost variable }
    ensures range { InRange result }
{
    if with_cost && variable.kind == TOTAL_DISCOUNTED_COST {
        1
    } else {
        0
    }
}
