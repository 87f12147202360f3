//! Plans and multipliers as text.

ghost use Rattle.std.specs.Prelude.{◌≡◌, IfOk, OnOk, map, ◌++◌, ◌∷◌, []};
ghost use Rattle.std.specs.List.{AllByRecursion};
ghost use Rattle.exact_num.specs.Value.{value_of};
ghost use Rattle.row_core.specs.Equations.{IsEquation};
ghost use Rattle.row_core.specs.Kinds.{IsKind};
ghost use Rattle.row_core.specs.NameTexts.{RowNameIsWithin, VariableIsWithin};
ghost use Rattle.row_core.specs.Numbers.{is_zero};
ghost use Rattle.scaled_decimals.specs.PrintedFraction.{fraction_text};
ghost use Rattle.csv.specs.Records.{fields_of, partial_of};
ghost use Rattle.csv.specs.Writing.{default_writer, row_text};
ghost use Rattle.plan_files.specs.Records.{has_at, header, HasSubscriptsWithin, multiplier_records, nonzero, plan_records, row_record, subscript_fields, variable_record, worded_record};
ghost use Rattle.plan_files.specs.Texts.{records_text};

use crate::fields::{member_field, places_of_equation, places_of_kind};
use crate::header::HEADER;
use crate::lines::Lines;
use csv::ByteRecord;
use exact_num::Frac;
use model_sets::Sets;
use model_sets::set_numbers::{
    EMISSION, FUEL, MODE_OF_OPERATION, REGION, TECHNOLOGY, TIMESLICE, YEAR,
};
use row_core::{Index, Multipliers, Plan, RowName, Var, row_word, var_word};
use scaled_decimals::push_frac;
use std::alloc::{AllocError, Global};

/// A plan as CSV text: the header, and a record for each of its variables in order, with the members of its subscripts and
/// its value as a fraction. Refuses where memory runs out.
pub fn plan_text(alloc: Global, plan: &Plan, sets: &Sets) -> Result<Vec<u8>, AllocError>
    requires { AllByRecursion (λ e. IsKind e.0.kind × VariableIsWithin sets.now e.0) plan.now }
    ensures { IfOk result (λ text. text.items ≡ records_text (plan_records sets.now plan.now)) }
{
    let mut out = header_text(alloc)?;
    push_plan(alloc, &mut out, plan, sets)?;
    Ok(out)
}

/// Appends a record for each variable of a plan, in order. Refuses where memory runs out.
pub fn push_plan(
    alloc: Global,
    out: &mut Vec<u8>,
    plan: &Plan,
    sets: &Sets,
) -> Result<(), AllocError>
    requires { AllByRecursion (λ e. IsKind e.0.kind × VariableIsWithin sets.now e.0) plan.now }
    ensures { OnOk result (out.new.items ≡ out.old.items ++ records_text (map (variable_record sets.now) plan.now)) }
{
    let mut lines = Lines::new(alloc);
    let entries = plan.entries();
    for (variable, value) in entries {
        push_variable(alloc, &mut lines, sets, *variable, *value)?;
    }
    out.extend_from_slice(&lines.into_text()?)
}

/// Multipliers as CSV text: the header, and a record for each row in order whose multiplier isn't 0, with the members of its
/// subscripts and its multiplier as a fraction. Refuses where memory runs out.
pub fn multiplier_text(
    alloc: Global,
    multipliers: &Multipliers,
    sets: &Sets,
) -> Result<Vec<u8>, AllocError>
    requires { AllByRecursion (λ e. IsEquation e.0.eq × RowNameIsWithin sets.now e.0) multipliers.now }
    ensures { IfOk result (λ text. text.items ≡ records_text (multiplier_records sets.now multipliers.now)) }
{
    let mut out = header_text(alloc)?;
    push_multipliers(alloc, &mut out, multipliers, sets)?;
    Ok(out)
}

/// Appends a record for each row in order whose multiplier isn't 0. Refuses where memory runs out.
pub fn push_multipliers(
    alloc: Global,
    out: &mut Vec<u8>,
    multipliers: &Multipliers,
    sets: &Sets,
) -> Result<(), AllocError>
    requires { AllByRecursion (λ e. IsEquation e.0.eq × RowNameIsWithin sets.now e.0) multipliers.now }
    ensures { OnOk result (out.new.items ≡ out.old.items ++ records_text (map (row_record sets.now) (nonzero multipliers.now))) }
{
    let mut lines = Lines::new(alloc);
    let entries = multipliers.entries();
    for (name, value) in entries {
        if !is_zero(*value) {
            push_row(alloc, &mut lines, sets, *name, *value)?;
        }
    }
    out.extend_from_slice(&lines.into_text()?)
}

/// The first record, as a line of CSV text. Refuses where memory runs out.
pub fn header_text(alloc: Global) -> Result<Vec<u8>, AllocError>
    ensures { IfOk result (λ text. text.items ≡ row_text default_writer header) }
{
    let mut fields = ByteRecord::new(alloc);
    for name in &HEADER {
        push_field(&mut fields, name)?;
    }
    let mut out = Vec::new(alloc);
    push_record(alloc, &mut out, &fields)?;
    Ok(out)
}

/// Appends the record of a variable.
fn push_variable(
    alloc: Global,
    lines: &mut Lines,
    sets: &Sets,
    variable: Var,
    value: Frac,
) -> Result<(), AllocError>
    requires listed { IsKind variable.kind }
    requires within { VariableIsWithin sets.now variable }
    ensures { OnOk result (lines.new ≡ lines.old ++ row_text default_writer (variable_record sets.now (variable, value_of value))) }
{
    let word = var_word(variable.kind).as_bytes();
    lines.push(&worded_fields(alloc, sets, word, variable, value)?)
}

/// Appends the record of a word, the subscripts of a variable and a value. Refuses where memory runs out.
pub fn push_value(
    alloc: Global,
    out: &mut Vec<u8>,
    sets: &Sets,
    word: &[u8],
    variable: Var,
    value: Frac,
) -> Result<(), AllocError>
    requires listed { IsKind variable.kind }
    requires within { VariableIsWithin sets.now variable }
    ensures { OnOk result (out.new.items ≡ out.old.items
        ++ row_text default_writer (worded_record sets.now word.now (variable, value_of value))) }
{
    let fields = worded_fields(alloc, sets, word, variable, value)?;
    push_record(alloc, out, &fields)
}

/// The record of a word, the subscripts of a variable and a value.
fn worded_fields(
    alloc: Global,
    sets: &Sets,
    word: &[u8],
    variable: Var,
    value: Frac,
) -> Result<ByteRecord, AllocError>
    requires listed { IsKind variable.kind }
    requires within { VariableIsWithin sets.now variable }
    ensures { IfOk result (λ fields. fields_of fields ≡ worded_record sets.now word.now (variable, value_of value)) }
{
    let mut fields = ByteRecord::new(alloc);
    push_field(&mut fields, word)?;
    push_subscripts(
        &mut fields,
        sets,
        &places_of_kind(variable.kind),
        variable.index,
    )?;
    push_field(&mut fields, &value_text(alloc, value)?)?;
    Ok(fields)
}

/// Appends the record of a row.
fn push_row(
    alloc: Global,
    lines: &mut Lines,
    sets: &Sets,
    name: RowName,
    value: Frac,
) -> Result<(), AllocError>
    requires listed { IsEquation name.eq }
    requires within { RowNameIsWithin sets.now name }
    ensures { OnOk result (lines.new ≡ lines.old ++ row_text default_writer (row_record sets.now (name, value_of value))) }
{
    let mut fields = ByteRecord::new(alloc);
    push_field(&mut fields, row_word(name.eq).as_bytes())?;
    push_subscripts(&mut fields, sets, &places_of_equation(name.eq), name.index)?;
    push_field(&mut fields, &value_text(alloc, value)?)?;
    lines.push(&fields)
}

/// Appends the fields of the subscripts, where there are those at the places that `has` says.
fn push_subscripts(
    fields: &mut ByteRecord,
    sets: &Sets,
    has: &[bool; 8],
    at: Index,
) -> Result<(), AllocError>
    requires whole { partial_of fields.old ≡ [] }
    requires within { HasSubscriptsWithin sets.now (has_at has.now) at }
    ensures fields { OnOk result (fields_of fields.new ≡ fields_of fields.old ++ subscript_fields sets.now (has_at has.now) at) }
    ensures whole { OnOk result (partial_of fields.new ≡ []) }
{
    push_field(fields, member_field(sets, REGION, has[0], at.region))?;
    push_field(fields, member_field(sets, REGION, has[1], at.other))?;
    push_field(fields, member_field(sets, TIMESLICE, has[2], at.slice))?;
    push_field(fields, member_field(sets, TECHNOLOGY, has[3], at.tech))?;
    push_field(fields, member_field(sets, FUEL, has[4], at.fuel))?;
    push_field(fields, member_field(sets, EMISSION, has[5], at.emission))?;
    push_field(
        fields,
        member_field(sets, MODE_OF_OPERATION, has[6], at.mode),
    )?;
    push_field(fields, member_field(sets, YEAR, has[7], at.year))
}

/// Appends a field to a record. Refuses where memory runs out.
pub fn push_field(fields: &mut ByteRecord, field: &[u8]) -> Result<(), AllocError>
    requires { partial_of fields.old ≡ [] }
    ensures fields { OnOk result (fields_of fields.new ≡ fields_of fields.old ++ field.now ∷ []) }
    ensures whole { OnOk result (partial_of fields.new ≡ []) }
{
    fields.push_field(field)
}

/// Whether a value is 0.
fn is_zero(value: Frac) -> bool
    ensures { result ≡ is_zero (value_of value).top }
{
    value.num == 0
}

/// A value as a fraction.
fn value_text(alloc: Global, value: Frac) -> Result<Vec<u8>, AllocError>
    ensures { IfOk result (λ text. text.items ≡ fraction_text (value_of value)) }
{
    let mut text = Vec::new(alloc);
    push_frac(&mut text, value)?;
    Ok(text)
}

/// Appends a record as a line of CSV text. Refuses where memory runs out.
pub fn push_record(alloc: Global, out: &mut Vec<u8>, fields: &ByteRecord) -> Result<(), AllocError>
    ensures { OnOk result (out.new.items ≡ out.old.items ++ row_text default_writer (fields_of fields.now)) }
{
    let mut lines = Lines::new(alloc);
    lines.push(fields)?;
    out.extend_from_slice(&lines.into_text()?)
}
