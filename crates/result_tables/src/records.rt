//! The records of tables: members of subscripts, and a value.

ghost use Rattle.std.specs.Prelude.{◌≡◌, ◌++◌, ◌∷◌, ◌<◌, [], IfOk, OnOk, length, slice_index_or, true, if◌then◌else◌};
ghost use Rattle.csv.specs.Records.{fields_of, partial_of};
ghost use Rattle.csv.specs.Writing.{default_writer, row_text};
ghost use Rattle.exact_num.specs.Value.{value_of};
ghost use Rattle.model_sets.specs.Members.{members};
ghost use Rattle.model_sets.specs.Names.{IsSet};
ghost use Rattle.plan_files.specs.Records.{HasSubscriptsWithin, has_at};
ghost use Rattle.row_core.specs.Numbers.{is_zero};
ghost use Rattle.scaled_decimals.specs.PrintedFraction.{fraction_text};
ghost use Rattle.scaled_decimals.specs.PrintedPlaces.{places_text};
ghost use Rattle.result_tables.specs.Tables.{members_of, value_fields};

use csv::ByteRecord;
use exact_num::Frac;
use model_sets::Sets;
use model_sets::set_numbers::{
    EMISSION, FUEL, MODE_OF_OPERATION, REGION, TECHNOLOGY, TIMESLICE, YEAR,
};
use plan_files::{push_field, push_record};
use row_core::Index;
use scaled_decimals::{push_frac, push_places};
use std::alloc::{AllocError, Global};

/// Appends a record of these fields, the members of subscripts, and a value.
pub(crate) fn push_amount_record(
    alloc: Global,
    out: &mut Vec<u8>,
    sets: &Sets,
    start: ByteRecord,
    has: &[bool; 8],
    at: Index,
    value: Frac,
) -> Result<(), AllocError>
    requires whole { partial_of start ≡ [] }
    requires within { HasSubscriptsWithin sets.now (has_at has.now) at }
    ensures { OnOk result (out.new.items ≡ out.old.items ++ row_text default_writer (fields_of start ++ members_of sets.now (has_at has.now) at ++ value_fields (value_of value))) }
{
    let mut fields = start;
    push_members(&mut fields, sets, has, at)?;
    push_value(alloc, &mut fields, value)?;
    push_record(alloc, out, &fields)
}

/// Whether a value is 0.
pub(crate) fn is_zero(value: Frac) -> bool
    ensures { result ≡ is_zero (value_of value).top }
{
    value.num == 0
}

// Appends the members of the subscripts that there are at the places that `has` says, in their order.
fn push_members(
    fields: &mut ByteRecord,
    sets: &Sets,
    has: &[bool; 8],
    at: Index,
) -> Result<(), AllocError>
    requires whole { partial_of fields.old ≡ [] }
    requires within { HasSubscriptsWithin sets.now (has_at has.now) at }
    ensures fields { OnOk result (fields_of fields.new ≡ fields_of fields.old ++ members_of sets.now (has_at has.now) at) }
    ensures whole { OnOk result (partial_of fields.new ≡ []) }
{
    push_member(fields, sets, REGION, has[0], at.region)?;
    push_member(fields, sets, REGION, has[1], at.other)?;
    push_member(fields, sets, TIMESLICE, has[2], at.slice)?;
    push_member(fields, sets, TECHNOLOGY, has[3], at.tech)?;
    push_member(fields, sets, FUEL, has[4], at.fuel)?;
    push_member(fields, sets, EMISSION, has[5], at.emission)?;
    push_member(fields, sets, MODE_OF_OPERATION, has[6], at.mode)?;
    push_member(fields, sets, YEAR, has[7], at.year)
}

// Appends a value as a fraction, and rounded to six decimal places.
fn push_value(alloc: Global, fields: &mut ByteRecord, value: Frac) -> Result<(), AllocError>
    requires whole { partial_of fields.old ≡ [] }
    ensures fields { OnOk result (fields_of fields.new ≡ fields_of fields.old ++ value_fields (value_of value)) }
    ensures whole { OnOk result (partial_of fields.new ≡ []) }
{
    push_field(fields, &fraction_of(alloc, value)?)?;
    push_field(fields, &places_of(alloc, value)?)
}

// Appends a member, where there is the subscript.
fn push_member(
    fields: &mut ByteRecord,
    sets: &Sets,
    set: u8,
    has: bool,
    position: u16,
) -> Result<(), AllocError>
    requires whole { partial_of fields.old ≡ [] }
    requires set { IsSet set }
    requires within { has ≡ true → position < length (members sets.now set) }
    ensures fields { OnOk result (fields_of fields.new ≡ fields_of fields.old ++ (if has then slice_index_or (members sets.now set) position [] ∷ [] else [])) }
    ensures whole { OnOk result (partial_of fields.new ≡ []) }
{
    if has {
        push_field(fields, sets.name_of(set, position))
    } else {
        Ok(())
    }
}

// A value as a fraction.
fn fraction_of(alloc: Global, value: Frac) -> Result<Vec<u8>, AllocError>
    ensures { IfOk result (λ text. text.items ≡ fraction_text (value_of value)) }
{
    let mut text = Vec::new(alloc);
    push_frac(&mut text, value)?;
    Ok(text)
}

// A value rounded to six decimal places.
fn places_of(alloc: Global, value: Frac) -> Result<Vec<u8>, AllocError>
    ensures { IfOk result (λ text. text.items ≡ places_text (value_of value)) }
{
    let mut text = Vec::new(alloc);
    push_places(&mut text, value)?;
    Ok(text)
}
