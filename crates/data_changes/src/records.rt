//! The change that a record says.

ghost use Rattle.std.specs.Prelude.{◌≡◌, ◌^◌, ◌≤◌, ◌==◌, None, Ok, Some, map, option_map, position, IfErr, IfOk, IfSome, unsigned_abs, if◌then◌else◌};
ghost use Rattle.model_sets.specs.Data.{Data, IsUsedParam};
ghost use Rattle.model_sets.specs.Names.{IsSet, year};
ghost use Rattle.model_sets.specs.Params.{IsParam, subscript_sets};
ghost use Rattle.model_sets.specs.Members.{is_among, members};
ghost use Rattle.model_sets.specs.Years.{number_of};
ghost use Rattle.param_tables.specs.ChangeTold.{CanAllBeNamed, CanBeNamed, IsChangeOf, named_by, named_over};
ghost use Rattle.data_changes.specs.Columns.{columns_of};
ghost use Rattle.data_changes.specs.Records.{all_named, change_in, change_of, kind_in, members_named, texts_of, used_number, years_named};
ghost use Rattle.data_changes.specs.Told.{IsRecordStopDue, told_of};

use crate::columns::{columns_of, field_in, has_stray, is_every};
use crate::fault::{RecordFault, RecordStop};
use model_sets::set_numbers::YEAR;
use model_sets::{Sets, is_used, param_number, subscript_sets};
use param_tables::{Change, ChangeKind, Members};
use scaled_decimals::read_decimal;
use std::alloc::{AllocError, Global};

/// A change, and whether the number in the record was rounded to billionths.
#[derive(Drop)]
pub(crate) struct ToldChange {
    pub(crate) change: Change,
    pub(crate) rounded: bool,
}

/// The change that the record says over data with these sets, of which `second` says whether their text has a statement for
/// DiscountRateIdv. Refuses the first rule that the record breaks. It may run out of memory.
pub(crate) fn change_in(
    alloc: Global,
    sets: &Sets,
    second: bool,
    header: &[&[u8]],
    record: &[&[u8]],
) -> Result<ToldChange, RecordStop>
    ensures change { (d : Data) → d.sets ≡ sets.now → d.second ≡ second → IfOk result (λ told. change_in d (map (λ name. name.now) header.now) (map (λ field. field.now) record.now) ≡ Ok (told_of sets.now told)) }
    ensures of { (d : Data) → d.sets ≡ sets.now → d.second ≡ second → IfOk result (λ told. IsChangeOf d told.change) }
    ensures refused { (d : Data) → d.sets ≡ sets.now → d.second ≡ second → IfErr result (IsRecordStopDue (change_in d (map (λ name. name.now) header.now) (map (λ field. field.now) record.now)) sets.now) }
{
    if record.len() != header.len() {
        return Err(RecordStop::Fault(RecordFault::BadRecord));
    }
    let Some(param) = used_number(second, field_in(header, record, b"NAME")) else {
        return Err(RecordStop::Fault(RecordFault::UnknownName));
    };
    let columns = columns_of(alloc, param)?;
    if has_stray(header, record, columns.as_slice()) {
        return Err(RecordStop::Fault(RecordFault::BadRecord));
    }
    change_of(alloc, sets, param, header, record, columns.as_slice())
}

/// The number of the parameter of this name, where it is used in data with or without a statement for DiscountRateIdv.
fn used_number(second: bool, name: &[u8]) -> Option<u8>
    ensures number { result ≡ used_number second name.now }
    ensures param { IfSome result IsParam }
    ensures used { (d : Data) → d.second ≡ second → IfSome result (IsUsedParam d) }
{
    let param = param_number(name)?;
    if is_used(param, second) {
        Some(param)
    } else {
        None
    }
}

/// The change of the parameter that the record says, of which the subscripts stand in these columns.
fn change_of(
    alloc: Global,
    sets: &Sets,
    param: u8,
    header: &[&[u8]],
    record: &[&[u8]],
    columns: &[&[u8]],
) -> Result<ToldChange, RecordStop>
    requires param { IsParam param }
    requires columns { map (λ column. column.now) columns.now ≡ columns_of param }
    ensures change { IfOk result (λ told. change_of sets.now (map (λ name. name.now) header.now) (map (λ field. field.now) record.now) param ≡ Ok (told_of sets.now told)) }
    ensures param { IfOk result (λ told. told.change.param ≡ param) }
    ensures named { IfOk result (λ told. CanAllBeNamed sets.now (subscript_sets param) told.change.members.items) }
    ensures amount { IfOk result (λ told. unsigned_abs told.change.amount ≤ 10 ^ 24) }
    ensures refused { IfErr result (IsRecordStopDue (change_of sets.now (map (λ name. name.now) header.now) (map (λ field. field.now) record.now) param) sets.now) }
{
    let Some(members) = all_named(alloc, sets, param, header, record, columns)? else {
        return Err(RecordStop::Fault(RecordFault::UnknownMember));
    };
    let Ok((amount, rounded)) = read_decimal(field_in(header, record, b"VALUE")) else {
        return Err(RecordStop::Fault(RecordFault::BadNumber));
    };
    let Some(kind) = kind_in(field_in(header, record, b"CHANGE")) else {
        return Err(RecordStop::Fault(RecordFault::BadChange));
    };
    let change = Change {
        param,
        members,
        kind,
        amount,
    };
    Ok(ToldChange { change, rounded })
}

/// The members that the record names of the set of each of the parameter's subscripts, where it names some.
fn all_named(
    alloc: Global,
    sets: &Sets,
    param: u8,
    header: &[&[u8]],
    record: &[&[u8]],
    columns: &[&[u8]],
) -> Result<Option<Vec<Members>>, AllocError>
    requires param { IsParam param }
    requires columns { map (λ column. column.now) columns.now ≡ columns_of param }
    ensures named { IfOk result (λ all. option_map (λ members. named_over sets.now (subscript_sets param) members.items) all ≡ all_named sets.now (texts_of (map (λ name. name.now) header.now) (map (λ field. field.now) record.now) param)) }
    ensures can { IfOk result (λ all. IfSome all (λ members. CanAllBeNamed sets.now (subscript_sets param) members.items)) }
{
    let subscripts = subscript_sets(param);
    let mut all = Vec::with_capacity(alloc, subscripts.len())?;
    for (i, set) in subscripts.iter().enumerate() {
        let Some(members) = members_named(sets, *set, field_in(header, record, columns[i])) else {
            return Ok(None);
        };
        all.push(members)?;
    }
    Ok(Some(all))
}

/// The members of the set that the text names: every one, one, or the years from one to another.
fn members_named(sets: &Sets, set: u8, text: &[u8]) -> Option<Members>
    requires { IsSet set }
    ensures named { option_map (named_by sets.now set) result ≡ members_named sets.now set text.now }
    ensures can { IfSome result (CanBeNamed sets.now set) }
{
    if is_every(text) {
        return Some(Members::Every);
    }
    match sets.index_of(set, text) {
        Some(position) => Some(Members::One(position)),
        None if set == YEAR => years_named(sets, text),
        None => None,
    }
}

/// The years from one member to another, with `-` between.
fn years_named(sets: &Sets, text: &[u8]) -> Option<Members>
    ensures named { option_map (named_by sets.now year) result ≡ years_named (members sets.now year) text.now }
    ensures can { IfSome result (CanBeNamed sets.now year) }
{
    let place = dash_in(text)?;
    let first = year_of(sets, &text[..place])?;
    let last = year_of(sets, &text[place + 1..])?;
    if first <= last {
        Some(Members::Years { first, last })
    } else {
        None
    }
}

/// The place of the first `-`.
fn dash_in(text: &[u8]) -> Option<usize>
    ensures { result ≡ position (λ b. b == 45) text.now }
{
    text.iter().position(|byte| *byte == b'-')
}

/// The number of the year, where it is a member.
fn year_of(sets: &Sets, name: &[u8]) -> Option<u16>
    ensures { result ≡ (if is_among (members sets.now year) name.now then Some (number_of name.now) else None) }
{
    let position = sets.index_of(YEAR, name)?;
    Some(sets.year(position))
}

/// What is done with a value.
fn kind_in(text: &[u8]) -> Option<ChangeKind>
    ensures { result ≡ kind_in text.now }
{
    match text {
        b"=" => Some(ChangeKind::Put),
        b"*" => Some(ChangeKind::Multiply),
        b"+" => Some(ChangeKind::Add),
        _ => None,
    }
}
