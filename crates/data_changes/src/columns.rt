//! The columns of a file of changes, and the fields in them.

ghost use Rattle.std.specs.Prelude.{◌≡◌, [], ℕ, map, position, IfOk};
ghost use Rattle.std.specs.Str.{bytes_eq};
ghost use Rattle.csv.specs.Records.{fields_of};
ghost use Rattle.model_sets.specs.Members.{is_among};
ghost use Rattle.model_sets.specs.Params.{IsParam};
ghost use Rattle.plan_files.specs.Files.{field};
ghost use Rattle.data_changes.specs.Columns.{are_among, columns_of, field_in, has_twice, is_every, is_header, is_stray, names_in_others, subscript_columns};

use csv::ByteRecord;
use model_sets::set_numbers::REGION;
use model_sets::{set_word, subscript_sets};
use plan_files::field_at;
use std::alloc::{AllocError, Global};

/// The names of all columns.
pub(crate) const COLUMNS: [&[u8]; 11] = [
    b"NAME",
    b"REGION",
    b"_REGION",
    b"TECHNOLOGY",
    b"FUEL",
    b"EMISSION",
    b"MODE_OF_OPERATION",
    b"TIMESLICE",
    b"YEAR",
    b"CHANGE",
    b"VALUE",
];

/// Those of the columns that each file has.
pub(crate) const NEEDED: [&[u8]; 3] = [b"NAME", b"CHANGE", b"VALUE"];

/// Those of the columns of subscripts.
pub(crate) const SUBSCRIPTS: [&[u8]; 8] = [
    b"REGION",
    b"_REGION",
    b"TECHNOLOGY",
    b"FUEL",
    b"EMISSION",
    b"MODE_OF_OPERATION",
    b"TIMESLICE",
    b"YEAR",
];

/// That of the other region of a route.
pub(crate) const OTHER_REGION: &[u8] = b"_REGION";

/// The fields of a record.
pub(crate) fn fields_in(alloc: Global, record: &ByteRecord) -> Result<Vec<&[u8]>, AllocError>
    ensures { IfOk result (λ fields. map (λ field. field.now) fields.items ≡ fields_of record.now) }
{
    let mut fields = Vec::with_capacity(alloc, record.len())?;
    for place in 0..record.len() {
        fields.push(field_at(record, place))?;
    }
    Ok(fields)
}

fn is_among(names: &[&[u8]], name: &[u8]) -> bool
    ensures { result ≡ is_among (map (λ one. one.now) names.now) name.now }
{
    names.iter().any(|one| name == *one)
}

/// Whether one of the names stands twice.
#[tactic(auto, unfolding(crate::specs::Columns::has_twice))]
fn has_twice(names: &[&[u8]]) -> bool
    ensures { result ≡ has_twice (map (λ name. name.now) names.now) }
{
    for (i, name) in names.iter().enumerate() {
        if is_among(&names[i + 1..], *name) {
            return true;
        }
    }
    false
}

/// Whether each of the names is among these.
#[tactic(auto, unfolding(crate::specs::Columns::are_among))]
fn are_among(all: &[&[u8]], names: &[&[u8]]) -> bool
    ensures { result ≡ are_among (map (λ name. name.now) all.now) (map (λ name. name.now) names.now) }
{
    for name in names {
        if !is_among(all, *name) {
            return false;
        }
    }
    true
}

/// Whether the fields are the names of columns, each once, and none that each file has is missing.
pub(crate) fn is_header(fields: &[&[u8]]) -> bool
    ensures { result ≡ is_header (map (λ field. field.now) fields.now) }
{
    are_among(&COLUMNS, fields) && !has_twice(fields) && are_among(fields, &NEEDED)
}

/// The place of the column of this name, where the header has it.
fn place_of(header: &[&[u8]], column: &[u8]) -> Option<usize>
    ensures { result ≡ position (bytes_eq column.now) (map (λ name. name.now) header.now) }
{
    header.iter().position(|name| column == *name)
}

/// The field at the place, and nothing where there is none.
fn field_or_none<'a>(fields: &[&'a [u8]], place: usize) -> &'a [u8]
    ensures { result.now ≡ field (map (λ field. field.now) fields.now) place }
{
    match fields.get(place) {
        Some(field) => *field,
        None => b"",
    }
}

/// The field in the column of this name, and nothing where the header has no such column.
pub(crate) fn field_in<'a>(header: &[&[u8]], fields: &[&'a [u8]], column: &[u8]) -> &'a [u8]
    ensures { result.now ≡ field_in (map (λ name. name.now) header.now) (map (λ field. field.now) fields.now) column.now }
{
    match place_of(header, column) {
        Some(place) => field_or_none(fields, place),
        None => b"",
    }
}

/// The columns of the parameter's subscripts, in their order.
pub(crate) fn columns_of(alloc: Global, param: u8) -> Result<Vec<&'static [u8]>, AllocError>
    requires { IsParam param }
    ensures { IfOk result (λ columns. map (λ column. column.now) columns.items ≡ columns_of param) }
{
    let subscripts = subscript_sets(param);
    let mut columns = Vec::with_capacity(alloc, subscripts.len())?;
    let mut is_second = false;
    for set in subscripts {
        columns.push(if *set == REGION && is_second {
            OTHER_REGION
        } else {
            set_word(*set).as_bytes()
        })?;
        is_second = *set == REGION || is_second;
    }
    Ok(columns)
}

/// A field that is empty or `*` names every member.
pub(crate) fn is_every(text: &[u8]) -> bool
    ensures { result ≡ is_every text.now }
{
    text.is_empty() || text == b"*".as_slice()
}

/// Whether the record names members in one of the columns of subscripts that is none of these, which are its parameter's own.
pub(crate) fn has_stray(header: &[&[u8]], fields: &[&[u8]], own: &[&[u8]]) -> bool
    ensures { result ≡ names_in_others (map (λ name. name.now) header.now) (map (λ field. field.now) fields.now) (map (λ column. column.now) own.now) subscript_columns }
{
    names_in_others(header, fields, own, &SUBSCRIPTS)
}

// Whether it does so in one of these columns.
#[tactic(auto, unfolding(crate::specs::Columns::names_in_others))]
fn names_in_others(header: &[&[u8]], fields: &[&[u8]], own: &[&[u8]], columns: &[&[u8]]) -> bool
    ensures { result ≡ names_in_others (map (λ name. name.now) header.now) (map (λ field. field.now) fields.now) (map (λ column. column.now) own.now) (map (λ column. column.now) columns.now) }
{
    for column in columns {
        if is_stray(header, fields, own, *column) {
            return true;
        }
    }
    false
}

// Whether it does so in this column.
#[tactic(auto, unfolding(crate::specs::Columns::is_stray))]
fn is_stray(header: &[&[u8]], fields: &[&[u8]], own: &[&[u8]], column: &[u8]) -> bool
    ensures { result ≡ is_stray (map (λ name. name.now) header.now) (map (λ field. field.now) fields.now) (map (λ column. column.now) own.now) column.now }
{
    !is_every(field_in(header, fields, column)) && !is_among(own, column)
}
