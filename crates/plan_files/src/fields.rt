//! The fields of a record.

ghost use Rattle.std.specs.Prelude.{◌≡◌, ◌<◌, true, length, map, slice_index_or, [], if◌then◌else◌};
ghost use Rattle.csv.specs.Records.{fields_of};
ghost use Rattle.model_sets.specs.Members.{members};
ghost use Rattle.model_sets.specs.Names.{IsSet};
ghost use Rattle.row_core.specs.Equations.{IsEquation, equation_has};
ghost use Rattle.row_core.specs.Kinds.{IsKind, kind_has};
ghost use Rattle.plan_files.specs.Files.{field};
ghost use Rattle.plan_files.specs.Reading.{TellsValue};
ghost use Rattle.plan_files.specs.Records.{places};

use csv::ByteRecord;
use exact_num::Frac;
use model_sets::Sets;
use row_core::{row_has, var_has};
use scaled_decimals::exact_value;

/// The name of a member, and nothing where there is no such subscript.
pub(crate) fn member_field<'a>(sets: &'a Sets, set: u8, has: bool, position: u16) -> &'a [u8]
    requires set { IsSet set }
    requires within { has ≡ true → position < length (members sets.now set) }
    ensures { result.now ≡ (if has then slice_index_or (members sets.now set) position [] else []) }
{
    if has {
        sets.name_of(set, position)
    } else {
        b""
    }
}

/// Whether variables of this kind have the subscripts at the eight places, in their order.
pub fn places_of_kind(kind: u8) -> [bool; 8]
    requires { IsKind kind }
    ensures { result ≡ map (kind_has kind) places }
{
    [
        var_has(kind, 0),
        var_has(kind, 1),
        var_has(kind, 2),
        var_has(kind, 3),
        var_has(kind, 4),
        var_has(kind, 5),
        var_has(kind, 6),
        var_has(kind, 7),
    ]
}

/// Whether rows of this equation have the subscripts at the eight places, in their order.
pub fn places_of_equation(eq: u8) -> [bool; 8]
    requires { IsEquation eq }
    ensures { result ≡ map (equation_has eq) places }
{
    [
        row_has(eq, 0),
        row_has(eq, 1),
        row_has(eq, 2),
        row_has(eq, 3),
        row_has(eq, 4),
        row_has(eq, 5),
        row_has(eq, 6),
        row_has(eq, 7),
    ]
}

/// The field at a place, counted from 0, and nothing where there is none.
pub fn field_at(fields: &ByteRecord, place: usize) -> &[u8]
    ensures { result.now ≡ field (fields_of fields.now) place }
{
    match fields.get(place) {
        Some(field) => field,
        None => b"",
    }
}

/// The exact value of a field, if it is one whose numbers fit.
pub(crate) fn value_in_field(field: &[u8]) -> Option<Frac>
    ensures { TellsValue field.now result }
{
    match exact_value(field) {
        Ok(value) => Some(value),
        Err(_) => None,
    }
}
