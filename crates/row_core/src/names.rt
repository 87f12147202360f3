//! The names of variables and rows: a word, and in brackets the members that the subscripts stand for.

ghost use Rattle.std.specs.Prelude.{◌≡◌, ◌++◌, [], ◌≤◌, OnOk, OnErr, map, codes, slice_index_or, if◌then◌else◌};
ghost use Rattle.std.specs.List.{AllByRecursion, join_with_byte};
ghost use Rattle.model_sets.specs.Names.{IsSet};
ghost use Rattle.row_core.specs.Kinds.{IsKind};
ghost use Rattle.row_core.specs.Equations.{IsEquation};
ghost use Rattle.row_core.specs.NameTexts.{Extends, IsWithin, RowNameIsWithin, VariableIsWithin, full_name, member, position_at, row_name, set_of, variable_name};

use crate::equations::{row_subscripts, row_word};
use crate::kinds::{var_subscripts, var_word};
use crate::{Index, RowName, Var};
use model_sets::Sets;
use model_sets::set_numbers::{
    EMISSION, FUEL, MODE_OF_OPERATION, REGION, TECHNOLOGY, TIMESLICE, YEAR,
};
use std::alloc::AllocError;

/// The numbers of the sets over which the subscripts run, in the order of the fields of `Index`.
const SUBSCRIPT_SETS: [u8; 8] = [
    REGION,
    REGION,
    TIMESLICE,
    TECHNOLOGY,
    FUEL,
    EMISSION,
    MODE_OF_OPERATION,
    YEAR,
];

/// Appends a variable's name, as `NewCapacity[R,T,2020]`: the word of its kind, and in brackets the
/// members that its subscripts stand for, in the order of the fields of `Index`, with commas between them.
/// Refuses only where memory runs out, and then `out` stays as it was.
pub fn push_var(out: &mut Vec<u8>, var: Var, sets: &Sets) -> Result<(), AllocError>
    requires listed { IsKind var.kind }
    requires within { VariableIsWithin sets.now var }
    ensures text { OnOk result (out.new.items ≡ out.old.items ++ variable_name sets.now var) }
    ensures unchanged { OnErr result (out.new.items ≡ out.old.items) }
{
    let word = var_word(var.kind);
    push_or_restore(out, word, var_subscripts(var.kind), var.index, sets)
}

/// Appends a row's name, as `CAa1[R,T,2020]`: the word of its equation, and in brackets the members that
/// its subscripts stand for, in the order of the fields of `Index`, with commas between them. Refuses for
/// where memory runs out, and then `out` stays as it was.
pub fn push_row_name(out: &mut Vec<u8>, name: RowName, sets: &Sets) -> Result<(), AllocError>
    requires listed { IsEquation name.eq }
    requires within { RowNameIsWithin sets.now name }
    ensures text { OnOk result (out.new.items ≡ out.old.items ++ row_name sets.now name) }
    ensures unchanged { OnErr result (out.new.items ≡ out.old.items) }
{
    let word = row_word(name.eq);
    push_or_restore(out, word, row_subscripts(name.eq), name.index, sets)
}

// Appends a name, or takes back what was appended of it.
fn push_or_restore(
    out: &mut Vec<u8>,
    word: &str,
    places: &[u8],
    index: Index,
    sets: &Sets,
) -> Result<(), AllocError>
    requires { AllByRecursion (IsWithin sets.now index) places.now }
    ensures text { OnOk result (out.new.items ≡ out.old.items ++ full_name sets.now word.now places.now index) }
    ensures unchanged { OnErr result (out.new.items ≡ out.old.items) }
{
    let before = out.len();
    let pushed = push_name(out, word, places, index, sets);
    if pushed.is_err() {
        out.truncate(before);
    }
    pushed
}

// Appends a word and the members in brackets; where memory runs out, a prefix of that may stand.
fn push_name(
    out: &mut Vec<u8>,
    word: &str,
    places: &[u8],
    index: Index,
    sets: &Sets,
) -> Result<(), AllocError>
    requires { AllByRecursion (IsWithin sets.now index) places.now }
    ensures text { OnOk result (out.new.items ≡ out.old.items ++ full_name sets.now word.now places.now index) }
    ensures kept { Extends out.old.items out.new.items }
{
    out.extend_from_slice(word.as_bytes())?;
    out.extend_from_slice(b"[")?;
    push_members(out, places, index, sets)?;
    out.extend_from_slice(b"]")
}

// Appends the members with commas between them; where memory runs out, a prefix of that may stand.
fn push_members(
    out: &mut Vec<u8>,
    places: &[u8],
    index: Index,
    sets: &Sets,
) -> Result<(), AllocError>
    requires { AllByRecursion (IsWithin sets.now index) places.now }
    ensures text { OnOk result (out.new.items
        ≡ out.old.items ++ join_with_byte 44 (map (member sets.now index) places.now)) }
    ensures kept { Extends out.old.items out.new.items }
{
    for (i, place) in places.iter().enumerate() {
        push_member(out, i > 0, name_at(index, *place, sets))?;
    }
    Ok(())
}

// Appends a comma where one is due, and a name; where memory runs out, a prefix of that may stand.
fn push_member(out: &mut Vec<u8>, comma_due: bool, name: &[u8]) -> Result<(), AllocError>
    ensures text { OnOk result (out.new.items
        ≡ out.old.items ++ ((if comma_due then codes "," else []) ++ name.now)) }
    ensures kept { Extends out.old.items out.new.items }
{
    if comma_due {
        out.extend_from_slice(b",")?;
    }
    out.extend_from_slice(name)
}

// The name of the member that the subscript at a place stands for.
fn name_at<'a>(index: Index, place: u8, sets: &'a Sets) -> &'a [u8]
    requires { IsWithin sets.now index place }
    ensures { result.now ≡ member sets.now index place }
{
    sets.name_of(set_of(place), position_at(index, place))
}

// The number of the set over which the subscript at a place runs.
fn set_of(place: u8) -> u8
    ensures set { result ≡ set_of place }
    ensures listed { IsSet result }
{
    match SUBSCRIPT_SETS.get(usize::from(place)) {
        Some(set) => *set,
        None => YEAR,
    }
}

// The subscript at a place.
fn position_at(index: Index, place: u8) -> u16
    ensures { result ≡ position_at index place }
{
    let positions = [
        index.region,
        index.other,
        index.slice,
        index.tech,
        index.fuel,
        index.emission,
        index.mode,
        index.year,
    ];
    match positions.get(usize::from(place)) {
        Some(position) => *position,
        None => 0,
    }
}
