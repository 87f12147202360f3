//! The values of a parameter.

ghost use Rattle.std.specs.Prelude.{◌≡◌, ◌<◌, ◌+◌, ◌++◌, ◌∷◌, [], ◌==◌, IfOk, OnOk, true, length, slice_index_or};
ghost use Rattle.mathprog_data.specs.Meaning.{GivenValue, value_of};
ghost use Rattle.mathprog_data.specs.Slices.{index_at};
ghost use Rattle.mathprog_data.specs.Tables.{given, cell_index};
ghost use Rattle.mathprog_data.specs.ValuesView.{AreWithin, Grown, PointTo, name_at, names_at, places_in};

use crate::blocks::{Mark, Name};
use crate::name_places::{KeptValue, NamePlaces};
use std::alloc::{AllocError, Global};
use std::marker::Model;

/// Values that were given to a parameter, in the order of the text. A name of at most 16 bytes that comes again where it came in
/// the value before, or that is a table's column, is kept once.
#[derive(Drop)]
pub struct Values {
    /// The names to which the values point.
    names: Vec<Name>,
    kept: Vec<KeptValue>,
    /// The index of the value before.
    last: NamePlaces,
}

impl Model for Values {
    ghost use Rattle.std.specs.Prelude.{List, length};
    ghost use Rattle.mathprog_data.specs.Meaning.{GivenValue};
    ghost use Rattle.mathprog_data.specs.ValuesView.{AreKept, all_told};

    ghost Value = { List GivenValue };

    ghost view = { λ v. all_told v.names.items v.kept.items };

    ghost invariant = { λ v. AreKept (length v.names.items) v.kept.items };
}

/// A place at which the name stands: this one, where it stands there, or else a new one.
#[inline(always)]
fn place_of(alloc: Global, names: &mut Vec<Name>, name: &Name, hint: u32) -> Result<u32, AllocError>
    ensures grown { Grown names.old.items names.new.items }
    ensures there { IfOk result (λ place. place < length names.new.items) }
    ensures named { IfOk result (λ place. name_at names.new.items place ≡ name.now) }
{
    if stands_at(names.as_slice(), hint, name) {
        Ok(hint)
    } else {
        keep(alloc, names, name)
    }
}

/// Whether the name surely stands at the place.
#[inline(always)]
fn stands_at(names: &[Name], place: u32, name: &Name) -> bool
    ensures there { result ≡ true → place < length names.now }
    ensures named { result ≡ true → name_at names.now place ≡ name.now }
{
    match names.get(place as usize) {
        Some(found) => found.is_surely(name),
        None => false,
    }
}

/// Adds a copy of the name.
#[cold]
#[inline(never)]
fn keep(alloc: Global, names: &mut Vec<Name>, name: &Name) -> Result<u32, AllocError>
    ensures grown { Grown names.old.items names.new.items }
    ensures there { IfOk result (λ place. place < length names.new.items) }
    ensures named { IfOk result (λ place. name_at names.new.items place ≡ name.now) }
{
    let place = names.len();
    if place >= 4_294_967_295 {
        return Err(AllocError);
    }
    let copy = name.copy(alloc)?;
    names.push(copy)?;
    Ok(place as u32)
}

/// Adds a name to an index. It may stand at the place `hint`.
#[inline(always)]
fn point_to(
    alloc: Global,
    names: &mut Vec<Name>,
    index: &mut NamePlaces,
    name: &Name,
    hint: u32,
) -> Result<(), AllocError>
    requires { AreWithin (length names.old.items) (places_in index.old) }
    ensures grown { Grown names.old.items names.new.items }
    ensures within { OnOk result (AreWithin (length names.new.items) (places_in index.new)) }
    ensures named { OnOk result (names_at names.new.items (places_in index.new) ≡ names_at names.old.items (places_in index.old) ++ name.now ∷ []) }
{
    let place = place_of(alloc, names, name, hint)?;
    index.push(place)?;
    Ok(())
}

/// The places of the full index: the fixed names in their places, and the others in the free places.
fn places_between(
    alloc: Global,
    names: &mut Vec<Name>,
    last: NamePlaces,
    slice: &[Option<Name>],
    others: &[Name],
) -> Result<NamePlaces, AllocError>
    ensures grown { Grown names.old.items names.new.items }
    ensures index { IfOk result (λ places. PointTo names.new.items (places_in places) (index_at slice.now others.now)) }
{
    let mut index = NamePlaces::new();
    let mut taken = 0;
    for place in slice {
        let name = match place {
            Some(fixed) => fixed,
            None => {
                if taken >= others.len() {
                    return Ok(index);
                }
                taken += 1;
                &others[taken - 1]
            }
        };
        let hint = last.remembered(index);
        point_to(alloc, names, &mut index, name, hint)?;
    }
    Ok(index)
}

/// The places of the full index, with these two names in the free places. They may stand at these places.
#[inline(always)]
fn places_of_two(
    alloc: Global,
    names: &mut Vec<Name>,
    last: NamePlaces,
    slice: &[Option<Name>],
    first: &Name,
    first_hint: Option<u32>,
    second: &Name,
    second_hint: Option<u32>,
) -> Result<NamePlaces, AllocError>
    ensures grown { Grown names.old.items names.new.items }
    ensures index { IfOk result (λ places. PointTo names.new.items (places_in places) (index_at slice.now (first.now ∷ second.now ∷ []))) }
{
    let mut index = NamePlaces::new();
    let mut taken = 0u8;
    for place in slice {
        let mut hint = last.remembered(index);
        let name = match place {
            Some(fixed) => fixed,
            None => {
                taken += 1;
                match taken {
                    1 => {
                        hint = first_hint.unwrap_or(hint);
                        first
                    }
                    2 => {
                        hint = second_hint.unwrap_or(hint);
                        second
                    }
                    _ => return Ok(index),
                }
            }
        };
        point_to(alloc, names, &mut index, name, hint)?;
    }
    Ok(index)
}

impl Values {
    /// No values.
    pub(crate) fn new(alloc: Global) -> Values
        ensures { result ≡ [] }
    {
        Values {
            names: Vec::new(alloc),
            kept: Vec::new(alloc),
            last: NamePlaces::new(),
        }
    }

    /// Keeps these names, which come again in the indices, one after the other. Answers the place of the first.
    pub(crate) fn keep_names(&mut self, alloc: Global, names: &[Name]) -> Result<u32, AllocError>
        ensures { self.new ≡ self.old }
    {
        let mut first = 0;
        for (i, name) in names.iter().enumerate() {
            let place = keep(alloc, &mut self.names, name)?;
            if i == 0 {
                first = place;
            }
        }
        Ok(first)
    }

    /// Adds a value, whose index has these names in the free places.
    #[inline(always)]
    pub(crate) fn push_plain(
        &mut self,
        alloc: Global,
        slice: &[Option<Name>],
        names: &[Name],
        number: (i128, bool),
        at: Mark,
    ) -> Result<(), AllocError>
        ensures { OnOk result (self.new ≡ self.old ++ value_of (given (index_at slice.now names.now) number at) ∷ []) }
    {
        let index = places_between(alloc, &mut self.names, self.last, slice, names)?;
        self.last = index;
        self.kept.push(KeptValue {
            index,
            at,
            value: number.0,
        })?;
        Ok(())
    }

    /// Adds the value of a cell. The name of its column may stand at the place `hint`.
    #[inline(always)]
    pub(crate) fn push_cell(
        &mut self,
        alloc: Global,
        slice: &[Option<Name>],
        transposed: bool,
        row: &Name,
        column: &Name,
        hint: u32,
        number: (i128, bool),
        at: Mark,
    ) -> Result<(), AllocError>
        ensures { OnOk result (self.new ≡ self.old ++ value_of (given (cell_index slice.now transposed row.now column.now) number at) ∷ []) }
    {
        let (first, first_hint, second, second_hint) = if transposed {
            (column, Some(hint), row, None)
        } else {
            (row, None, column, Some(hint))
        };
        let index = places_of_two(
            alloc,
            &mut self.names,
            self.last,
            slice,
            first,
            first_hint,
            second,
            second_hint,
        )?;
        self.last = index;
        self.kept.push(KeptValue {
            index,
            at,
            value: number.0,
        })?;
        Ok(())
    }

    /// How many values there are.
    pub fn len(&self) -> usize
        ensures { result ≡ length self.now }
    {
        self.kept.len()
    }

    /// Whether there is no value.
    pub fn is_empty(&self) -> bool
        ensures { result ≡ (length self.now == 0) }
    {
        self.kept.is_empty()
    }

    /// The value in billionths, by its number from 0.
    pub fn value(&self, number: usize) -> i128
        requires { number < length self.now }
        ensures { (v : GivenValue) → v ≡ slice_index_or self.now number v → result ≡ v.value }
    {
        self.kept[number].value
    }

    /// In a table the place of the row's symbol. Else the place of the first subscript that no slice fixes,
    /// or that of the value where every subscript is fixed.
    pub fn at(&self, number: usize) -> Mark
        requires { number < length self.now }
        ensures { (v : GivenValue) → v ≡ slice_index_or self.now number v → result ≡ v.at }
    {
        self.kept[number].at
    }

    /// How many subscripts the value has.
    pub fn subscripts(&self, number: usize) -> usize
        requires { number < length self.now }
        ensures { (v : GivenValue) → v ≡ slice_index_or self.now number v → result ≡ length v.index }
    {
        self.kept[number].index.count()
    }

    /// The name of the member of this subscript of the value, both counted from 0.
    pub fn name(&self, number: usize, subscript: usize) -> &Name
        requires number { number < length self.now }
        requires subscript { (v : GivenValue) → v ≡ slice_index_or self.now number v → subscript < length v.index }
        ensures { (v : GivenValue) → v ≡ slice_index_or self.now number v → result.now ≡ slice_index_or v.index subscript result.now }
    {
        let place = self.kept[number].index.get(subscript);
        &self.names[place as usize]
    }
}
