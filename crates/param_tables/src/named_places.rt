//! The places of the indices that a change names.

ghost use Rattle.std.specs.Prelude.{◌≡◌, ◌+◌, ◌*◌, ◌^◌, ◌<◌, ◌≤◌, ◌++◌, ◌∷◌, [], All, length, filter, map, IfOk, OnOk, slice_index_or};
ghost use Rattle.std.specs.Bool.{OnTrue};
ghost use Rattle.std.specs.List.{flat_map, range_with_len};
ghost use Rattle.model_sets.specs.Members.{AreSets, members};
ghost use Rattle.model_sets.specs.Names.{IsSet, year};
ghost use Rattle.model_sets.specs.Years.{number_of};
ghost use Rattle.param_tables.specs.ChangeTold.{CanAllBeNamed, CanBeNamed, named_by, named_over};
ghost use Rattle.param_tables.specs.Changes.{Years, is_named};
ghost use Rattle.param_tables.specs.OpenTables.{places_named};

use crate::change::Members;
use crate::indices::next_place;
use model_sets::Sets;
use model_sets::set_numbers::YEAR;
use std::alloc::{AllocError, Global};

/// The positions of all members of the set.
fn all_positions(alloc: Global, sets: &Sets, set: u8) -> Result<Vec<u16>, AllocError>
    requires { IsSet set }
    ensures { IfOk result (λ positions. positions.items ≡ range_with_len 0 (length (members sets.now set))) }
{
    let mut positions = Vec::new(alloc);
    for i in 0..sets.count(set) {
        positions.push(i)?;
    }
    Ok(positions)
}

/// The positions of the years from `first` to `last`.
fn year_positions(alloc: Global, sets: &Sets, first: u16, last: u16) -> Result<Vec<u16>, AllocError>
    ensures { IfOk result (λ positions. positions.items ≡ filter (λ i. is_named (Years first last) (slice_index_or (members sets.now year) i [])) (range_with_len 0 (length (members sets.now year)))) }
{
    let mut positions = Vec::new(alloc);
    for i in 0..sets.count(YEAR) {
        let number = sets.year(i);
        if first <= number && number <= last {
            positions.push(i)?;
        }
    }
    Ok(positions)
}

/// The position alone.
fn one_position(alloc: Global, position: u16) -> Result<Vec<u16>, AllocError>
    ensures { IfOk result (λ positions. positions.items ≡ position ∷ []) }
{
    let mut positions = Vec::new(alloc);
    positions.push(position)?;
    Ok(positions)
}

/// The positions of the members of the set that are named, ascending.
fn named_positions(
    alloc: Global,
    sets: &Sets,
    set: u8,
    named: Members,
) -> Result<Vec<u16>, AllocError>
    requires sets { AreSets sets.now }
    requires listed { IsSet set }
    requires named { CanBeNamed sets.now set named }
    ensures { IfOk result (λ positions. positions.items ≡ filter (λ i. is_named (named_by sets.now set named) (slice_index_or (members sets.now set) i [])) (range_with_len 0 (length (members sets.now set)))) }
{
    match named {
        Members::Every => all_positions(alloc, sets, set),
        Members::One(position) => one_position(alloc, position),
        Members::Years { first, last } => year_positions(alloc, sets, first, last),
    }
}

/// Adds the places of the index at the place with one more subscript, which runs over `count` members,
/// at these positions.
fn add_places(
    places: &mut Vec<u64>,
    place: u64,
    count: u16,
    positions: &[u16],
) -> Result<(), AllocError>
    requires place { place < 10 ^ 15 }
    requires count { count ≤ 1000 }
    requires positions { All (λ position. position < count) positions.now }
    ensures { OnOk result (places.new.items ≡ places.old.items ++ map (λ position. place * count + position) positions.now) }
{
    for position in positions {
        places.push(next_place(place, count, *position))?;
    }
    Ok(())
}

/// The places of the indices at these places with one more subscript, which runs over `count` members,
/// at these positions.
fn places_with(
    alloc: Global,
    places: &[u64],
    count: u16,
    positions: &[u16],
) -> Result<Vec<u64>, AllocError>
    requires places { All (λ place. place < 10 ^ 15) places.now }
    requires count { count ≤ 1000 }
    requires positions { All (λ position. position < count) positions.now }
    ensures { IfOk result (λ longer. longer.items ≡ flat_map (λ place. map (λ position. place * count + position) positions.now) places.now) }
{
    let mut longer = Vec::new(alloc);
    for place in places {
        add_places(&mut longer, *place, count, positions)?;
    }
    Ok(longer)
}

/// Whether there is a subscript of which no member is named: then no index is.
fn names_nothing(
    alloc: Global,
    sets: &Sets,
    subscripts: &[u8],
    named: &[Members],
) -> Result<bool, AllocError>
    requires sets { AreSets sets.now }
    requires listed { All IsSet subscripts.now }
    requires most { length subscripts.now ≤ 5 }
    requires named { CanAllBeNamed sets.now subscripts.now named.now }
    ensures { IfOk result (λ nothing. OnTrue nothing (places_named sets.now subscripts.now (named_over sets.now subscripts.now named.now) ≡ [])) }
{
    for (i, set) in subscripts.iter().enumerate() {
        let positions = named_positions(alloc, sets, *set, named[i])?;
        if positions.as_slice().is_empty() {
            return Ok(true);
        }
    }
    Ok(false)
}

/// The places, ascending, of the indices over the sets of which all members are named. Time and memory are
/// in proportion to them, and to the members of the sets; no other index is looked at.
pub(crate) fn named_places(
    alloc: Global,
    sets: &Sets,
    subscripts: &[u8],
    named: &[Members],
) -> Result<Vec<u64>, AllocError>
    requires sets { AreSets sets.now }
    requires listed { All IsSet subscripts.now }
    requires most { length subscripts.now ≤ 5 }
    requires named { CanAllBeNamed sets.now subscripts.now named.now }
    ensures { IfOk result (λ places. places.items ≡ places_named sets.now subscripts.now (named_over sets.now subscripts.now named.now)) }
{
    let mut places = Vec::new(alloc);
    // Else the indices of the subscripts before such a one would be listed for nothing.
    if names_nothing(alloc, sets, subscripts, named)? {
        return Ok(places);
    }
    places.push(0)?;
    for (i, set) in subscripts.iter().enumerate() {
        let positions = named_positions(alloc, sets, *set, named[i])?;
        places = places_with(
            alloc,
            places.as_slice(),
            sets.count(*set),
            positions.as_slice(),
        )?;
    }
    Ok(places)
}
