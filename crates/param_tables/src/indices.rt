//! The indices over some sets, by their places in the order of the members, the last subscript running
//! fastest. A place counts from 0.

ghost use Rattle.std.specs.Prelude.{◌≡◌, ◌+◌, ◌*◌, ◌^◌, ◌<◌, ◌≤◌, length, IfOk, IfSome, is_some, slice_index_or, All};
ghost use Rattle.mathprog_data.specs.Meaning.{GivenValue};
ghost use Rattle.model_sets.specs.Data.{indices_over};
ghost use Rattle.model_sets.specs.Names.{IsSet};
ghost use Rattle.param_tables.specs.Places.{IsPlaceOf, are_members};
ghost use Rattle.param_tables.specs.Positions.{ArePositions, names_over};

use mathprog_data::Values;
use model_sets::Sets;
use std::alloc::{AllocError, Global};

/// The place of an index with one more subscript, which runs over `count` members.
pub(crate) fn next_place(place: u64, count: u16, member: u16) -> u64
    requires place { place < 10 ^ 15 }
    requires count { count ≤ 1000 }
    requires member { member < count }
    ensures { result ≡ place * count + member }
{
    place * u64::from(count) + u64::from(member)
}

/// How many indices there are over the sets.
pub(crate) fn index_count(sets: &Sets, subscripts: &[u8]) -> u64
    requires listed { All IsSet subscripts.now }
    requires most { length subscripts.now ≤ 5 }
    ensures count { result ≡ length (indices_over sets.now subscripts.now) }
    ensures most { result ≤ 10 ^ 15 }
{
    let mut count: u64 = 1;
    for set in subscripts {
        count *= u64::from(sets.count(*set));
    }
    count
}

/// The place of the index of this value; `None` where one of its names isn't a member of its set.
pub(crate) fn place_of_value(
    sets: &Sets,
    subscripts: &[u8],
    values: &Values,
    number: usize,
) -> Option<u64>
    requires listed { All IsSet subscripts.now }
    requires most { length subscripts.now ≤ 5 }
    requires number { number < length values.now }
    requires paired { (v : GivenValue) → v ≡ slice_index_or values.now number v → length v.index ≡ length subscripts.now }
    ensures place { (v : GivenValue) → v ≡ slice_index_or values.now number v → IfSome result (IsPlaceOf sets.now subscripts.now v.index) }
    ensures found { (v : GivenValue) → v ≡ slice_index_or values.now number v → is_some result ≡ are_members sets.now subscripts.now v.index }
{
    let mut place = 0;
    for (i, set) in subscripts.iter().enumerate() {
        let member = sets.index_of(*set, values.name(number, i).bytes())?;
        place = next_place(place, sets.count(*set), member);
    }
    Some(place)
}

/// The place of the index of these members.
pub(crate) fn place_of(sets: &Sets, subscripts: &[u8], index: &[u16]) -> u64
    requires listed { All IsSet subscripts.now }
    requires most { length subscripts.now ≤ 5 }
    requires within { ArePositions sets.now subscripts.now index.now }
    ensures { IsPlaceOf sets.now subscripts.now (names_over sets.now subscripts.now index.now) result }
{
    let mut place = 0;
    for (i, set) in subscripts.iter().enumerate() {
        place = next_place(place, sets.count(*set), index[i]);
    }
    place
}

/// The index at the place.
pub(crate) fn index_at(
    alloc: Global,
    sets: &Sets,
    subscripts: &[u8],
    place: u64,
) -> Result<Vec<u16>, AllocError>
    requires listed { All IsSet subscripts.now }
    requires below { place < length (indices_over sets.now subscripts.now) }
    ensures within { IfOk result (λ index. ArePositions sets.now subscripts.now index.items) }
    ensures place { IfOk result (λ index. IsPlaceOf sets.now subscripts.now (names_over sets.now subscripts.now index.items) place) }
{
    let Some((last, others)) = subscripts.split_last() else {
        return Ok(Vec::new(alloc));
    };
    let count = u64::from(sets.count(*last));
    let mut index = index_at(alloc, sets, others, place / count)?;
    index.push((place % count) as u16)?;
    Ok(index)
}
