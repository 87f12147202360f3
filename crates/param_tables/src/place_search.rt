//! What ascending places hold, found by binary search.

ghost use Rattle.std.specs.Prelude.{ℕ, ◌+◌, ◌*◌, ◌^◌, ◌<◌, ◌≤◌, length, slice_index, IfOk};
ghost use Rattle.std.specs.List.Sorted.{IsStrictlyIncreasing};
ghost use Rattle.param_tables.specs.RatioPlaces.{AreBlocks, IsPartBetween};

use std::alloc::{AllocError, Global};

/// How many of the places lie before `start`.
fn count_before(places: &[u64], start: u64) -> usize
    requires { IsStrictlyIncreasing places.now }
    ensures within { result ≤ length places.now }
    ensures before { (k : ℕ) → k < result → slice_index places.now k < start }
    ensures after { (k : ℕ) → result ≤ k → k < length places.now → start ≤ slice_index places.now k }
{
    match places.binary_search(&start) {
        Ok(i) => i,
        Err(i) => i,
    }
}

/// How many of the places lie before `end`, as the first ones do. Looked for from these on, since most parts are short.
fn count_from(places: &[u64], first: usize, end: u64) -> usize
    requires rising { IsStrictlyIncreasing places.now }
    requires within { first ≤ length places.now }
    requires before { (k : ℕ) → k < first → slice_index places.now k < end }
    ensures within { result ≤ length places.now }
    ensures before { (k : ℕ) → k < result → slice_index places.now k < end }
    ensures after { (k : ℕ) → result ≤ k → k < length places.now → end ≤ slice_index places.now k }
{
    let mut count = first;
    while count < places.len() {
        if places[count] >= end {
            return count;
        }
        count += 1;
    }
    count
}

/// The places from `start` on that lie before `end`.
pub(crate) fn part_between(places: &[u64], start: u64, end: u64) -> &[u64]
    requires rising { IsStrictlyIncreasing places.now }
    requires order { start ≤ end }
    ensures { IsPartBetween places.now start end result.now }
{
    let first = count_before(places, start);
    let last = count_from(places, first, end);
    &places[first..last]
}

/// The numbers, below `count` and ascending, of the blocks that hold one of the places. A block has `width`
/// places, and the first begins at `start`.
pub(crate) fn blocks_with_place(
    alloc: Global,
    places: &[u64],
    start: u64,
    width: u64,
    count: u16,
) -> Result<Vec<u16>, AllocError>
    requires rising { IsStrictlyIncreasing places.now }
    requires end { start + count * width < 2 ^ 64 }
    ensures { IfOk result (λ blocks. AreBlocks places.now start width count blocks.items) }
{
    if width == 0 {
        return Ok(Vec::new(alloc));
    }
    let part = part_between(places, start, start + u64::from(count) * width);
    let mut blocks = Vec::with_capacity(alloc, part.len())?;
    for place in part {
        blocks.push(((*place - start) / width) as u16)?;
    }
    blocks.dedup();
    Ok(blocks)
}
