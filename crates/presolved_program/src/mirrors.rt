//! Lines that are each other's negative with the negative right side.

use crate::access::item;
use crate::equalities::divisor_of;
use crate::lines::Line;
use crate::stop::Stop;
use exact_num::{cmp_frac, mul};
use std::alloc::Global;

/// Among lines of one mark, so many before are looked at.
const WINDOW: usize = 8;

/// Pairs of lines that are each other's mirror, in the order of the second one. A mark that both sides of a pair share is sorted
/// by, so that only lines of one mark are compared.
pub(crate) fn mirrors_of(
    alloc: Global,
    lines: &[Line],
    left: &[usize],
) -> Result<Vec<(usize, usize)>, Stop> {
    let marks = marks_of(alloc, lines, left)?;
    let mut pairs = Vec::new(alloc);
    for (place, (mark, second)) in marks.iter().enumerate() {
        let start = place.saturating_sub(WINDOW);
        if let Some(before) = marks.get(start..place)
            && let Some(first) = mirror_among(lines, before, *mark, *second)?
        {
            pairs.push((*second, first))?;
        }
    }
    pairs.sort()?;
    let mut turned = Vec::with_capacity(alloc, pairs.len())?;
    for (second, first) in &pairs {
        turned.push((*first, *second))?;
    }
    Ok(turned)
}

/// Each line with its mark, ascending.
fn marks_of(alloc: Global, lines: &[Line], left: &[usize]) -> Result<Vec<(u64, usize)>, Stop> {
    let mut marks = Vec::with_capacity(alloc, left.len())?;
    for place in left {
        marks.push((mark_of(item(lines, *place)?), *place))?;
    }
    marks.sort()?;
    Ok(marks)
}

/// The last line of those before that has this mark and is the mirror.
fn mirror_among(
    lines: &[Line],
    before: &[(u64, usize)],
    mark: u64,
    second: usize,
) -> Result<Option<usize>, Stop> {
    for (other, first) in before.iter().rev() {
        if *other == mark && are_mirrors(item(lines, *first)?, item(lines, second)?)? {
            return Ok(Some(*first));
        }
    }
    Ok(None)
}

/// A mark that a line shares with its mirror.
fn mark_of(line: &Line) -> u64 {
    let divisor = divisor_of(line);
    let mut mark: u64 = 1469598103934665603;
    for entry in &line.entries {
        let size = if divisor > 0 {
            (entry.number / divisor).saturating_abs()
        } else {
            entry.number
        };
        mark = mixed(mark, entry.at as u64);
        mark = mixed(mark, low_bits(size));
    }
    mark
}

/// The low 64 bits of a number that isn't below 0.
fn low_bits(size: i128) -> u64 {
    (size.unsigned_abs() & 0xffff_ffff_ffff_ffff) as u64
}

/// A mark with one more number.
fn mixed(mark: u64, number: u64) -> u64 {
    (mark ^ number).wrapping_mul(1099511628211)
}

/// Whether one line is the other with all numbers negated, but for a positive factor.
fn are_mirrors(a: &Line, b: &Line) -> Result<bool, Stop> {
    if a.entries.len() != b.entries.len() {
        return Ok(false);
    }
    let (Some(first), Some(other)) = (a.entries.first(), b.entries.first()) else {
        return Ok(false);
    };
    let (first, other) = (first.value(), other.value());
    if (first.num < 0) == (other.num < 0) {
        return Ok(false);
    }
    for (x, y) in a.entries.iter().zip(b.entries.iter()) {
        if x.at != y.at || cmp_frac(mul(x.value(), other)?, mul(y.value(), first)?).is_ne() {
            return Ok(false);
        }
    }
    Ok(cmp_frac(mul(a.right, other)?, mul(b.right, first)?).is_eq())
}
