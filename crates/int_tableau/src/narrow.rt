//! Lists of entries whose numbers have 64 bits: their absolute values are below 2^63.

ghost use Rattle.std.specs.Prelude.{◌≡◌, ◌<◌, ◌≤◌, ◌^◌, ◌↔◌, ℕ, suc, true, drop, take, neg_ℤ, IfOk, OnOk, IfSome, IsTrue, unsigned_abs};
ghost use Rattle.int_tableau.specs.Entries.{at, IsSparse, taken_number, entries_negated, first_of};
ghost use Rattle.exact_num.specs.Range.{InRange, all_fit};
ghost use Rattle.row_core.specs.Numbers.{numbers_of};
ghost use Rattle.int_tableau.specs.Narrow.{AreNarrow};
ghost use Rattle.int_tableau.specs.Sizes.{AreWithin};

use crate::sizes::{greater, greater_short, last_position};
use std::alloc::{AllocError, Global};

/// Whether the absolute value of a number is below 2^63: then it has 64 bits, and a product with another such number 127.
pub fn is_narrow(n: i128) -> bool
    ensures { IsTrue result ↔ (unsigned_abs n < 2 ^ 63) }
{
    -(1 << 63) < n && n < 1 << 63
}

/// Whether the absolute value of a number of 64 bits is below 2^63.
pub(crate) fn is_short(n: i64) -> bool
    ensures { IsTrue result ↔ (unsigned_abs n < 2 ^ 63) }
{
    n > i64::MIN
}

/// The number of the entry at this position where it stands in this column, and else 0.
pub(crate) fn number_at(entries: &[(usize, i64)], position: usize, column: usize) -> i64
    ensures { result ≡ taken_number column (drop position entries.now) }
{
    if position < entries.len() && entries[position].0 == column {
        entries[position].1
    } else {
        0
    }
}

/// How many entries stand before a column.
pub(crate) fn position_of(entries: &[(usize, i64)], column: usize, columns: usize) -> usize
    requires { IsSparse 0 columns entries.now }
    ensures before { IsSparse 0 column (take result entries.now) }
    ensures rest { IsSparse column columns (drop result entries.now) }
    ensures same { (c : ℕ) → column ≤ c → at entries.now c ≡ at (drop result entries.now) c }
{
    let mut low = 0;
    let mut high = entries.len();
    while low < high {
        let middle = low + (high - low) / 2;
        if entries[middle].0 < column {
            low = middle + 1;
        } else {
            high = middle;
        }
    }
    low
}

/// How many entries stand before a column. It is looked first whether it is so many as `near` says.
pub(crate) fn position_near(
    entries: &[(usize, i64)],
    column: usize,
    columns: usize,
    near: usize,
) -> usize
    requires { IsSparse 0 columns entries.now }
    ensures before { IsSparse 0 column (take result entries.now) }
    ensures rest { IsSparse column columns (drop result entries.now) }
    ensures same { (c : ℕ) → column ≤ c → at entries.now c ≡ at (drop result entries.now) c }
{
    if near == 0 || near >= entries.len() {
        return position_of(entries, column, columns);
    }
    if entries[near - 1].0 < column && column <= entries[near].0 {
        return near;
    }
    position_of(entries, column, columns)
}

/// The number in a column.
pub(crate) fn short_in(entries: &[(usize, i64)], column: usize, columns: usize) -> i64
    requires sparse { IsSparse 0 columns entries.now }
    requires narrow { AreNarrow entries.now }
    ensures value { result ≡ at entries.now column }
    ensures narrow { unsigned_abs (at entries.now column) < 2 ^ 63 }
{
    number_at(entries, position_of(entries, column, columns), column)
}

/// The number in a column, in 128 bits.
pub(crate) fn number_in(entries: &[(usize, i64)], column: usize, columns: usize) -> i128
    requires sparse { IsSparse 0 columns entries.now }
    requires narrow { AreNarrow entries.now }
    ensures value { result ≡ at entries.now column }
    ensures range { InRange (at entries.now column) }
{
    short_in(entries, column, columns) as i128
}

/// The entry at a position, if there is one.
pub(crate) fn entry_at(entries: &[(usize, i64)], at: usize) -> Option<(usize, i128)>
    requires { AreNarrow entries.now }
    ensures { result ≡ first_of (drop at entries.now) }
{
    if at < entries.len() {
        Some((entries[at].0, entries[at].1 as i128))
    } else {
        None
    }
}

/// The number in the last of so many columns.
pub(crate) fn short_last_in(entries: &[(usize, i64)], column: usize) -> i64
    requires sparse { IsSparse 0 (suc column) entries.now }
    requires narrow { AreNarrow entries.now }
    ensures value { result ≡ at entries.now column }
    ensures narrow { unsigned_abs (at entries.now column) < 2 ^ 63 }
{
    number_at(entries, last_position(entries.len()), column)
}

/// The number in the last of so many columns, in 128 bits.
pub(crate) fn last_in(entries: &[(usize, i64)], column: usize) -> i128
    requires sparse { IsSparse 0 (suc column) entries.now }
    requires narrow { AreNarrow entries.now }
    ensures value { result ≡ at entries.now column }
    ensures range { InRange (at entries.now column) }
{
    short_last_in(entries, column) as i128
}

/// The greatest absolute value of the entries, or `least` where that is greater.
pub(crate) fn size(entries: &[(usize, i64)], least: u128) -> u128
    requires { AreNarrow entries.now }
    ensures within { AreWithin result (numbers_of entries.now) }
    ensures least { least ≤ result }
{
    greater(least, short_size(entries) as u128)
}

/// The greatest absolute value of the entries.
fn short_size(entries: &[(usize, i64)]) -> u64
    requires { AreNarrow entries.now }
    ensures { AreWithin result (numbers_of entries.now) }
{
    let mut greatest = 0;
    for entry in entries {
        greatest = greater_short(greatest, entry.1.unsigned_abs());
    }
    greatest
}

/// `-n`.
fn opposite(n: i64) -> i64
    requires { unsigned_abs n < 2 ^ 63 }
    ensures { result ≡ neg_ℤ n }
{
    -n
}

/// Multiplies each entry by -1.
pub(crate) fn negate_all(entries: &mut Vec<(usize, i64)>)
    requires { AreNarrow entries.old.items }
    ensures { entries.new.items ≡ entries_negated entries.old.items }
{
    for entry in entries.iter_mut() {
        entry.1 = opposite(entry.1);
    }
}

/// The same entries in 64 bits, or nothing where one of them doesn't fit.
pub(crate) fn narrowed(
    alloc: Global,
    entries: &[(usize, i128)],
) -> Result<Option<Vec<(usize, i64)>>, AllocError>
    requires { all_fit (numbers_of entries.now) ≡ true }
    ensures { IfOk result (λ o. IfSome o (λ v. (v.items ≡ entries.now) × AreNarrow v.items)) }
{
    let mut out = Vec::with_capacity(alloc, entries.len())?;
    for entry in entries {
        if !is_narrow(entry.1) {
            return Ok(None);
        }
        out.push((entry.0, entry.1 as i64))?;
    }
    Ok(Some(out))
}

/// Writes the same entries in 128 bits over what stood in `out`.
pub(crate) fn widen(
    out: &mut Vec<(usize, i128)>,
    entries: &[(usize, i64)],
) -> Result<(), AllocError>
    requires { AreNarrow entries.now }
    ensures { OnOk result (out.new.items ≡ entries.now) }
{
    out.clear();
    for entry in entries {
        out.push((entry.0, entry.1 as i128))?;
    }
    Ok(())
}
