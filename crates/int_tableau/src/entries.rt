//! Lists of entries in ascending order of columns, and what stands in a column.

ghost use Rattle.std.specs.Prelude.{◌≡◌, ◌≤◌, ℕ, suc, true, take, drop};
ghost use Rattle.exact_num.specs.Range.{InRange, all_fit};
ghost use Rattle.row_core.specs.Numbers.{numbers_of};
ghost use Rattle.int_tableau.specs.Entries.{at, IsSparse, taken_number, first_of};
ghost use Rattle.int_tableau.specs.Sizes.{AreWithin};

use crate::sizes::{greater, last_position, size_of};

/// The number of the entry at this position where it stands in this column, and else 0.
pub(crate) fn number_at(entries: &[(usize, i128)], position: usize, column: usize) -> i128
    ensures { result ≡ taken_number column (drop position entries.now) }
{
    if position < entries.len() && entries[position].0 == column {
        entries[position].1
    } else {
        0
    }
}

/// How many entries stand before a column.
pub(crate) fn position_of(entries: &[(usize, i128)], column: usize, columns: usize) -> usize
    requires { IsSparse 0 columns entries.now }
    ensures before { IsSparse 0 column (take result entries.now) }
    ensures rest { IsSparse column columns (drop result entries.now) }
    ensures same { (c : ℕ) → column ≤ c → at entries.now c ≡ at (drop result entries.now) c }
{
    let mut low = 0;
    let mut high = entries.len();
    while low < high {
        let middle = low + (high - low) / 2;
        if entries[middle].0 < column {
            low = middle + 1;
        } else {
            high = middle;
        }
    }
    low
}

/// The number in a column.
pub(crate) fn number_in(entries: &[(usize, i128)], column: usize, columns: usize) -> i128
    requires { IsSparse 0 columns entries.now }
    ensures value { result ≡ at entries.now column }
    ensures range { InRange (at entries.now column) }
{
    number_at(entries, position_of(entries, column, columns), column)
}

/// The entry at a position, if there is one.
pub(crate) fn entry_at(entries: &[(usize, i128)], at: usize) -> Option<(usize, i128)>
    ensures { result ≡ first_of (drop at entries.now) }
{
    if at < entries.len() {
        Some(entries[at])
    } else {
        None
    }
}

/// The number in the last of so many columns.
pub(crate) fn last_in(entries: &[(usize, i128)], column: usize) -> i128
    requires { IsSparse 0 (suc column) entries.now }
    ensures value { result ≡ at entries.now column }
    ensures range { InRange (at entries.now column) }
{
    number_at(entries, last_position(entries.len()), column)
}

/// The greatest absolute value of the entries, or `least` where that is greater.
pub(crate) fn size(entries: &[(usize, i128)], least: u128) -> u128
    requires { all_fit (numbers_of entries.now) ≡ true }
    ensures within { AreWithin result (numbers_of entries.now) }
    ensures least { least ≤ result }
{
    let mut greatest = least;
    for entry in entries {
        greatest = greater(greatest, size_of(entry.1));
    }
    greatest
}
