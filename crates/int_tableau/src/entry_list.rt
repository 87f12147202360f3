//! The entries of a line, in 64 bits while all of their numbers fit, and else in 128.

ghost use Rattle.std.specs.Prelude.{◌≡◌, ◌<◌, ◌≤◌, ◌^◌, ◌≤ℤ◌, ◌∷◌, Bool, List, ℕ, suc, pos, [], drop, take, true, IfOk, OnOk, OnErr, IfSome, unsigned_abs};
ghost use Rattle.exact_num.specs.Range.{InRange, all_fit};
ghost use Rattle.row_core.specs.Numbers.{numbers_of};
ghost use Rattle.written_method.specs.Lines.{less, less_formed};
ghost use Rattle.int_tableau.specs.Entries.{at, IsSparse, entries_negated, first_of};
ghost use Rattle.row_core.specs.Written.{row_divisor};
ghost use Rattle.int_tableau.specs.Marks.{AreMarked};
ghost use Rattle.int_tableau.specs.Narrow.{AreNarrow};
ghost use Rattle.int_tableau.specs.Sizes.{AreWithin};

use crate::marks::{MARKS, mark};
use crate::narrow_division::are_lowest;
use crate::narrow_merging::{combine, is_sure};
use crate::refused::Refused;
use crate::{entries, narrow, numbers};
use std::alloc::{AllocError, Global};
use std::marker::Model;

/// How wide the numbers are kept.
#[derive(Drop)]
pub(crate) enum Kept {
    Narrow(Vec<(usize, i64)>),
    Wide(Vec<(usize, i128)>),
}

/// Entries in ascending order of columns. What they are doesn't depend on how wide their numbers are kept.
#[derive(Drop)]
pub(crate) struct EntryList {
    kept: Kept,
}

impl Model for EntryList {
    ghost use Rattle.std.specs.Prelude.{List, ℕ, ℤ};
    ghost use Rattle.int_tableau.specs.KeptEntries.{entries_kept, AreKept};

    ghost Value = { List (ℕ × ℤ) };

    ghost view = { λ e. entries_kept e.kept };

    ghost invariant = { λ e. AreKept e.kept };
}

impl EntryList {
    /// No entries.
    pub(crate) fn none(alloc: Global) -> EntryList
        ensures { result ≡ [] }
    {
        EntryList {
            kept: Kept::Narrow(Vec::new(alloc)),
        }
    }

    /// These entries.
    pub(crate) fn of(alloc: Global, entries: &[(usize, i128)]) -> Result<EntryList, AllocError>
        requires { all_fit (numbers_of entries.now) ≡ true }
        ensures { IfOk result (λ e. e ≡ entries.now) }
    {
        let kept = match narrow::narrowed(alloc, entries)? {
            Some(narrow) => Kept::Narrow(narrow),
            None => Kept::Wide(Vec::from_slice(alloc, entries)?),
        };
        Ok(EntryList { kept })
    }

    /// How many entries stand before a column. Where it is so many as `near` says, that is seen at once.
    pub(crate) fn position_near(&self, column: usize, columns: usize, near: usize) -> usize
        requires { IsSparse 0 columns self.now }
        ensures before { IsSparse 0 column (take result self.now) }
        ensures rest { IsSparse column columns (drop result self.now) }
        ensures same { (c : ℕ) → column ≤ c → at self.now c ≡ at (drop result self.now) c }
    {
        match &self.kept {
            Kept::Narrow(list) => narrow::position_near(list, column, columns, near),
            Kept::Wide(list) => entries::position_of(list, column, columns),
        }
    }

    /// How many entries stand before a column.
    pub(crate) fn position_of(&self, column: usize, columns: usize) -> usize
        requires { IsSparse 0 columns self.now }
        ensures before { IsSparse 0 column (take result self.now) }
        ensures rest { IsSparse column columns (drop result self.now) }
        ensures same { (c : ℕ) → column ≤ c → at self.now c ≡ at (drop result self.now) c }
    {
        match &self.kept {
            Kept::Narrow(list) => narrow::position_of(list, column, columns),
            Kept::Wide(list) => entries::position_of(list, column, columns),
        }
    }

    /// The number in a column.
    pub(crate) fn number_in(&self, column: usize, columns: usize) -> i128
        requires { IsSparse 0 columns self.now }
        ensures value { result ≡ at self.now column }
        ensures range { InRange (at self.now column) }
    {
        match &self.kept {
            Kept::Narrow(list) => narrow::number_in(list, column, columns),
            Kept::Wide(list) => entries::number_in(list, column, columns),
        }
    }

    /// The entry at a position, if there is one.
    pub(crate) fn entry_at(&self, at: usize) -> Option<(usize, i128)>
        ensures { result ≡ first_of (drop at self.now) }
    {
        match &self.kept {
            Kept::Narrow(list) => narrow::entry_at(list, at),
            Kept::Wide(list) => entries::entry_at(list, at),
        }
    }

    /// The greatest absolute value of the entries, or `least` where that is greater.
    pub(crate) fn size(&self, least: u128) -> u128
        requires { all_fit (numbers_of self.now) ≡ true }
        ensures within { AreWithin result (numbers_of self.now) }
        ensures least { least ≤ result }
    {
        match &self.kept {
            Kept::Narrow(list) => narrow::size(list, least),
            Kept::Wide(list) => entries::size(list, least),
        }
    }

    /// Marks their columns, and no others.
    pub(crate) fn mark(&self, marks: &mut [bool; MARKS])
        ensures { AreMarked marks.new self.now }
    {
        match &self.kept {
            Kept::Narrow(list) => mark(marks, list),
            Kept::Wide(list) => mark(marks, list),
        }
    }

    /// The number in the last of so many columns.
    pub(crate) fn last_in(&self, column: usize) -> i128
        requires { IsSparse 0 (suc column) self.now }
        ensures value { result ≡ at self.now column }
        ensures range { InRange (at self.now column) }
    {
        match &self.kept {
            Kept::Narrow(list) => narrow::last_in(list, column),
            Kept::Wide(list) => entries::last_in(list, column),
        }
    }

    /// The number in the last of so many columns, where it is kept in 64 bits.
    pub(crate) fn short_last_in(&self, last: usize) -> Option<i64>
        requires { IsSparse 0 (suc last) self.now }
        ensures value { IfSome result (λ s. s ≡ at self.now last) }
        ensures narrow { IfSome result (λ s. unsigned_abs s < 2 ^ 63) }
    {
        match &self.kept {
            Kept::Narrow(list) => Some(narrow::short_last_in(list, last)),
            Kept::Wide(_) => None,
        }
    }

    /// The number in a column, where it is kept in 64 bits.
    pub(crate) fn short_in(&self, column: usize, columns: usize) -> Option<i64>
        requires { IsSparse 0 columns self.now }
        ensures value { IfSome result (λ s. s ≡ at self.now column) }
        ensures narrow { IfSome result (λ s. unsigned_abs s < 2 ^ 63) }
    {
        match &self.kept {
            Kept::Narrow(list) => Some(narrow::short_in(list, column, columns)),
            Kept::Wide(_) => None,
        }
    }

    /// Whether it is sure that a number and the entries have no common divisor.
    pub(crate) fn are_lowest(&self, first: i128) -> bool
        requires fits { InRange first }
        requires nonnegative { pos 0 ≤ℤ first }
        ensures { result ≡ true → row_divisor (first ∷ numbers_of self.now) ≡ 1 }
    {
        match &self.kept {
            Kept::Narrow(list) => are_lowest(first, list),
            Kept::Wide(_) => false,
        }
    }

    /// Multiplies each entry by -1.
    pub(crate) fn negate(&mut self)
        requires { all_fit (numbers_of self.old) ≡ true }
        ensures { self.new ≡ entries_negated self.old }
    {
        match &mut self.kept {
            Kept::Narrow(list) => narrow::negate_all(list),
            Kept::Wide(list) => numbers::negate_all(list),
        }
    }

    /// Keeps so many entries.
    pub(crate) fn truncate(&mut self, count: usize)
        ensures { self.new ≡ take count self.old }
    {
        match &mut self.kept {
            Kept::Narrow(list) => list.truncate(count),
            Kept::Wide(list) => list.truncate(count),
        }
    }

    /// Writes the entries in 128 bits over what stood in `out`.
    pub(crate) fn write_to(&self, out: &mut Vec<(usize, i128)>) -> Result<(), AllocError>
        ensures { OnOk result (out.new.items ≡ self.now) }
    {
        match &self.kept {
            Kept::Narrow(list) => narrow::widen(out, list),
            Kept::Wide(list) => {
                out.clear();
                out.extend_from_slice(list)
            }
        }
    }

    /// Takes these entries in place of its own.
    pub(crate) fn replace(
        &mut self,
        alloc: Global,
        entries: &[(usize, i64)],
    ) -> Result<(), AllocError>
        requires { AreNarrow entries.now }
        ensures value { OnOk result (self.new ≡ entries.now) }
        ensures memory { OnErr result ((n : ℕ) → IsSparse 0 n self.old → IsSparse 0 n self.new) }
        ensures within { OnErr result ((n : ℕ) → AreWithin n (numbers_of self.old) → AreWithin n (numbers_of self.new)) }
        ensures marked { OnErr result ((marks : List Bool) → AreMarked marks self.old → AreMarked marks self.new) }
    {
        match &mut self.kept {
            Kept::Narrow(list) => {
                list.clear();
                list.extend_from_slice(entries)?;
            }
            Kept::Wide(_) => self.kept = Kept::Narrow(Vec::from_slice(alloc, entries)?),
        }
        Ok(())
    }

    /// Writes `a` times these entries less `b` times others over what stood in `out`. `TooWide` where it isn't sure that all of it can
    /// be done in 64 bits: neither these numbers nor the others are above their sizes.
    pub(crate) fn combine(
        &self,
        out: &mut Vec<(usize, i64)>,
        a: i128,
        b: i128,
        size: u128,
        other: &EntryList,
        other_size: u128,
        columns: usize,
    ) -> Result<(), Refused>
        requires line { IsSparse 0 columns self.now }
        requires other { IsSparse 0 columns other.now }
        requires a { InRange a }
        requires b { InRange b }
        requires sized { AreWithin size (numbers_of self.now) }
        requires other_sized { AreWithin other_size (numbers_of other.now) }
        ensures sparse { OnOk result (IsSparse 0 columns out.new.items) }
        ensures narrow { OnOk result (AreNarrow out.new.items) }
        ensures value { OnOk result ((c : ℕ) → at out.new.items c ≡ less a b (at self.now c) (at other.now c)) }
        ensures fits { OnOk result ((c : ℕ) → all_fit (less_formed a b (at self.now c) (at other.now c)) ≡ true) }
    {
        match (&self.kept, &other.kept) {
            (Kept::Narrow(line), Kept::Narrow(other)) if is_sure(a, b, size, other_size) => {
                combine(out, a as i64, b as i64, line, other, columns)
            }
            _ => Err(Refused::TooWide),
        }
    }
}
