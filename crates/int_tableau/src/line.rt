//! A row of the tableau with only its entries other than 0.

ghost use Rattle.std.specs.Prelude.{◌≡◌, ◌≢◌, ◌<◌, ◌≤◌, ◌-◌, ◌^◌, [], ℕ, false, true, pos, length, unsigned_abs, IfErr, IfOk, OnOk, IfSome, IfNone};
ghost use Rattle.exact_num.specs.Range.{InRange, all_fit};
ghost use Rattle.written_method.specs.Lines.{Line, entry_of, numbers_of, lowest_line, line_less, all_less_formed, cleared, cleared_formed, factor_of};
ghost use Rattle.row_core.specs.Numbers.{numbers_of as numbers_in};
ghost use Rattle.row_core.specs.Written.{row_divisor};
ghost use Rattle.int_tableau.specs.Shorts.{AreOf};
ghost use Rattle.int_tableau.specs.Sizes.{AreWithin, IsSized};
ghost use Rattle.written_method.specs.Tableaus.{negated_line, without_last};
ghost use Rattle.int_tableau.specs.Entries.{at, IsSparse};
ghost use Rattle.int_tableau.specs.Stops.{IsRefusal};
ghost use Rattle.int_tableau.specs.LineView.{AreLast, line_seen, IsFine};
ghost use Rattle.int_tableau.specs.NextEntries.{IsNextEntry};

use crate::entry_list::EntryList;
use crate::marks::{MARKS, is_marked};
use crate::merging::{combine, difference};
use crate::narrow::is_narrow;
use crate::narrow_division;
use crate::numbers::{divide, factors, opposite};
use crate::refused::Refused;
use crate::room::Room;
use crate::short_numbers::ShortNumbers;
use crate::sizes::{greater, size_of};
use exact_num::gcd;
use row_core::less;
use std::alloc::{AllocError, Global};
use std::marker::Model;

/// An entry for each column, a right side, and an own entry at z or at w.
#[derive(Drop)]
pub(crate) struct SparseLine {
    // What a choice reads of each line stands side by side.
    right: i128,
    /// No absolute value of its numbers is above it.
    size: u128,
    /// The entry in the last column, where it is known and has 64 bits.
    last: Option<i64>,
    columns: usize,
    entries: EntryList,
    own: i128,
    /// Outside marked columns it has no entry.
    marks: [bool; MARKS],
}

/// The greatest absolute value of the numbers of a line.
fn size_of_line(entries: &EntryList, right: i128, own: i128) -> u128
    requires fits { all_fit (numbers_in entries.now) ≡ true }
    requires right { InRange right }
    requires own { InRange own }
    ensures { IsSized result entries.now right own }
{
    entries.size(greater(size_of(right), size_of(own)))
}

/// The entry in the last column, where it has 64 bits.
fn last_of(entries: &EntryList, columns: usize) -> Option<i64>
    requires { IsSparse 0 columns entries.now }
    ensures { AreLast result entries.now columns }
{
    if columns == 0 {
        return None;
    }
    entries.short_last_in(columns - 1)
}

impl Model for SparseLine {
    ghost use Rattle.written_method.specs.Lines.{Line};
    ghost use Rattle.int_tableau.specs.LineView.{line_seen, IsLine};

    ghost Value = { Line };

    ghost view = { λ l. line_seen l.columns l.entries l.right l.own };

    ghost invariant = { λ l. IsLine l.columns l.entries l.right l.own l.size l.marks l.last };
}

impl SparseLine {
    /// A line of these entries.
    pub(crate) fn new(
        alloc: Global,
        columns: usize,
        entries: &[(usize, i128)],
        right: i128,
        own: i128,
    ) -> Result<SparseLine, AllocError>
        requires { IsFine columns entries.now right own }
        ensures { IfOk result (λ l. l ≡ line_seen columns entries.now right own) }
    {
        let entries = EntryList::of(alloc, entries)?;
        let size = size_of_line(&entries, right, own);
        let mut marks = [false; MARKS];
        entries.mark(&mut marks);
        let last = last_of(&entries, columns);
        Ok(SparseLine {
            right,
            size,
            last,
            columns,
            entries,
            own,
            marks,
        })
    }

    /// A line of zeros.
    pub(crate) fn zeros(alloc: Global, columns: usize) -> SparseLine
        ensures { result ≡ line_seen columns [] (pos 0) (pos 0) }
    {
        SparseLine {
            right: 0,
            size: 0,
            last: None,
            columns,
            entries: EntryList::none(alloc),
            own: 0,
            marks: [false; MARKS],
        }
    }

    /// How many columns there are.
    pub(crate) fn columns(&self) -> usize
        ensures { result ≡ length self.now.entries }
    {
        self.columns
    }

    /// The right side.
    pub(crate) fn right(&self) -> i128
        ensures value { result ≡ self.now.right }
        ensures range { InRange self.now.right }
    {
        self.right
    }

    /// The own entry.
    pub(crate) fn own(&self) -> i128
        ensures value { result ≡ self.now.own }
        ensures range { InRange self.now.own }
    {
        self.own
    }

    /// The entry in a column.
    pub(crate) fn entry(&self, column: usize) -> i128
        requires { column < length self.now.entries }
        ensures value { result ≡ entry_of self.now column }
        ensures range { InRange (entry_of self.now column) }
    {
        if !is_marked(&self.marks, column) {
            return 0;
        }
        self.entries.number_in(column, self.columns)
    }

    /// The first entry other than 0 in a column from `from` on.
    pub(crate) fn next_entry(&self, from: usize) -> Option<(usize, i128)>
        ensures found { IfSome result (IsNextEntry self.now from) }
        ensures none { IfNone result ((c : ℕ) → from ≤ c → entry_of self.now c ≡ pos 0) }
    {
        self.next_entry_near(from, 0)
    }

    /// The same. Where so many entries stand before `from` as `near` says, that is seen at once.
    pub(crate) fn next_entry_near(&self, from: usize, near: usize) -> Option<(usize, i128)>
        ensures found { IfSome result (IsNextEntry self.now from) }
        ensures none { IfNone result ((c : ℕ) → from ≤ c → entry_of self.now c ≡ pos 0) }
    {
        let at = self.entries.position_near(from, self.columns, near);
        self.entries.entry_at(at)
    }

    /// A size that no number of the line passes.
    pub(crate) fn size(&self) -> u128
        ensures { AreWithin result (numbers_of self.now) }
    {
        self.size
    }

    /// The entry in the last column.
    pub(crate) fn last_entry(&self) -> i128
        requires { 0 < length self.now.entries }
        ensures value { result ≡ entry_of self.now (length self.now.entries - 1) }
        ensures range { InRange (entry_of self.now (length self.now.entries - 1)) }
    {
        match self.last {
            Some(last) => last as i128,
            None => self.entries.last_in(self.columns - 1),
        }
    }

    /// The entry in a column, where it has 64 bits.
    fn short_entry(&self, column: usize) -> Option<i64>
        requires { column < length self.now.entries }
        ensures value { IfSome result (λ s. s ≡ entry_of self.now column) }
        ensures narrow { IfSome result (λ s. unsigned_abs s < 2 ^ 63) }
    {
        if !is_marked(&self.marks, column) {
            return Some(0);
        }
        self.entries.short_in(column, self.columns)
    }

    /// The entries in a column and in the last one, and the right side, where they have 64 bits.
    pub(crate) fn short_numbers(&self, column: usize) -> Option<ShortNumbers>
        requires { column < length self.now.entries }
        ensures { IfSome result (AreOf self.now column) }
    {
        if !is_narrow(self.right) {
            return None;
        }
        let entry = self.short_entry(column)?;
        let Some(last) = self.last else {
            return None;
        };
        Some(ShortNumbers {
            entry,
            last,
            right: self.right as i64,
        })
    }

    /// Whether it is sure that the numbers of the line have no common divisor.
    pub(crate) fn is_lowest(&self) -> bool
        ensures { result ≡ true → row_divisor (numbers_of self.now) ≡ 1 }
    {
        self.entries.are_lowest(gcd(self.right, self.own))
    }

    /// Multiplies the line by -1.
    pub(crate) fn negate(&mut self)
        ensures { self.new ≡ negated_line self.old }
    {
        self.entries.negate();
        self.right = opposite(self.right);
        self.own = opposite(self.own);
        self.last = last_of(&self.entries, self.columns);
    }

    /// Drops the last column.
    pub(crate) fn drop_last(&mut self)
        requires { 0 < length self.old.entries }
        ensures { self.new ≡ without_last self.old }
    {
        let last = self.columns - 1;
        let at = self.entries.position_of(last, self.columns);
        self.entries.truncate(at);
        self.columns = last;
        self.last = None;
    }

    /// Takes `b` times another line from `a` times this one, and divides what is left by the greatest common divisor of its
    /// numbers, all in 64 bits but the right side and the own entry. It isn't done, and the line stays, where that can't be.
    fn subtract_narrow(
        &mut self,
        room: &mut Room,
        a: i128,
        b: i128,
        other: &SparseLine,
    ) -> Result<bool, AllocError>
        requires a { InRange a }
        requires b { InRange b }
        requires same { length other.now.entries ≡ length self.old.entries }
        ensures value { IfOk result (λ done. done ≡ true → self.new ≡ lowest_line (line_less a b self.old other.now)) }
        ensures fits { IfOk result (λ done. done ≡ true → all_fit (all_less_formed a b (numbers_of self.old) (numbers_of other.now)) ≡ true) }
        ensures stays { IfOk result (λ done. done ≡ false → self.new ≡ self.old) }
    {
        let combined = self.entries.combine(
            &mut room.narrow,
            a,
            b,
            self.size,
            &other.entries,
            other.size,
            self.columns,
        );
        let Ok(()) = combined else {
            return Ok(false);
        };
        let narrow = is_narrow(a) && is_narrow(b);
        let Ok(right) = difference(narrow, a, b, self.right, other.right) else {
            return Ok(false);
        };
        let Ok(own) = difference(narrow, a, b, self.own, other.own) else {
            return Ok(false);
        };
        let Some((right, own)) = narrow_division::divide(&mut room.narrow, right, own) else {
            return Ok(false);
        };
        self.last = None;
        self.entries.replace(room.alloc, &room.narrow)?;
        self.right = right;
        self.own = own;
        self.size = size_of_line(&self.entries, right, own);
        self.entries.mark(&mut self.marks);
        self.last = last_of(&self.entries, self.columns);
        Ok(true)
    }

    /// The same with all numbers in 128 bits.
    fn subtract_wide(
        &mut self,
        room: &mut Room,
        a: i128,
        b: i128,
        other: &SparseLine,
    ) -> Result<(), Refused>
        requires a { InRange a }
        requires b { InRange b }
        requires same { length other.now.entries ≡ length self.old.entries }
        ensures value { OnOk result (self.new ≡ lowest_line (line_less a b self.old other.now)) }
        ensures fits { OnOk result (all_fit (all_less_formed a b (numbers_of self.old) (numbers_of other.now)) ≡ true) }
        ensures stopped { IfErr result (IsRefusal (all_fit (all_less_formed a b (numbers_of self.old) (numbers_of other.now)))) }
    {
        self.entries.write_to(&mut room.line)?;
        other.entries.write_to(&mut room.other)?;
        combine(&mut room.wide, a, b, &room.line, &room.other, self.columns)?;
        let Ok(right) = less(a, b, self.right, other.right) else {
            return Err(Refused::TooWide);
        };
        let Ok(own) = less(a, b, self.own, other.own) else {
            return Err(Refused::TooWide);
        };
        let (right, own) = divide(&mut room.wide, right, own);
        self.entries = EntryList::of(room.alloc, &room.wide)?;
        self.right = right;
        self.own = own;
        self.size = size_of_line(&self.entries, right, own);
        self.entries.mark(&mut self.marks);
        self.last = last_of(&self.entries, self.columns);
        Ok(())
    }

    /// Takes `b` times another line from `a` times this one, and divides what is left by the greatest common divisor of its
    /// numbers. What stood in `room` is lost.
    fn subtract(
        &mut self,
        room: &mut Room,
        a: i128,
        b: i128,
        other: &SparseLine,
    ) -> Result<(), Refused>
        requires a { InRange a }
        requires b { InRange b }
        requires same { length other.now.entries ≡ length self.old.entries }
        ensures value { OnOk result (self.new ≡ lowest_line (line_less a b self.old other.now)) }
        ensures fits { OnOk result (all_fit (all_less_formed a b (numbers_of self.old) (numbers_of other.now)) ≡ true) }
        ensures stopped { IfErr result (IsRefusal (all_fit (all_less_formed a b (numbers_of self.old) (numbers_of other.now)))) }
    {
        if self.subtract_narrow(room, a, b, other)? {
            return Ok(());
        }
        self.subtract_wide(room, a, b, other)
    }

    /// The line without its entry in a column, by the pivot row, which has a positive entry there. A line with no entry there
    /// stays. What stood in `room` is lost.
    pub(crate) fn clear(
        &mut self,
        room: &mut Room,
        pivot: &SparseLine,
        column: usize,
    ) -> Result<(), Refused>
        requires same { length pivot.now.entries ≡ length self.old.entries }
        requires there { column < length self.old.entries }
        requires pivot_entry { entry_of pivot.now column ≢ pos 0 }
        ensures value { OnOk result (self.new ≡ cleared column pivot.now self.old) }
        ensures fits { OnOk result (all_fit (cleared_formed column pivot.now self.old) ≡ true) }
        ensures stopped { IfErr result (IsRefusal (all_fit (cleared_formed column pivot.now self.old))) }
    {
        let q = self.entry(column);
        if q != 0 {
            let p = pivot.entry(column);
            let (a, b) = factors(p, q);
            self.subtract(room, a, b, pivot)?;
        }
        Ok(())
    }
}
