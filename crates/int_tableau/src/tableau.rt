//! The tableau of the simplex method.

ghost use Rattle.std.specs.Prelude.{◌≡◌, ◌≢◌, ◌<◌, ◌≤◌, ◌+◌, ◌-◌, ◌^◌, IsTrue, ◌<ℤ◌, ℕ, ℤ, suc, true, pos, map, length, flat_map, slice_set, slice_index_or, OnOk, IfOk, IfErr, ◌↔◌, IfSome, IfNone};
ghost use Rattle.exact_num.specs.Range.{InRange, all_fit};
ghost use Rattle.row_core.specs.declared.place.Place.TheVariants as places;
ghost use Rattle.row_core.specs.Stops.{IsStop};
ghost use Rattle.row_core.specs.Written.{row_divisor};
ghost use Rattle.written_method.specs.Lines.{entry_of, cleared, cleared_formed, numbers_of};
ghost use Rattle.written_method.specs.Tableaus.{rows_of, line_of, basic_of, own_of, no_line, others, has_x0, without_last, pivot_formed};
ghost use Rattle.written_method.specs.FirstTableau.{first_tableau};
ghost use Rattle.written_method.specs.Programs.{program_of};
ghost use Rattle.written_method.specs.Ready.{IsReady};
ghost use Rattle.written_method.specs.Meaning.{Values, Solves};
ghost use Rattle.int_tableau.specs.Stops.{IsRefusal};
ghost use Rattle.int_tableau.specs.Shapes.{HaveColumns, HaveSome, IsNowhere};
ghost use Rattle.int_tableau.specs.NextEntries.{IsNextEntry};
ghost use Rattle.int_tableau.specs.Shorts.{AreOf};
ghost use Rattle.int_tableau.specs.Sizes.{AreWithin};
ghost use Rattle.int_tableau.specs.Swaps.{swapped_in};
ghost use Rattle.int_tableau.specs.Counted.{Counted, pivoted_once, negated_in, shortened, SolvesWithout};

use crate::line::SparseLine;
use crate::refused::Refused;
use crate::room::Room;
use crate::short_numbers::ShortNumbers;
use crate::starting::{
    Layout, any_negative, cost_line, push_artificial_line, push_row_lines, slack_columns,
};
use row_core::{Place, Stopped};
use std::alloc::{AllocError, Global};
use std::marker::Model;
use std::mem::replace;
use written_method::Reduced;

/// Clears a column in each of some lines.
fn clear_all(
    room: &mut Room,
    lines: &mut Vec<SparseLine>,
    pivot: &SparseLine,
    column: usize,
) -> Result<(), Refused>
    requires columns { HaveColumns (length pivot.now.entries) lines.old.items }
    requires there { column < length pivot.now.entries }
    requires pivot_entry { entry_of pivot.now column ≢ pos 0 }
    ensures value { OnOk result (lines.new.items ≡ map (cleared column pivot.now) lines.old.items) }
    ensures fits { OnOk result (all_fit (flat_map (cleared_formed column pivot.now) lines.old.items) ≡ true) }
    ensures stopped { IfErr result (IsRefusal (all_fit (flat_map (cleared_formed column pivot.now) lines.old.items))) }
{
    for line in lines.iter_mut() {
        line.clear(room, pivot, column)?;
    }
    Ok(())
}

/// Drops the last column of each line.
fn drop_last_of_all(lines: &mut Vec<SparseLine>)
    requires { HaveSome lines.old.items }
    ensures { lines.new.items ≡ map without_last lines.old.items }
{
    for line in lines.iter_mut() {
        line.drop_last();
    }
}

/// Clears a column in each other line than that of the pivot row.
fn clear_others(
    alloc: Global,
    room: &mut Room,
    lines: &mut Vec<SparseLine>,
    row: usize,
    column: usize,
    columns: usize,
) -> Result<(), Refused>
    requires columns { HaveColumns columns lines.old.items }
    requires row { row < length lines.old.items }
    requires there { column < columns }
    requires pivot_entry { entry_of (slice_index_or lines.old.items row no_line) column ≢ pos 0 }
    ensures value { OnOk result (lines.new.items ≡ slice_set (map (cleared column (slice_index_or lines.old.items row no_line)) lines.old.items) row (slice_index_or lines.old.items row no_line)) }
    ensures fits { OnOk result (all_fit (flat_map (cleared_formed column (slice_index_or lines.old.items row no_line)) (others row lines.old.items)) ≡ true) }
    ensures stopped { IfErr result (IsRefusal (all_fit (flat_map (cleared_formed column (slice_index_or lines.old.items row no_line)) (others row lines.old.items)))) }
{
    let blank = SparseLine::zeros(alloc, columns);
    let slot = &mut lines[row];
    // A line of zeros in its place has nothing to be cleared.
    let pivot = replace(slot, blank);
    clear_all(room, lines, &pivot, column)?;
    lines[row] = pivot;
    Ok(())
}

/// The tableau of the simplex method: a line for each row, one for z, and one for w while x0 is there; and the basic column of each
/// row. It counts its pivots.
#[derive(Drop)]
pub struct Tableau {
    lines: Vec<SparseLine>,
    basics: Vec<usize>,
    columns: usize,
    pivots: u64,
    room: Room,
}

impl Model for Tableau {
    ghost use Rattle.int_tableau.specs.Sizes.{AreWithin};
    ghost use Rattle.int_tableau.specs.Swaps.{swapped_in};
    ghost use Rattle.int_tableau.specs.Counted.{Counted};
    ghost use Rattle.int_tableau.specs.Shapes.{IsTableau};

    ghost Value = { Counted };

    ghost view = { λ t. record { tableau = record { lines = t.lines.items; basics = t.basics.items; columns = t.columns }; pivots = t.pivots } };

    ghost invariant = { λ t. IsTableau t.columns t.lines.items t.basics.items };
}

impl Tableau {
    /// The first tableau of a linear program: a column for each variable in order, two for one that may be negative, then a slack
    /// for each row, and x0 where some right side is negative as its row reads at most. The slacks are basic, and no pivot was made.
    ///
    /// An error means that memory ran out.
    pub fn new(alloc: Global, reduced: &Reduced) -> Result<Tableau, AllocError>
        requires { IsReady reduced.now }
        ensures { IfOk result (λ t. t ≡ record { tableau = first_tableau (program_of reduced.now); pivots = 0 }) }
    {
        let artificial = any_negative(&reduced.rows);
        let layout = Layout::new(alloc, &reduced.columns, reduced.rows.len(), artificial)?;
        let mut lines = Vec::with_capacity(alloc, reduced.rows.len())?;
        push_row_lines(&mut lines, alloc, &layout, &reduced.rows)?;
        lines.push(cost_line(alloc, &layout, reduced)?)?;
        push_artificial_line(&mut lines, alloc, &layout)?;
        let basics = slack_columns(alloc, &layout)?;
        Ok(Tableau {
            lines,
            basics,
            columns: layout.columns(),
            pivots: 0,
            room: Room::new(alloc),
        })
    }

    /// The number of rows.
    pub fn rows(&self) -> usize
        ensures count { result ≡ rows_of self.now.tableau }
        ensures line_of_z { result < length self.now.tableau.lines }
        ensures countable { result + 1 < 2 ^ 64 }
    {
        self.basics.len()
    }

    /// Whether x0 and the row of w are there.
    pub fn has_x0(&self) -> bool
        ensures { result ≡ has_x0 self.now.tableau }
    {
        self.basics.len() + 1 < self.lines.len()
    }

    /// The number of columns, with x0 while it is there.
    pub fn columns(&self) -> usize
        ensures count { result ≡ self.now.tableau.columns }
        ensures lines { (r : ℕ) → r < length self.now.tableau.lines → length (line_of self.now.tableau r).entries ≡ self.now.tableau.columns }
    {
        self.columns
    }

    /// How many pivots were made.
    pub fn pivots(&self) -> u64
        ensures { result ≡ self.now.pivots }
    {
        self.pivots
    }

    /// The entry of a row in a column. The row of z follows the last row, and that of w the row of z.
    pub fn entry(&self, row: usize, column: usize) -> i128
        requires row { row < length self.now.tableau.lines }
        requires column { column < self.now.tableau.columns }
        ensures value { result ≡ entry_of (line_of self.now.tableau row) column }
        ensures range { InRange (entry_of (line_of self.now.tableau row) column) }
    {
        self.lines[row].entry(column)
    }

    /// The number of lines: that of rows, one more for z, and one for w while it is there.
    pub fn lines(&self) -> usize
        ensures { result ≡ length self.now.tableau.lines }
    {
        self.lines.len()
    }

    /// The entry of a row in the last column, which is that of x0 while it is there.
    pub fn last_entry(&self, row: usize) -> i128
        requires row { row < length self.now.tableau.lines }
        requires some { 0 < self.now.tableau.columns }
        ensures value { result ≡ entry_of (line_of self.now.tableau row) (self.now.tableau.columns - 1) }
        ensures range { InRange (entry_of (line_of self.now.tableau row) (self.now.tableau.columns - 1)) }
    {
        self.lines[row].last_entry()
    }

    /// The entries of a row in a column and in the last one, and its right side, where they have 64 bits.
    pub fn short_numbers(&self, row: usize, column: usize) -> Option<ShortNumbers>
        requires row { row < length self.now.tableau.lines }
        requires column { column < self.now.tableau.columns }
        ensures { IfSome result (AreOf (line_of self.now.tableau row) column) }
    {
        self.lines[row].short_numbers(column)
    }

    /// A size that the absolute value of no number of a row passes.
    pub fn size(&self, row: usize) -> u128
        requires { row < length self.now.tableau.lines }
        ensures { AreWithin result (numbers_of (line_of self.now.tableau row)) }
    {
        self.lines[row].size()
    }

    /// Whether it is sure that the numbers of a row have no common divisor.
    pub fn is_lowest(&self, row: usize) -> bool
        requires { row < length self.now.tableau.lines }
        ensures { result ≡ true → row_divisor (numbers_of (line_of self.now.tableau row)) ≡ 1 }
    {
        self.lines[row].is_lowest()
    }

    /// The same tableau after one more pivot, which was made otherwise.
    pub fn counted(mut self) -> Tableau
        requires { suc self.pivots < 2 ^ 64 }
        ensures { result ≡ record { tableau = self.tableau; pivots = suc self.pivots } }
    {
        self.pivots += 1;
        self
    }

    /// The tableau with a row multiplied by -1, and then that row and another in each other's place.
    pub fn swapped(mut self, home: usize, row: usize) -> Tableau
        requires home { home < rows_of self.tableau }
        requires row { row < rows_of self.tableau }
        ensures { result ≡ swapped_in home row self }
    {
        self.lines[row].negate();
        self.lines.swap(row, home);
        self.basics.swap(row, home);
        self
    }

    /// The right side of a row.
    pub fn rhs(&self, row: usize) -> i128
        requires { row < length self.now.tableau.lines }
        ensures value { result ≡ (line_of self.now.tableau row).right }
        ensures range { InRange (line_of self.now.tableau row).right }
    {
        self.lines[row].right()
    }

    /// The basic column of a row.
    pub fn basic(&self, row: usize) -> usize
        requires { row < rows_of self.now.tableau }
        ensures value { result ≡ basic_of self.now.tableau row }
        ensures column { result < self.now.tableau.columns }
    {
        self.basics[row]
    }

    /// The entry of a row at its basic column, or that of the row of z at z, or of w at w.
    pub fn own(&self, row: usize) -> i128
        requires { row < length self.now.tableau.lines }
        ensures value { result ≡ own_of self.now.tableau row }
        ensures range { InRange (own_of self.now.tableau row) }
    {
        if row < self.rows() {
            self.entry(row, self.basic(row))
        } else {
            self.lines[row].own()
        }
    }

    /// The first column from `from` on in which a row has an entry other than 0, with that entry.
    pub fn next_entry(&self, row: usize, from: usize) -> Option<(usize, i128)>
        requires { row < length self.now.tableau.lines }
        ensures found { IfSome result (IsNextEntry (line_of self.now.tableau row) from) }
        ensures column { IfSome result (λ e. e.0 < self.now.tableau.columns) }
        ensures countable { IfSome result (λ e. e.0 + 1 < 2 ^ 64) }
        ensures none { IfNone result ((c : ℕ) → from ≤ c → entry_of (line_of self.now.tableau row) c ≡ pos 0) }
    {
        self.lines[row].next_entry(from)
    }

    /// The same. Where so many entries of the row stand before `from` as `near` says, it is found without a search; what is found
    /// doesn't depend on `near`.
    pub fn next_entry_near(&self, row: usize, from: usize, near: usize) -> Option<(usize, i128)>
        requires { row < length self.now.tableau.lines }
        ensures found { IfSome result (IsNextEntry (line_of self.now.tableau row) from) }
        ensures column { IfSome result (λ e. e.0 < self.now.tableau.columns) }
        ensures countable { IfSome result (λ e. e.0 + 1 < 2 ^ 64) }
        ensures none { IfNone result ((c : ℕ) → from ≤ c → entry_of (line_of self.now.tableau row) c ≡ pos 0) }
    {
        self.lines[row].next_entry_near(from, near)
    }

    /// The tableau with a row multiplied by -1. The same values solve it.
    pub fn negated(mut self, row: usize) -> Tableau
        requires { row < length self.tableau.lines }
        ensures value { result ≡ negated_in row self }
        ensures solutions { (v : Values) (owns : ℕ → ℤ) → Solves result.tableau v owns ↔ Solves self.tableau v owns }
    {
        self.lines[row].negate();
        self
    }

    /// The tableau without x0 and the row of w, where x0 isn't basic. Values solve it exactly where they solve the other rows
    /// with 0 for x0.
    pub fn without_x0(mut self) -> Tableau
        requires there { IsTrue (has_x0 self.tableau) }
        requires some { 0 < self.tableau.columns }
        requires not_basic { IsNowhere (self.tableau.columns - 1) self.tableau.basics }
        ensures value { result ≡ shortened self }
        ensures solutions { (v : Values) (owns : ℕ → ℤ) → Solves result.tableau v owns ↔ SolvesWithout self.tableau v owns }
    {
        self.lines.truncate(self.basics.len() + 1);
        drop_last_of_all(&mut self.lines);
        self.columns -= 1;
        self
    }

    /// The tableau after a pivot in a row and a column with a positive entry. Values solve it exactly where they solve the
    /// tableau before.
    ///
    /// `Width(Pivot(k))`, where this is pivot number k, comes exactly where a number that the pivot forms doesn't fit; any other
    /// refusal means that memory ran out.
    pub fn pivot(mut self, alloc: Global, row: usize, column: usize) -> Result<Tableau, Stopped>
        requires row { row < rows_of self.tableau }
        requires column { column < self.tableau.columns }
        requires positive { pos 0 <ℤ entry_of (line_of self.tableau row) column }
        requires countable { suc self.pivots < 2 ^ 64 }
        ensures value { IfOk result (λ t. t ≡ pivoted_once row column self) }
        ensures solutions { (v : Values) (owns : ℕ → ℤ) → IfOk result (λ t. Solves t.tableau v owns ↔ Solves self.tableau v owns) }
        ensures fits { OnOk result (all_fit (pivot_formed row column self.tableau) ≡ true) }
        ensures stopped { IfErr result (IsStop (places.Pivot (suc self.pivots)) (all_fit (pivot_formed row column self.tableau))) }
    {
        self.pivots += 1;
        let cleared = clear_others(
            alloc,
            &mut self.room,
            &mut self.lines,
            row,
            column,
            self.columns,
        );
        match cleared {
            Err(Refused::TooWide) => Err(Stopped::Width(Place::Pivot(self.pivots))),
            Err(Refused::Memory) => Err(Stopped::Memory),
            Ok(()) => {
                self.basics[row] = column;
                Ok(self)
            }
        }
    }
}
