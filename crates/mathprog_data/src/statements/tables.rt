//! Tables.

ghost use Rattle.std.specs.Prelude.{◌≡◌, ◌+◌, ◌<◌, ◌^◌, IfOk, [], false, drop, length, slice_index_or};
ghost use Rattle.mathprog_data.specs.MachineSteps.{table, paren_read, tr_read, tr_closed, in_columns, in_rows, in_row, cell, columns_end, row_left, number};
ghost use Rattle.mathprog_data.specs.MachineStates.{Go, Emit, ValueGiven, InColumns, ParenRead};
ghost use Rattle.mathprog_data.specs.MachineViews.{Turned};
ghost use Rattle.mathprog_data.specs.Slices.{free_count};
ghost use Rattle.mathprog_data.specs.SymbolViews.{seen_view, word_in, number_in};
ghost use Rattle.mathprog_data.specs.Tables.{given, cell_index};

use super::seen::{Seen, Symbol};
use super::slices::free_count;
use super::{State, StatementReader};
use crate::blocks::Mark;
use crate::fault::{BAD_NUMBER, ROW_TOO_SHORT, UNEXPECTED, WRONG_SLICE};
use crate::lexeme::Sign;
use crate::words::Word;
use std::alloc::AllocError;

/// The names of no more columns than this are kept before the first value comes with one. No set has as many members.
const MOST_COLUMNS: usize = 65_536;

impl StatementReader {
    /// Takes the colon of a table.
    pub(super) fn open_table(&mut self) -> Option<u8>
        ensures { Turned self.old (table (free_count self.old.slice.items) (InColumns self.old.item self.old.slice.items false [] false)) result self.new }
    {
        if free_count(&self.slice) == 2 {
            self.begin_columns(false)
        } else {
            Some(WRONG_SLICE)
        }
    }

    /// Takes the parenthesis of a transposed table.
    pub(super) fn open_paren(&mut self) -> Option<u8>
        ensures { Turned self.old (table (free_count self.old.slice.items) (ParenRead self.old.item self.old.slice.items)) result self.new }
    {
        if free_count(&self.slice) == 2 {
            self.go(State::ParenRead, false)
        } else {
            Some(WRONG_SLICE)
        }
    }

    /// Begins the columns of a table.
    fn begin_columns(&mut self, transposed: bool) -> Option<u8>
        ensures { Turned self.old (Go (InColumns self.old.item self.old.slice.items transposed [] false)) result self.new }
    {
        self.transposed = transposed;
        self.columns = Vec::new(self.alloc);
        self.go(State::InColumns, false)
    }

    /// Takes what follows `(`.
    pub(super) fn paren_read(&mut self, seen: Seen) -> Option<u8>
        ensures { Turned self.old (paren_read self.old.item self.old.slice.items (seen_view seen.entry)) result self.new }
    {
        match seen {
            Seen::Symbol(symbol) => match symbol.word() {
                Word::Tr => self.go(State::TrRead, false),
                _ => Some(UNEXPECTED),
            },
            _ => Some(UNEXPECTED),
        }
    }

    /// Takes what follows `(tr`.
    pub(super) fn tr_read(&mut self, seen: Seen) -> Option<u8>
        ensures { Turned self.old (tr_read self.old.item self.old.slice.items (seen_view seen.entry)) result self.new }
    {
        match seen {
            Seen::Sign(Sign::CloseParen) => self.go(State::TrClosed, false),
            _ => Some(UNEXPECTED),
        }
    }

    /// Takes what follows `(tr)`.
    pub(super) fn tr_closed(&mut self, seen: Seen) -> Option<u8>
        ensures { Turned self.old (tr_closed self.old.item self.old.slice.items (seen_view seen.entry)) result self.new }
    {
        match seen {
            Seen::Sign(Sign::Colon) => self.begin_columns(true),
            _ => Some(UNEXPECTED),
        }
    }

    /// Takes a token among the columns.
    pub(super) fn in_columns(&mut self, seen: Seen) -> Result<Option<u8>, AllocError>
        ensures { IfOk result (λ fault. Turned self.old (in_columns self.old.item self.old.slice.items self.old.transposed self.old.columns.items self.old.comma (seen_view seen.entry)) fault self.new) }
    {
        match seen {
            Seen::Sign(Sign::Gives) => self.end_columns(),
            Seen::Sign(Sign::Comma) => Ok(self.take_comma(State::InColumns)),
            Seen::Symbol(symbol) => {
                let name = symbol.name(self.alloc)?;
                self.columns.push(name)?;
                Ok(self.go(State::InColumns, true))
            }
            _ => Ok(Some(UNEXPECTED)),
        }
    }

    /// Takes the `:=` after the columns.
    fn end_columns(&mut self) -> Result<Option<u8>, AllocError>
        ensures { IfOk result (λ fault. Turned self.old (columns_end self.old.item self.old.slice.items self.old.transposed self.old.columns.items) fault self.new) }
    {
        if self.columns.is_empty() {
            return Ok(Some(UNEXPECTED));
        }
        if self.columns.len() <= MOST_COLUMNS {
            self.place = self.draft.keep_columns(&self.columns)?;
        }
        Ok(self.go(State::InRows, false))
    }

    /// Takes a token between rows.
    pub(super) fn in_rows(&mut self, seen: Seen, at: Mark) -> Result<Option<u8>, AllocError>
        requires { self.old.draft.rounded + 1 < 2 ^ 64 }
        ensures { IfOk result (λ fault. Turned self.old (in_rows self.old.item self.old.slice.items self.old.transposed self.old.columns.items self.old.comma (seen_view seen.entry) at) fault self.new) }
    {
        match seen {
            Seen::Sign(Sign::Gives) => Ok(Some(UNEXPECTED)),
            Seen::Sign(Sign::Comma) => Ok(self.take_comma(State::InRows)),
            Seen::Symbol(symbol) => {
                self.row = symbol.name(self.alloc)?;
                self.mark = at;
                self.cells = 0;
                Ok(self.go(State::InRow, true))
            }
            _ => {
                self.tabbing = false;
                self.comma = false;
                self.in_records(seen, at)
            }
        }
    }

    /// Takes a token of a row.
    pub(super) fn in_row(&mut self, seen: Seen) -> Result<Option<u8>, AllocError>
        requires { self.old.draft.rounded + 1 < 2 ^ 64 }
        ensures { IfOk result (λ fault. Turned self.old (in_row self.old.item self.old.slice.items self.old.transposed self.old.columns.items self.old.row self.old.mark (drop self.old.cells self.old.columns.items) self.old.comma (seen_view seen.entry)) fault self.new) }
    {
        match seen {
            Seen::Sign(Sign::Comma) => Ok(self.take_comma(State::InRow)),
            Seen::Sign(Sign::Semicolon | Sign::OpenBracket | Sign::Colon | Sign::OpenParen) => {
                Ok(Some(ROW_TOO_SHORT))
            }
            Seen::Symbol(symbol) => self.cell(symbol),
            _ => Ok(Some(UNEXPECTED)),
        }
    }

    /// Takes a value of a row.
    fn cell(&mut self, symbol: Symbol) -> Result<Option<u8>, AllocError>
        requires { self.old.draft.rounded + 1 < 2 ^ 64 }
        ensures { IfOk result (λ fault. Turned self.old (cell self.old.item self.old.slice.items self.old.transposed self.old.columns.items self.old.row self.old.mark (drop self.old.cells self.old.columns.items) (word_in symbol.entry) (number_in symbol.entry)) fault self.new) }
    {
        if self.cells >= self.columns.len() {
            return Ok(Some(UNEXPECTED));
        }
        match symbol.word() {
            Word::Point => Ok(self.next_cell()),
            _ => self.cell_value(symbol),
        }
    }

    /// Takes a value of a row, where it isn't `.`.
    fn cell_value(&mut self, symbol: Symbol) -> Result<Option<u8>, AllocError>
        requires room { self.old.draft.rounded + 1 < 2 ^ 64 }
        requires inside { self.old.cells < length self.old.columns.items }
        ensures { IfOk result (λ fault. Turned self.old (number (number_in symbol.entry) (λ v. Emit (ValueGiven (given (cell_index self.old.slice.items self.old.transposed self.old.row (slice_index_or self.old.columns.items self.old.cells [])) v self.old.mark)) (row_left self.old.item self.old.slice.items self.old.transposed self.old.columns.items self.old.row self.old.mark (drop (self.old.cells + 1) self.old.columns.items)))) fault self.new) }
    {
        match symbol.number() {
            None => Ok(Some(BAD_NUMBER)),
            Some(number) => {
                let column = &self.columns[self.cells];
                let cells = u32::try_from(self.cells).unwrap_or(0);
                let hint = self.place.saturating_add(cells);
                self.draft.give_cell(
                    &self.slice,
                    self.transposed,
                    &self.row,
                    column,
                    hint,
                    number,
                    self.mark,
                )?;
                Ok(self.next_cell())
            }
        }
    }

    /// Goes on after a value: in the row, or between rows where it was the last one.
    fn next_cell(&mut self) -> Option<u8>
        requires { self.old.cells < length self.old.columns.items }
        ensures { Turned self.old (Go (row_left self.old.item self.old.slice.items self.old.transposed self.old.columns.items self.old.row self.old.mark (drop (self.old.cells + 1) self.old.columns.items))) result self.new }
    {
        self.cells += 1;
        if self.cells == self.columns.len() {
            self.go(State::InRows, true)
        } else {
            self.go(State::InRow, true)
        }
    }
}
