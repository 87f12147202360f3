//! The reader of statements: a machine that takes token by token.

ghost use Rattle.std.specs.Prelude.{◌≡◌, ◌+◌, ◌<◌, ◌^◌, IfOk, OnOk, Option, Some, None};
ghost use Rattle.mathprog_data.specs.BlocksView.{blocks_told};
ghost use Rattle.mathprog_data.specs.DraftViews.{draft_view};
ghost use Rattle.mathprog_data.specs.Lexemes.{lexeme_of};
ghost use Rattle.mathprog_data.specs.MachineSteps.{step, beginning, may_end};
ghost use Rattle.mathprog_data.specs.MachineViews.{reader_view, open_view, outcome};
ghost use Rattle.mathprog_data.specs.MachineStates.{drafted};

mod draft;
mod opening;
mod params;
mod plain;
mod seen;
mod sets;
mod short_number;
mod slices;
mod tables;
mod turns;

use crate::blocks::{Blocks, Mark, Name};
use crate::fault::UNEXPECTED;
use crate::lexeme::Lexeme;
use draft::Draft;
use seen::seen_in;
use std::alloc::{AllocError, Global};

/// What is open: what the tokens read so far end with.
#[derive(Clone, Copy, Debug, PartialEq, Eq)]
enum State {
    /// Nothing was read.
    Fresh,
    /// `data`
    DataRead,
    /// Whole statements.
    Between,
    /// `end`
    EndRead,
    /// `end ;`
    Ended,
    /// `set`
    SetRead,
    /// The members of a set.
    InSet,
    /// `param`
    ParamRead,
    /// A parameter's name.
    ParamNamed,
    /// `default` after it.
    DefaultRead,
    /// `param default`
    LeadingDefault,
    /// A number after that.
    LeadingNumber,
    /// The colon of tabbing data.
    TabbingColon,
    /// The parameter's name after it.
    TabbingNamed,
    /// Records.
    InRecords,
    /// Subscripts of plain data.
    InPlain,
    /// In a slice, where a place is due.
    PlaceDue,
    /// In a slice, after a place.
    PlaceRead,
    /// `(`
    ParenRead,
    /// `(tr`
    TrRead,
    /// `(tr)`
    TrClosed,
    /// The columns of a table.
    InColumns,
    /// The rows of a table.
    InRows,
    /// A row, where it has no value yet for some column.
    InRow,
}

/// The reader of statements. It takes the tokens of a data section one by one, and keeps what they say.
#[derive(Drop)]
pub(crate) struct StatementReader {
    alloc: Global,
    state: State,
    /// Whether a comma may stand next.
    comma: bool,
    /// The number of the open set or parameter.
    item: u8,
    /// Whether the open parameter is given in tabbing data.
    tabbing: bool,
    /// The default that stands before the name in tabbing data.
    leading: Option<(i128, bool)>,
    /// The slice that holds, or its places so far.
    slice: Vec<Option<Name>>,
    /// The subscripts of plain data so far.
    names: Vec<Name>,
    /// The mark of the plain data or of the row.
    mark: Mark,
    /// How many more subscripts or places are due.
    left: usize,
    /// The columns of the table.
    columns: Vec<Name>,
    /// Whether the table is transposed.
    transposed: bool,
    /// The name of the row.
    row: Name,
    /// For how many columns the row has a value.
    cells: usize,
    /// Where the first column's name is kept among those of the values. Only a hint: a name is looked at before it's pointed to.
    place: u32,
    draft: Draft,
}

impl StatementReader {
    /// The reader before the first token.
    pub(crate) fn new(alloc: Global) -> StatementReader
        ensures { reader_view result ≡ beginning }
    {
        StatementReader {
            alloc,
            state: State::Fresh,
            comma: false,
            item: 0,
            tabbing: false,
            leading: None,
            slice: Vec::new(alloc),
            names: Vec::new(alloc),
            mark: Mark { line: 1, column: 1 },
            left: 0,
            columns: Vec::new(alloc),
            transposed: false,
            row: Name::empty(),
            cells: 0,
            place: 0,
            draft: Draft::new(alloc),
        }
    }

    /// Takes the next token. Answers the number of its fault, where it can't stand here.
    pub(crate) fn take(&mut self, lexeme: Lexeme, at: Mark) -> Result<Option<u8>, AllocError>
        requires { self.old.draft.rounded + 1 < 2 ^ 64 }
        ensures { IfOk result (λ fault. step (reader_view self.old) (lexeme_of lexeme.entry) at ≡ outcome fault (reader_view self.new)) }
    {
        let seen = seen_in(lexeme);
        match self.state {
            State::Fresh => Ok(self.fresh(seen)),
            State::DataRead => Ok(self.data_read(seen)),
            State::Between => Ok(self.between(seen)),
            State::EndRead => Ok(self.end_read(seen)),
            State::Ended => Ok(Some(UNEXPECTED)),
            State::SetRead => self.set_read(seen),
            State::InSet => self.in_set(seen),
            State::ParamRead => self.param_read(seen),
            State::ParamNamed => self.param_named(seen, at),
            State::DefaultRead => self.default_read(seen),
            State::LeadingDefault => Ok(self.leading_default(seen)),
            State::LeadingNumber => Ok(self.leading_number(seen)),
            State::TabbingColon => self.tabbing_colon(seen),
            State::TabbingNamed => self.tabbing_named(seen),
            State::InRecords => self.in_records(seen, at),
            State::InPlain => self.in_plain(seen),
            State::PlaceDue => self.place_due(seen),
            State::PlaceRead => Ok(self.place_read(seen)),
            State::ParenRead => Ok(self.paren_read(seen)),
            State::TrRead => Ok(self.tr_read(seen)),
            State::TrClosed => Ok(self.tr_closed(seen)),
            State::InColumns => self.in_columns(seen),
            State::InRows => self.in_rows(seen, at),
            State::InRow => self.in_row(seen),
        }
    }

    /// Whether the section may end here.
    pub(crate) fn may_end(&self) -> bool
        ensures { result ≡ may_end (open_view self.now) }
    {
        matches!(self.state, State::Fresh | State::Between | State::Ended)
    }

    /// The blocks that were read.
    pub(crate) fn into_blocks(self) -> Blocks
        ensures { blocks_told result ≡ drafted (draft_view self.draft) }
    {
        let StatementReader {
            alloc: _,
            state: _,
            comma: _,
            item: _,
            tabbing: _,
            leading: _,
            slice: _,
            names: _,
            mark: _,
            left: _,
            columns: _,
            transposed: _,
            row: _,
            cells: _,
            place: _,
            draft,
        } = self;
        draft.into_blocks()
    }
}
