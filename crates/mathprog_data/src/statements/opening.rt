//! The words round the statements: `data ;`, `set`, `param`, `end ;`.

ghost use Rattle.mathprog_data.specs.MachineViews.{Turned};
ghost use Rattle.mathprog_data.specs.MachineSteps.{fresh, data_read, between, end_read};
ghost use Rattle.mathprog_data.specs.SymbolViews.{seen_view};

use super::seen::Seen;
use super::{State, StatementReader};
use crate::fault::UNEXPECTED;
use crate::lexeme::Sign;
use crate::words::Word;

impl StatementReader {
    /// Takes the first token.
    pub(super) fn fresh(&mut self, seen: Seen) -> Option<u8>
        ensures { Turned self.old (fresh (seen_view seen.entry)) result self.new }
    {
        match seen {
            Seen::Symbol(symbol) => match symbol.word() {
                Word::Data => self.go(State::DataRead, false),
                _ => self.between(seen),
            },
            _ => Some(UNEXPECTED),
        }
    }

    /// Takes what follows `data`.
    pub(super) fn data_read(&mut self, seen: Seen) -> Option<u8>
        ensures { Turned self.old (data_read (seen_view seen.entry)) result self.new }
    {
        match seen {
            Seen::Sign(Sign::Semicolon) => self.go(State::Between, false),
            _ => Some(UNEXPECTED),
        }
    }

    /// Takes the first word of a statement, or `end`.
    pub(super) fn between(&mut self, seen: Seen) -> Option<u8>
        ensures { Turned self.old (between (seen_view seen.entry)) result self.new }
    {
        match seen {
            Seen::Symbol(symbol) => match symbol.word() {
                Word::Set => self.go(State::SetRead, false),
                Word::Param => self.go(State::ParamRead, false),
                Word::End => self.go(State::EndRead, false),
                _ => Some(UNEXPECTED),
            },
            _ => Some(UNEXPECTED),
        }
    }

    /// Takes what follows `end`.
    pub(super) fn end_read(&mut self, seen: Seen) -> Option<u8>
        ensures { Turned self.old (end_read (seen_view seen.entry)) result self.new }
    {
        match seen {
            Seen::Sign(Sign::Semicolon) => self.go(State::Ended, false),
            _ => Some(UNEXPECTED),
        }
    }
}
