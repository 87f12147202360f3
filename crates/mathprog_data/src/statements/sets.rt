//! The statement of a set.

ghost use Rattle.std.specs.Prelude.{IfOk, true};
ghost use Rattle.mathprog_data.specs.MachineStates.{Emit, Begins, InSet};
ghost use Rattle.mathprog_data.specs.Statements.{SetBegun};
ghost use Rattle.mathprog_data.specs.MachineViews.{Turned};
ghost use Rattle.mathprog_data.specs.MachineSteps.{set_read, in_set};
ghost use Rattle.mathprog_data.specs.SymbolViews.{seen_view};

use super::seen::Seen;
use super::{State, StatementReader};
use crate::fault::{GIVEN_TWICE, UNEXPECTED, UNKNOWN_NAME};
use crate::lexeme::Sign;
use model_sets::{param_number, set_number};
use std::alloc::AllocError;

impl StatementReader {
    /// Takes what follows `set`.
    pub(super) fn set_read(&mut self, seen: Seen) -> Result<Option<u8>, AllocError>
        ensures { IfOk result (λ fault. Turned self.old (set_read (seen_view seen.entry)) fault self.new) }
    {
        match seen {
            Seen::Symbol(symbol) => {
                let name = symbol.name(self.alloc)?;
                match set_number(name.bytes()) {
                    Some(set) => Ok(self.name_set(set)),
                    None => match param_number(name.bytes()) {
                        Some(_) => Ok(Some(UNEXPECTED)),
                        None => Ok(Some(UNKNOWN_NAME)),
                    },
                }
            }
            _ => Ok(Some(UNEXPECTED)),
        }
    }

    /// Begins the statement of this set.
    fn name_set(&mut self, set: u8) -> Option<u8>
        ensures { Turned self.old (Emit (Begins (SetBegun set)) (InSet set true)) result self.new }
    {
        if self.draft.has_set(set) {
            Some(GIVEN_TWICE)
        } else {
            self.item = set;
            self.go(State::InSet, true)
        }
    }

    /// Takes a token among the members.
    pub(super) fn in_set(&mut self, seen: Seen) -> Result<Option<u8>, AllocError>
        ensures { IfOk result (λ fault. Turned self.old (in_set self.old.item self.old.comma (seen_view seen.entry)) fault self.new) }
    {
        match seen {
            Seen::Sign(Sign::Semicolon) => {
                self.draft.close_set(self.item)?;
                Ok(self.go(State::Between, false))
            }
            Seen::Sign(Sign::Gives) => Ok(self.go(State::InSet, false)),
            Seen::Sign(Sign::Comma) => Ok(self.take_comma(State::InSet)),
            Seen::Symbol(symbol) => {
                let name = symbol.name(self.alloc)?;
                self.draft.name_member(name)?;
                Ok(self.go(State::InSet, true))
            }
            _ => Ok(Some(UNEXPECTED)),
        }
    }
}
