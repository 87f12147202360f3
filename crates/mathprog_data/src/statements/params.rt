//! The statement of a parameter up to its records.

ghost use Rattle.std.specs.Prelude.{◌≡◌, ◌+◌, ◌<◌, ◌^◌, IfOk, OnOk, List, ℕ, false, true, Option, None, Some};
ghost use Rattle.mathprog_data.specs.MachineStates.{Emit, Begins, InRecords, ParamNamed, TabbingNamed};
ghost use Rattle.mathprog_data.specs.DraftViews.{draft_view};
ghost use Rattle.mathprog_data.specs.MachineViews.{Turned, form_view, reader_view};
ghost use Rattle.mathprog_data.specs.MachineSteps.{in_records, param_name, param_read, param_named, default_read, leading_default, leading_number, tabbing_colon, tabbing_named, reader};
ghost use Rattle.model_sets.specs.Names.{set_number};
ghost use Rattle.model_sets.specs.Params.{subscript_count, param_number};
ghost use Rattle.mathprog_data.specs.Slices.{all_free};
ghost use Rattle.mathprog_data.specs.Statements.{Listed, ParamBegun, TabbingBegun};
ghost use Rattle.mathprog_data.specs.SymbolViews.{seen_view, name_in};

use super::seen::{Seen, Symbol};
use super::slices::all_free;
use super::{State, StatementReader};
use crate::blocks::Mark;
use crate::fault::{BAD_NUMBER, GIVEN_TWICE, TABBING, UNEXPECTED, UNKNOWN_NAME};
use crate::lexeme::Sign;
use crate::subscripts::subscripts_of;
use crate::words::Word;
use model_sets::{param_number, set_number};
use std::alloc::AllocError;

impl StatementReader {
    /// Begins records with every subscript free.
    fn free_all(&mut self, tabbing: bool, comma: bool) -> Result<(), AllocError>
        ensures { OnOk result (reader_view self.new ≡ reader (InRecords (form_view tabbing) self.old.item (all_free (subscript_count self.old.item)) comma) (draft_view self.old.draft)) }
    {
        self.slice = all_free(self.alloc, subscripts_of(self.item))?;
        self.tabbing = tabbing;
        self.comma = comma;
        self.state = State::InRecords;
        Ok(())
    }

    /// Takes what follows `param`.
    pub(super) fn param_read(&mut self, seen: Seen) -> Result<Option<u8>, AllocError>
        ensures { IfOk result (λ fault. Turned self.old (param_read (seen_view seen.entry)) fault self.new) }
    {
        match seen {
            Seen::Sign(Sign::Colon) => {
                self.leading = None;
                Ok(self.go(State::TabbingColon, false))
            }
            Seen::Symbol(symbol) => match symbol.word() {
                Word::Default => Ok(self.go(State::LeadingDefault, false)),
                _ => self.first_name(symbol),
            },
            _ => Ok(Some(UNEXPECTED)),
        }
    }

    /// Takes the name of a parameter.
    fn first_name(&mut self, symbol: Symbol) -> Result<Option<u8>, AllocError>
        ensures { IfOk result (λ fault. Turned self.old (param_name (param_number (name_in symbol.entry)) (set_number (name_in symbol.entry))) fault self.new) }
    {
        let name = symbol.name(self.alloc)?;
        match param_number(name.bytes()) {
            Some(param) => Ok(self.name_param(param)),
            None => match set_number(name.bytes()) {
                Some(_) => Ok(Some(UNEXPECTED)),
                None => Ok(Some(UNKNOWN_NAME)),
            },
        }
    }

    /// Begins the statement of this parameter.
    fn name_param(&mut self, param: u8) -> Option<u8>
        ensures { Turned self.old (Emit (Begins (ParamBegun param)) (ParamNamed param true)) result self.new }
    {
        if self.draft.has_param(param) {
            Some(GIVEN_TWICE)
        } else {
            self.item = param;
            self.go(State::ParamNamed, true)
        }
    }

    /// Takes what follows the name of a parameter.
    pub(super) fn param_named(&mut self, seen: Seen, at: Mark) -> Result<Option<u8>, AllocError>
        requires { self.old.draft.rounded + 1 < 2 ^ 64 }
        ensures { IfOk result (λ fault. Turned self.old (param_named self.old.item self.old.comma (seen_view seen.entry) at) fault self.new) }
    {
        match seen {
            Seen::Sign(Sign::Comma) => Ok(self.take_comma(State::ParamNamed)),
            Seen::Symbol(symbol) => match symbol.word() {
                Word::Default => Ok(self.go(State::DefaultRead, false)),
                _ => self.first_record(seen, at),
            },
            _ => self.first_record(seen, at),
        }
    }

    /// Takes the first token of the records.
    fn first_record(&mut self, seen: Seen, at: Mark) -> Result<Option<u8>, AllocError>
        requires { self.old.draft.rounded + 1 < 2 ^ 64 }
        ensures { IfOk result (λ fault. Turned self.old (in_records Listed self.old.item (all_free (subscript_count self.old.item)) false (seen_view seen.entry) at) fault self.new) }
    {
        self.slice = all_free(self.alloc, subscripts_of(self.item))?;
        self.tabbing = false;
        self.comma = false;
        self.in_records(seen, at)
    }

    /// Takes what follows `default`.
    pub(super) fn default_read(&mut self, seen: Seen) -> Result<Option<u8>, AllocError>
        requires { self.old.draft.rounded + 1 < 2 ^ 64 }
        ensures { IfOk result (λ fault. Turned self.old (default_read self.old.item (seen_view seen.entry)) fault self.new) }
    {
        match seen {
            Seen::Symbol(symbol) => match symbol.number() {
                Some(number) => {
                    self.draft.give_default(Some(number));
                    self.free_all(false, true)?;
                    Ok(None)
                }
                None => Ok(Some(BAD_NUMBER)),
            },
            _ => Ok(Some(UNEXPECTED)),
        }
    }

    /// Takes what follows `param default`.
    pub(super) fn leading_default(&mut self, seen: Seen) -> Option<u8>
        ensures { Turned self.old (leading_default (seen_view seen.entry)) result self.new }
    {
        match seen {
            Seen::Symbol(symbol) => match symbol.number() {
                Some(number) => {
                    self.leading = Some(number);
                    self.go(State::LeadingNumber, true)
                }
                None => Some(BAD_NUMBER),
            },
            _ => Some(UNEXPECTED),
        }
    }

    /// Takes what follows the default before the colon of tabbing data.
    pub(super) fn leading_number(&mut self, seen: Seen) -> Option<u8>
        ensures { Turned self.old (leading_number self.old.leading self.old.comma (seen_view seen.entry)) result self.new }
    {
        match seen {
            Seen::Sign(Sign::Colon) => self.go(State::TabbingColon, false),
            Seen::Sign(Sign::Comma) => self.take_comma(State::LeadingNumber),
            _ => Some(UNEXPECTED),
        }
    }

    /// Takes what follows the colon of tabbing data.
    pub(super) fn tabbing_colon(&mut self, seen: Seen) -> Result<Option<u8>, AllocError>
        requires { self.old.draft.rounded + 1 < 2 ^ 64 }
        ensures { IfOk result (λ fault. Turned self.old (tabbing_colon self.old.leading (seen_view seen.entry)) fault self.new) }
    {
        match seen {
            Seen::Symbol(symbol) => {
                let name = symbol.name(self.alloc)?;
                match param_number(name.bytes()) {
                    Some(param) => Ok(self.name_tabbed(param)),
                    None => match set_number(name.bytes()) {
                        Some(_) => Ok(Some(UNEXPECTED)),
                        None => Ok(Some(UNKNOWN_NAME)),
                    },
                }
            }
            _ => Ok(Some(UNEXPECTED)),
        }
    }

    /// Begins the statement of this parameter in tabbing data.
    fn name_tabbed(&mut self, param: u8) -> Option<u8>
        requires { self.old.draft.rounded + 1 < 2 ^ 64 }
        ensures { Turned self.old (Emit (Begins (TabbingBegun param self.old.leading)) (TabbingNamed param true)) result self.new }
    {
        if self.draft.has_param(param) {
            Some(GIVEN_TWICE)
        } else {
            self.item = param;
            self.draft.give_default(self.leading);
            self.go(State::TabbingNamed, true)
        }
    }

    /// Takes what follows the name in tabbing data.
    pub(super) fn tabbing_named(&mut self, seen: Seen) -> Result<Option<u8>, AllocError>
        ensures { IfOk result (λ fault. Turned self.old (tabbing_named self.old.item self.old.comma (seen_view seen.entry)) fault self.new) }
    {
        match seen {
            Seen::Sign(Sign::Gives) => {
                self.free_all(true, false)?;
                Ok(None)
            }
            Seen::Sign(Sign::Comma) => Ok(self.take_comma(State::TabbingNamed)),
            Seen::Sign(Sign::Colon) => Ok(Some(TABBING)),
            Seen::Symbol(_) => Ok(Some(TABBING)),
            _ => Ok(Some(UNEXPECTED)),
        }
    }
}
