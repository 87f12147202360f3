//! Records, and plain data.

ghost use Rattle.std.specs.Prelude.{◌≡◌, ◌+◌, ◌<◌, ◌^◌, IfOk, Some, pos, false, nat_eq, if◌then◌else◌};
ghost use Rattle.mathprog_data.specs.MachineStates.{SignSeen};
ghost use Rattle.model_sets.specs.Params.{results_path};
ghost use Rattle.mathprog_data.specs.Statements.{Listed};
ghost use Rattle.mathprog_data.specs.MachineSteps.{in_records, in_plain, plain, plain_value};
ghost use Rattle.mathprog_data.specs.MachineViews.{Turned, form_view};
ghost use Rattle.mathprog_data.specs.SymbolViews.{seen_view, name_in, number_in};

use super::seen::{Seen, Symbol};
use super::slices::free_count;
use super::{State, StatementReader};
use crate::blocks::Mark;
use crate::fault::{BAD_NUMBER, UNEXPECTED};
use crate::lexeme::Sign;
use model_sets::param_numbers::RESULTS_PATH;
use std::alloc::AllocError;

impl StatementReader {
    /// Takes a token where a record may begin.
    pub(super) fn in_records(&mut self, seen: Seen, at: Mark) -> Result<Option<u8>, AllocError>
        requires { self.old.draft.rounded + 1 < 2 ^ 64 }
        ensures { IfOk result (λ fault. Turned self.old (in_records (form_view self.old.tabbing) self.old.item self.old.slice.items self.old.comma (seen_view seen.entry) at) fault self.new) }
    {
        match seen {
            Seen::Sign(Sign::Semicolon) => {
                self.draft.close_param(self.item)?;
                Ok(self.go(State::Between, false))
            }
            Seen::Sign(Sign::Comma) => Ok(self.take_comma(State::InRecords)),
            Seen::Sign(sign) => {
                if self.tabbing {
                    Ok(Some(UNEXPECTED))
                } else {
                    Ok(self.begin_record(sign))
                }
            }
            Seen::Empty => Ok(Some(UNEXPECTED)),
            Seen::Symbol(symbol) => {
                self.mark = at;
                self.left = free_count(&self.slice);
                self.names.clear();
                self.plain(symbol)
            }
        }
    }

    /// Takes a sign, no semicolon and no comma, where any record may begin.
    fn begin_record(&mut self, sign: Sign) -> Option<u8>
        requires semicolon { sign ≡ Sign.Semicolon → ⊥ }
        requires comma { sign ≡ Sign.Comma → ⊥ }
        ensures { (at : Mark) → Turned self.old (in_records Listed self.old.item self.old.slice.items self.old.comma (SignSeen sign) at) result self.new }
    {
        match sign {
            Sign::Gives => {
                self.tabbing = false;
                self.go(State::InRecords, false)
            }
            Sign::OpenBracket => self.open_slice(),
            Sign::Colon => self.open_table(),
            Sign::OpenParen => self.open_paren(),
            _ => Some(UNEXPECTED),
        }
    }

    /// Takes a token after a subscript of plain data.
    pub(super) fn in_plain(&mut self, seen: Seen) -> Result<Option<u8>, AllocError>
        requires { self.old.draft.rounded + 1 < 2 ^ 64 }
        ensures { IfOk result (λ fault. Turned self.old (in_plain (form_view self.old.tabbing) self.old.item self.old.slice.items self.old.names.items self.old.mark self.old.left self.old.comma (seen_view seen.entry)) fault self.new) }
    {
        match seen {
            Seen::Sign(Sign::Comma) => Ok(self.take_comma(State::InPlain)),
            Seen::Symbol(symbol) => self.plain(symbol),
            _ => Ok(Some(UNEXPECTED)),
        }
    }

    /// Takes a symbol of plain data.
    #[inline(always)]
    fn plain(&mut self, symbol: Symbol) -> Result<Option<u8>, AllocError>
        requires { self.old.draft.rounded + 1 < 2 ^ 64 }
        ensures { IfOk result (λ fault. Turned self.old (plain (form_view self.old.tabbing) self.old.item self.old.slice.items self.old.names.items self.old.mark self.old.left (name_in symbol.entry) (number_in symbol.entry)) fault self.new) }
    {
        if self.left == 0 {
            return self.plain_value(symbol);
        }
        let name = symbol.name(self.alloc)?;
        self.names.push(name)?;
        self.left -= 1;
        Ok(self.go(State::InPlain, true))
    }

    /// Takes the value of plain data.
    #[inline(always)]
    fn plain_value(&mut self, symbol: Symbol) -> Result<Option<u8>, AllocError>
        requires { self.old.draft.rounded + 1 < 2 ^ 64 }
        ensures { IfOk result (λ fault. Turned self.old (plain_value (form_view self.old.tabbing) self.old.item self.old.slice.items self.old.names.items self.old.mark (number_in symbol.entry)) fault self.new) }
    {
        match value_of(self.item, symbol) {
            None => Ok(Some(BAD_NUMBER)),
            Some(number) => {
                self.draft
                    .give_plain(&self.slice, &self.names, number, self.mark)?;
                Ok(self.go(State::InRecords, true))
            }
        }
    }
}

/// The value of a parameter that a symbol is: 0 for ResultsPath.
#[inline(always)]
fn value_of(param: u8, symbol: Symbol) -> Option<(i128, bool)>
    ensures { result ≡ (if nat_eq param results_path then Some (pos 0, false) else number_in symbol.entry) }
{
    if param == RESULTS_PATH {
        Some((0, false))
    } else {
        symbol.number()
    }
}
