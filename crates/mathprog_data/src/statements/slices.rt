//! Slices.

ghost use Rattle.std.specs.Prelude.{◌≡◌, IfOk};
ghost use Rattle.mathprog_data.specs.MachineStates.{SignSeen};
ghost use Rattle.mathprog_data.specs.MachineSteps.{bracket, place_due, place_read};
ghost use Rattle.mathprog_data.specs.MachineViews.{Turned};
ghost use Rattle.model_sets.specs.Params.{subscript_count};
ghost use Rattle.mathprog_data.specs.Slices.{all_free, free_count};
ghost use Rattle.mathprog_data.specs.SymbolViews.{seen_view};

use super::seen::Seen;
use super::{State, StatementReader};
use crate::blocks::Name;
use crate::fault::{UNEXPECTED, WRONG_SLICE};
use crate::lexeme::Sign;
use crate::subscripts::subscripts_of;
use std::alloc::{AllocError, Global};

/// The slice in which these many subscripts are free.
pub(super) fn all_free(alloc: Global, count: u8) -> Result<Vec<Option<Name>>, AllocError>
    ensures { IfOk result (λ slice. slice.items ≡ all_free count) }
{
    let mut slice = Vec::with_capacity(alloc, count as usize)?;
    for _ in 0..count {
        slice.push(None)?;
    }
    Ok(slice)
}

/// How many subscripts are free.
pub(super) fn free_count(slice: &[Option<Name>]) -> usize
    ensures { result ≡ free_count slice.now }
{
    let mut count = 0;
    for place in slice {
        if place.is_none() {
            count += 1;
        }
    }
    count
}

impl StatementReader {
    /// Takes the opening bracket of a slice.
    pub(super) fn open_slice(&mut self) -> Option<u8>
        ensures { Turned self.old (bracket self.old.item (subscript_count self.old.item)) result self.new }
    {
        let count = subscripts_of(self.item);
        if count == 0 {
            return Some(WRONG_SLICE);
        }
        self.slice = Vec::new(self.alloc);
        self.left = count as usize - 1;
        self.go(State::PlaceDue, false)
    }

    /// Takes a place of a slice.
    pub(super) fn place_due(&mut self, seen: Seen) -> Result<Option<u8>, AllocError>
        ensures { IfOk result (λ fault. Turned self.old (place_due self.old.item self.old.slice.items self.old.left (seen_view seen.entry)) fault self.new) }
    {
        match seen {
            Seen::Sign(Sign::Star) => {
                self.slice.push(None)?;
                Ok(self.go(State::PlaceRead, false))
            }
            Seen::Sign(Sign::CloseBracket) => Ok(Some(WRONG_SLICE)),
            Seen::Symbol(symbol) => {
                let name = symbol.name(self.alloc)?;
                self.slice.push(Some(name))?;
                Ok(self.go(State::PlaceRead, false))
            }
            _ => Ok(Some(UNEXPECTED)),
        }
    }

    /// Takes what follows a place of a slice.
    pub(super) fn place_read(&mut self, seen: Seen) -> Option<u8>
        ensures { Turned self.old (place_read self.old.item self.old.slice.items self.old.left (seen_view seen.entry)) result self.new }
    {
        match seen {
            Seen::Sign(Sign::CloseBracket) => self.close_slice(),
            Seen::Sign(Sign::Comma) => self.next_place(),
            _ => Some(UNEXPECTED),
        }
    }

    /// Takes the closing bracket of a slice.
    fn close_slice(&mut self) -> Option<u8>
        ensures { Turned self.old (place_read self.old.item self.old.slice.items self.old.left (SignSeen Sign.CloseBracket)) result self.new }
    {
        if self.left > 0 {
            return Some(WRONG_SLICE);
        }
        self.tabbing = false;
        self.go(State::InRecords, true)
    }

    /// Takes a comma of a slice.
    fn next_place(&mut self) -> Option<u8>
        ensures { Turned self.old (place_read self.old.item self.old.slice.items self.old.left (SignSeen Sign.Comma)) result self.new }
    {
        if self.left == 0 {
            return Some(WRONG_SLICE);
        }
        self.left -= 1;
        self.go(State::PlaceDue, false)
    }
}
