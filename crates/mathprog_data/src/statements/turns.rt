//! What every state does with a token.

ghost use Rattle.std.specs.Prelude.{◌≡◌, false, None, Option, ℕ};
ghost use Rattle.mathprog_data.specs.MachineViews.{Turned, open_in};
ghost use Rattle.mathprog_data.specs.MachineSteps.{comma};

use super::{State, StatementReader};
use crate::fault::UNEXPECTED;

impl StatementReader {
    /// Goes on to a state, in which a comma may stand or not.
    pub(super) fn go(&mut self, state: State, comma: bool) -> Option<u8>
        ensures nothing { result ≡ None }
        ensures state { self.new ≡ record self.old { state = state; comma = comma } }
    {
        self.state = state;
        self.comma = comma;
        None
    }

    /// Takes a comma, where one may stand.
    pub(super) fn take_comma(&mut self, state: State) -> Option<u8>
        ensures { Turned self.old (comma self.old.comma (open_in state (record self.old { state = state; comma = false }))) result self.new }
    {
        if self.comma {
            self.go(state, false)
        } else {
            Some(UNEXPECTED)
        }
    }
}
