//! Columns that enter the basis all at once, where a guess begins from given values.
//!
//! Such values tell nothing of a plant that isn't built: its capacity is 0 but for a margin, and so is the room in the row of each of its
//! activities, whose slack is basic then. Each activity that would lower the cost wants a pivot of its own in its own row, and there are
//! as many of them as plants, years and timeslices.

use crate::choices::at_least_zero;
use crate::state::State;
use sparse_factors::at;

/// A slack of less than this is a margin or rounding.
const LEAST_ROOM: f64 = 1e-6;

/// An entry in a row, whose greatest is 1, is more than this where its column may take the place of the row's slack.
const LEAST_ENTRY: f64 = 0.01;

impl State {
    /// Puts each column whose reduced cost is below 0, in order, into the place of the slack that limits it most among the basic slacks of its rows, if
    /// that is nearly 0; whether there is one. The factors, and all that depends on them, have to be made anew then.
    pub(crate) fn enter_at_once(&mut self) -> bool {
        let mut entered = false;
        for column in 0..self.program.columns {
            if at(&self.reduced_costs, column, 0.0) < -self.tolerance
                && !self.basis.is_basic(column)
                && let Some(slot) = self.limiting_slack(column)
            {
                self.basis.retire(slot);
                self.basis.place(slot, column);
                entered = true;
            }
        }
        entered
    }

    /// The slot of the slack that limits a column most among the basic slacks of its rows, if that is nearly 0.
    fn limiting_slack(&self, column: usize) -> Option<usize> {
        let mut limiting = None;
        let mut least = LEAST_ROOM;
        for entry in self.program.by_column.list(column) {
            if entry.value > LEAST_ENTRY
                && let Some(slot) = self.basis.slot(self.basis.slack(entry.at))
            {
                let step = at_least_zero(at(&self.values, slot, 0.0)) / entry.value;
                if step < least {
                    least = step;
                    limiting = Some(slot);
                }
            }
        }
        limiting
    }
}
