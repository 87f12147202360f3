//! All rounds.

ghost use Rattle.std.specs.Prelude.{◌≡◌, length, Some, IfOk, IfErr};
ghost use Rattle.decimal_solver.specs.Rounds.{run};
ghost use Rattle.decimal_solver.specs.Views.{IsNothing, state_seen};

use crate::choosing::due;
use crate::pivoting::after;
use crate::states::{Due, State};
use certified_answers::NoAnswer;
use std::alloc::Global;

/// The state in which no column can enter any more, with so many pivots at most.
pub(crate) fn run(alloc: Global, first: State, pivots: u64) -> Result<State, NoAnswer>
    requires none_made { first.pivots ≡ 0 }
    requires degenerate { first.degenerate ≡ 0 }
    ensures value { IfOk result (λ last. run pivots (state_seen first) ≡ Some (state_seen last)) }
    ensures nothing { IfErr result (IsNothing (run pivots (state_seen first))) }
    ensures counted { IfOk result (λ last. length last.rows.items ≡ length first.rows.items) }
    ensures slack { IfOk result (λ last. last.slack ≡ first.slack) }
{
    let mut state = first;
    'rounds: loop {
        match due(&state) {
            Due::Optimal => return Ok(state),
            Due::Stuck => return Err(NoAnswer::Nothing),
            Due::Pivot(row, column) => {
                if state.pivots >= pivots {
                    return Err(NoAnswer::Nothing);
                }
                state = after(alloc, state, row, column)?;
            }
        }
    }
}
