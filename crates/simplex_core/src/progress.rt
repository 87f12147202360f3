//! The state between two pivots.

ghost use Rattle.std.specs.Prelude.{◌≡◌, IfOk};
ghost use Rattle.written_method.specs.FirstTableau.{first_phase, first_state};
ghost use Rattle.written_method.specs.Programs.{program_of};
ghost use Rattle.written_method.specs.Ready.{IsReady};
ghost use Rattle.simplex_core.specs.Views.{phase_seen, state_seen};

use int_tableau::Tableau;
use std::alloc::{AllocError, Global};
use written_method::Reduced;

/// The phases of the method.
#[derive(Clone, Copy, PartialEq, Eq)]
pub(crate) enum Phase {
    /// x0 is still to be taken in.
    Start,
    /// x0 is basic.
    One,
    /// There is no x0.
    Two,
}

/// What is due.
#[derive(Clone, Copy)]
pub(crate) enum Due {
    /// A pivot in this row and this column.
    Pivot(usize, usize),
    /// No column can enter.
    NoColumn,
    /// No row can leave for this column.
    NoRow(usize),
}

/// A state between two pivots.
#[derive(Drop)]
pub(crate) struct Progress {
    /// The tableau, which counts its pivots.
    pub(crate) tableau: Tableau,
    pub(crate) phase: Phase,
    /// How many degenerate pivots followed one another, over both phases.
    pub(crate) degenerate: u64,
}

/// The phase with which the method begins.
fn first_phase(there: bool) -> Phase
    ensures { phase_seen result ≡ first_phase there }
{
    if there { Phase::Start } else { Phase::Two }
}

impl Progress {
    /// The state with which the method begins.
    pub(crate) fn begin(alloc: Global, reduced: &Reduced) -> Result<Progress, AllocError>
        requires { IsReady reduced.now }
        ensures { IfOk result (λ s. state_seen s ≡ first_state (program_of reduced.now)) }
    {
        let tableau = Tableau::new(alloc, reduced)?;
        let phase = first_phase(tableau.has_x0());
        Ok(Progress {
            tableau,
            phase,
            degenerate: 0,
        })
    }
}
