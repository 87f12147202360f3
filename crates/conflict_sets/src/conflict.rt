//! What is found, and why nothing is.

ghost use Rattle.std.specs.Prelude.{◌≡◌};
ghost use Rattle.conflict_sets.specs.declared.conflict.ExplainFail.TheVariants.{Memory};

use exact_num::Frac;
use row_core::{Plan, RowName};
use simplex_core::Stop;
use std::alloc::{AllocError, AllocFailed};

/// Inequalities that no plan with right signs meets together with all equations, where each of them is needed for that.
#[derive(Drop)]
pub struct Conflict {
    /// The inequalities, in the order of rows, each with its multiplier, which isn't 0. With some multipliers of the equations these
    /// refute them.
    pub members: Vec<(RowName, Frac)>,
    /// For each inequality, at its place, a plan that meets all equations and all the other inequalities of the list.
    pub plans: Vec<Plan>,
}

/// Why no answer is found.
#[derive(Clone, Copy, PartialEq, Eq)]
pub enum ExplainFail {
    /// A trial stops for this reason: by the exact method the first one that does.
    Stopped(Stop),
    /// Memory ran out.
    Memory,
}

impl From<AllocError> for ExplainFail {
    ghost from_gives = { λ _ fail. fail ≡ Memory };

    fn from(_: AllocError) -> ExplainFail {
        ExplainFail::Memory
    }
}

impl<T: Drop> From<AllocFailed<T>> for ExplainFail {
    ghost from_gives = { λ _ fail. fail ≡ Memory };

    fn from(_: AllocFailed<T>) -> ExplainFail {
        ExplainFail::Memory
    }
}
