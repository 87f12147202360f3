//! What is certified, and why nothing is.

ghost use Rattle.std.specs.Prelude.{◌≡◌};
ghost use Rattle.certified_answers.specs.declared.answers.NoAnswer.TheVariants.{Memory, Nothing};

use exact_num::{Frac, TooWide};
use row_core::{Multipliers, Place, Plan, Stopped};
use std::alloc::{AllocError, AllocFailed};

/// What is certified of rows, after so many pivots. The checker has said yes to all that stands here.
#[derive(Drop)]
pub enum Certified {
    /// The plan meets all rows, and no plan costs less than the bound that the multipliers prove.
    Optimal {
        plan: Plan,
        multipliers: Multipliers,
        cost: Frac,
        bound: Frac,
        pivots: u64,
    },
    /// No plan meets all rows, and the multipliers prove it.
    Infeasible {
        multipliers: Multipliers,
        pivots: u64,
    },
    /// The plan meets all rows, and along the direction it goes on doing so while the cost falls without end.
    Unbounded {
        plan: Plan,
        direction: Plan,
        pivots: u64,
    },
}

/// Why nothing is certified.
#[derive(Clone, Copy, PartialEq, Eq)]
pub enum NoAnswer {
    /// Nothing was found, or the checker doesn't accept what was.
    Nothing,
    /// A pivot is due after the last that may be made.
    Budget,
    /// A number that is formed at this place lies outside the range from `-(2^127 - 1)` to `2^127 - 1`.
    Width(Place),
    /// Memory ran out.
    Memory,
}

/// A number that doesn't fit, at no place that is told, gives nothing.
impl From<TooWide> for NoAnswer {
    ghost from_gives = { λ _ answer. answer ≡ Nothing };

    fn from(_: TooWide) -> NoAnswer {
        NoAnswer::Nothing
    }
}

impl From<AllocError> for NoAnswer {
    ghost from_gives = { λ _ answer. answer ≡ Memory };

    fn from(_: AllocError) -> NoAnswer {
        NoAnswer::Memory
    }
}

impl<T: Drop> From<AllocFailed<T>> for NoAnswer {
    ghost from_gives = { λ _ answer. answer ≡ Memory };

    fn from(_: AllocFailed<T>) -> NoAnswer {
        NoAnswer::Memory
    }
}

impl From<Stopped> for NoAnswer {
    ghost use Rattle.certified_answers.specs.Refusals.{stop_of};

    ghost from_gives = { λ stopped answer. answer ≡ stop_of stopped };

    fn from(stopped: Stopped) -> NoAnswer {
        match stopped {
            Stopped::Width(place) => NoAnswer::Width(place),
            Stopped::Memory => NoAnswer::Memory,
        }
    }
}
