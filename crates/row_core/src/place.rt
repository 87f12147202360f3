//! Where a computation with exact numbers stops, and why.

ghost use Rattle.std.specs.Prelude.{◌≡◌};
ghost use Rattle.row_core.specs.declared.place.Stopped.TheVariants.{Memory};

use crate::{RowName, Var};
use std::alloc::{AllocError, AllocFailed};

/// A place in a computation.
#[derive(Clone, Copy, PartialEq, Eq)]
pub enum Place {
    /// The row of an equation, as it is written.
    Row(RowName),
    /// The row of an equation, as the defined variables are removed from it.
    Expand(RowName),
    /// The row of the cost, as the defined variables are removed from it.
    CostRow,
    /// The pivot of this number, counted from 1.
    Pivot(u64),
    /// The value of a variable in a plan.
    LiftPlan(Var),
    /// The multiplier of an equation.
    LiftMultiplier(RowName),
    /// The value of a variable in a direction.
    LiftDirection(Var),
    /// The check of an equation at a plan or a direction.
    Check(RowName),
    /// The check of a variable's column of multipliers.
    Column(Var),
    /// The cost of a plan or a direction.
    SumCost,
    /// The bound of multipliers.
    SumBound,
    /// The gap between cost and bound.
    SumGap,
    /// The price that goes with an equation.
    Price(RowName),
}

/// Why a computation stopped.
#[derive(Clone, Copy, PartialEq, Eq)]
pub enum Stopped {
    /// A number that is formed at this place lies outside the range from `-(2^127 - 1)` to `2^127 - 1`.
    Width(Place),
    /// Memory ran out.
    Memory,
}

impl From<AllocError> for Stopped {
    ghost from_gives = { λ _ stopped. stopped ≡ Memory };

    fn from(_: AllocError) -> Stopped {
        Stopped::Memory
    }
}

impl<T: Drop> From<AllocFailed<T>> for Stopped {
    ghost from_gives = { λ _ stopped. stopped ≡ Memory };

    fn from(_: AllocFailed<T>) -> Stopped {
        Stopped::Memory
    }
}
