//! Why a file isn't one of a plan or of multipliers.

ghost use Rattle.std.specs.Prelude.{◌≡◌};
ghost use Rattle.plan_files.specs.declared.faults.PlanFail.TheVariants.{Memory};

use row_core::Var;
use std::alloc::AllocError;

/// The first rule that a file breaks. Records count from 1, the header being record 1; blank lines are none.
#[derive(Clone, Copy, PartialEq, Eq)]
pub enum PlanFault {
    /// The record hasn't ten fields, or the header isn't the ten names, or isn't there.
    BadRecord(u64),
    /// The first nine fields name no variable, or no row.
    UnknownVar(u64),
    /// An earlier record is of the same variable, or row.
    Twice(u64),
    /// The tenth field isn't an exact value whose numbers are at most 2^127 - 1.
    BadValue(u64),
    /// No record is of this variable, and of each before it there is one.
    Missing(Var),
}

/// Why a file wasn't read.
#[derive(Clone, Copy, PartialEq, Eq)]
pub enum PlanFail {
    /// The file breaks a rule.
    Fault(PlanFault),
    /// Memory ran out.
    Memory,
}

impl From<AllocError> for PlanFail {
    ghost from_gives = { λ _ fail. fail ≡ Memory };

    fn from(_: AllocError) -> PlanFail {
        PlanFail::Memory
    }
}
