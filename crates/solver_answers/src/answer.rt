//! What a file gives to start from, and why it gives nothing.

ghost use Rattle.std.specs.Prelude.{◌≡◌};
ghost use Rattle.solver_answers.specs.declared.answer.AnswerFail.TheVariants.{Memory};

use crate::start::StartValues;
use std::alloc::AllocError;

/// What a file gives.
#[derive(Drop)]
pub enum Answer {
    /// The solver found no plan: it says that there is none, that the cost has no least value, or that it gave up without values.
    NoStart,
    /// Values of the variables.
    Start(StartValues),
}

/// Why a file wasn't read.
#[derive(Clone, Copy, PartialEq, Eq)]
pub enum AnswerFail {
    /// The first line that breaks the form of the file, counted from 1; of a CSV file the first such record, the header being
    /// record 1. Where the text ends too early it is the line after the last.
    Fault(u64),
    /// Memory ran out.
    Memory,
}

impl From<AllocError> for AnswerFail {
    ghost from_gives = { λ _ fail. fail ≡ Memory };

    fn from(_: AllocError) -> AnswerFail {
        AnswerFail::Memory
    }
}
