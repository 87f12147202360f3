//! What follows where no guess is accepted, and why trials by guesses come to no answer.

ghost use Rattle.std.specs.Prelude.{◌≡◌};
ghost use Rattle.conflict_sets.specs.declared.conflict.ExplainFail.TheVariants.{Memory};
ghost use Rattle.conflict_sets.specs.declared.fallback.Halt.TheVariants.{Failed};
ghost use Rattle.conflict_sets.specs.Halts.{IsHaltOf};
ghost use Rattle.conflict_sets.specs.Walks.{IsFirstFail, IsTrialFail};

use crate::conflict::ExplainFail;
use crate::explaining::first_fail;
use crate::searching::trial_fail;
use certified_answers::NoAnswer;
use std::alloc::AllocError;

/// What follows in a trial of which no guess is accepted.
#[derive(Clone, Copy, PartialEq, Eq)]
pub(crate) enum Fallback {
    /// The exact method makes the trial.
    Exact,
    /// Nothing does, and there is no answer.
    Nothing,
}

/// Why there is no answer.
#[derive(Clone, Copy, PartialEq, Eq)]
pub(crate) enum Halt {
    /// In some trial no guess is accepted, and nothing follows.
    Unguessed,
    /// The exact method stops in a trial, or memory ran out.
    Failed(ExplainFail),
}

impl From<AllocError> for Halt {
    ghost from_gives = { λ _ halt. halt ≡ Failed Memory };

    fn from(_: AllocError) -> Halt {
        Halt::Failed(ExplainFail::Memory)
    }
}

/// Why the first trial, which has every inequality, came to nothing.
pub(crate) fn first_halt(stop: NoAnswer, pivots: u64) -> Halt
    ensures { IsHaltOf (IsFirstFail pivots) stop result }
{
    match stop {
        NoAnswer::Nothing => Halt::Unguessed,
        stop => Halt::Failed(first_fail(stop, pivots)),
    }
}

/// Why the trial of this number came to nothing.
pub(crate) fn trial_halt(stop: NoAnswer, trial: u64, pivots: u64) -> Halt
    ensures { IsHaltOf (IsTrialFail trial pivots) stop result }
{
    match stop {
        NoAnswer::Nothing => Halt::Unguessed,
        stop => Halt::Failed(trial_fail(stop, trial, pivots)),
    }
}
