//! What a check answers.

ghost use Rattle.std.specs.Prelude.{◌≡◌};
ghost use Rattle.certificate_checker.specs.Halts.{halted, verdict_of};

use exact_num::Frac;
use row_core::{Place, RowName, Var};

/// Why a check says no: the first condition that fails, with the amount by which it does.
#[derive(Clone, Copy, PartialEq, Eq)]
pub enum Rejection {
    /// The row doesn't hold: its sum and its right side differ by so much.
    Violates(RowName, Frac),
    /// The value of a variable that must be at least 0 is below 0.
    WrongSign(Var),
    /// The multiplier of a row is below 0 where the row says at least, or above 0 where it says at most.
    WrongMultiplier(RowName),
    /// The sum of multiplier times entry in the column of a variable is above the cost's number by so much; for a
    /// variable that may be negative, differs from it by so much.
    Column(Var, Frac),
    /// The cost of a direction isn't below 0.
    NotNegative,
    /// The sum of multiplier times right side isn't above 0.
    NotPositive,
    /// The cost is above the bound by so much, which is more than is allowed.
    GapPassed(Frac),
}

/// What a check answers.
#[derive(Clone, Copy, PartialEq, Eq)]
pub enum Verdict {
    /// All conditions hold: the cost, the bound, the sum or the gap.
    Yes(Frac),
    /// A condition fails: the first that does.
    No(Rejection),
    /// The first number that doesn't fit is formed at this place.
    Width(Place),
}

/// Why a check stops before its end.
#[derive(Clone, Copy, PartialEq, Eq)]
pub(crate) enum Halt {
    No(Rejection),
    Width(Place),
}

/// Yes with what was found, or why the check stopped.
pub(crate) fn verdict_of(found: Result<Frac, Halt>) -> Verdict
    ensures { result ≡ verdict_of found }
{
    match found {
        Ok(value) => Verdict::Yes(value),
        Err(halt) => halted(halt),
    }
}

/// The answer of a check that stopped.
fn halted(halt: Halt) -> Verdict
    ensures { result ≡ halted halt }
{
    match halt {
        Halt::No(rejection) => Verdict::No(rejection),
        Halt::Width(place) => Verdict::Width(place),
    }
}
