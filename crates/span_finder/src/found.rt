//! What is found, and why nothing is.

ghost use Rattle.std.specs.Prelude.{◌≡◌};
ghost use Rattle.span_finder.specs.declared.found.SpanFail.TheVariants.{Memory};

use exact_num::Frac;
use row_core::{Plan, Stopped};
use simplex_core::Stop;
use std::alloc::{AllocError, AllocFailed};

/// Between which values a variable lies in plans that cost at most a limit.
#[derive(Drop)]
pub struct Span {
    /// The least value.
    pub low: Frac,
    /// A plan in which the variable has the least value.
    pub low_plan: Plan,
    /// The greatest value, where there is one.
    pub high: Option<Frac>,
    /// A plan in which the variable has the greatest value; where there is none, a plan from which the direction leads on.
    pub high_plan: Plan,
    /// Where there is no greatest value, a direction along which a plan goes on costing at most the limit while the variable grows
    /// without end.
    pub direction: Option<Plan>,
}

/// Between which values a variable lies in plans that cost at most a limit, from a little below the least to a little above the
/// greatest.
#[derive(Drop)]
pub struct RoundedSpan {
    /// No such plan has less of the variable.
    pub low: Frac,
    /// A plan in which the variable has little more than that.
    pub low_plan: Plan,
    /// No such plan has more of the variable.
    pub high: Frac,
    /// A plan in which the variable has little less than that.
    pub high_plan: Plan,
}

/// Why no answer is found.
#[derive(Clone, Copy, PartialEq, Eq)]
pub enum SpanFail {
    /// The first step that stops does so for this reason.
    Stopped(Stop),
    /// Memory ran out.
    Memory,
}

impl From<AllocError> for SpanFail {
    ghost from_gives = { λ _ fail. fail ≡ Memory };

    fn from(_: AllocError) -> SpanFail {
        SpanFail::Memory
    }
}

impl<T: Drop> From<AllocFailed<T>> for SpanFail {
    ghost from_gives = { λ _ fail. fail ≡ Memory };

    fn from(_: AllocFailed<T>) -> SpanFail {
        SpanFail::Memory
    }
}

impl From<Stopped> for SpanFail {
    ghost use Rattle.span_finder.specs.SpanEnds.{plain_fail};

    ghost from_gives = { λ stopped fail. fail ≡ plain_fail stopped };

    fn from(stopped: Stopped) -> SpanFail {
        match stopped {
            Stopped::Width(place) => SpanFail::Stopped(Stop::Width(place)),
            Stopped::Memory => SpanFail::Memory,
        }
    }
}
