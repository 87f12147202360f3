//! Why a step gives nothing.

use exact_num::TooWide;
use std::alloc::{AllocError, AllocFailed};

/// Why a step gives nothing.
#[derive(Clone, Copy, PartialEq, Eq)]
pub enum Stop {
    /// A number doesn't fit, isn't finite, or the step isn't made for such a program.
    GivenUp,
    /// Memory ran out.
    Memory,
}

impl From<AllocError> for Stop {
    fn from(_: AllocError) -> Stop {
        Stop::Memory
    }
}

impl<T: Drop> From<AllocFailed<T>> for Stop {
    fn from(_: AllocFailed<T>) -> Stop {
        Stop::Memory
    }
}

impl From<TooWide> for Stop {
    fn from(_: TooWide) -> Stop {
        Stop::GivenUp
    }
}
