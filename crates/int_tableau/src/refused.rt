//! Why a computation on lines stops.

ghost use Rattle.std.specs.Prelude.{◌≡◌};
ghost use Rattle.int_tableau.specs.declared.refused.Refused.TheVariants.{Memory};

use std::alloc::{AllocError, AllocFailed};

/// Why a computation on lines stops. Lines know nothing of the pivot that they are part of.
#[derive(Clone, Copy, PartialEq, Eq)]
pub(crate) enum Refused {
    /// A number that is formed lies outside the range from `-(2^127 - 1)` to `2^127 - 1`.
    TooWide,
    /// Memory ran out.
    Memory,
}

impl From<AllocError> for Refused {
    ghost from_gives = { λ _ refused. refused ≡ Memory };

    fn from(_: AllocError) -> Refused {
        Refused::Memory
    }
}

impl<T: Drop> From<AllocFailed<T>> for Refused {
    ghost from_gives = { λ _ refused. refused ≡ Memory };

    fn from(_: AllocFailed<T>) -> Refused {
        Refused::Memory
    }
}
