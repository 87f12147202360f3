//! Why a member or a set is refused.

ghost use Rattle.std.specs.Prelude.{◌≡◌};
ghost use Rattle.model_sets.specs.declared.fault.SetFail.TheVariants.{Memory};

use std::alloc::AllocError;

/// A name stands twice in its set.
pub(crate) const TWICE_IN_SET: u8 = 1;

/// A set that must have a member has none.
pub(crate) const EMPTY_SET: u8 = 2;

/// A member of YEAR isn't a whole number from 1 to 9999 written without sign and without leading zeros.
pub(crate) const BAD_YEAR: u8 = 3;

/// A set has its greatest number of members already.
pub(crate) const TOO_MANY: u8 = 4;

/// A refusal, with the number of its set. `no` is 1 for a name that stands twice in its set, 2 for a set
/// without members that must have one, 3 for a member of YEAR that is no year, and 4 for too many members.
#[derive(Clone, Copy, PartialEq, Eq, Debug)]
pub struct SetFault {
    pub no: u8,
    pub set: u8,
}

/// Why a member wasn't added.
#[derive(Clone, Copy, PartialEq, Eq, Debug)]
pub enum SetFail {
    /// A rule on the members refuses it.
    Fault(SetFault),
    /// There is no memory for it.
    Memory,
}

impl From<AllocError> for SetFail {
    ghost from_gives = { λ _ fail. fail ≡ Memory };

    fn from(_: AllocError) -> SetFail {
        SetFail::Memory
    }
}
