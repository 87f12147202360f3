// Why a command didn't come to its end.
use row_core::Place;

/// Why a command didn't come to its end, for the line that says so.
#[derive(Clone, Copy, PartialEq, Eq)]
pub enum Stop {
    /// A pivot is due after the last that may be made, of which there are so many.
    Budget(u64),
    /// A number that is formed at this place lies outside the range from `-(2^127 - 1)` to `2^127 - 1`.
    Width(Place),
    /// The trial of this number, which is at least 1, is the first of several that stopped, for this reason.
    Trial(u64, TrialStop),
}

/// Why one of several trials didn't come to its end.
#[derive(Clone, Copy, PartialEq, Eq)]
pub enum TrialStop {
    /// A pivot is due after the last of so many that a trial may make.
    Budget(u64),
    /// A number that is formed at this place lies outside the range from `-(2^127 - 1)` to `2^127 - 1`.
    Width(Place),
}
