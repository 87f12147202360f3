//! Places, and what is found there.

use crate::rules::Rule;

/// The positions of the members of which a rule speaks, in the sets of its frame. Each is 0 where the frame has no set.
#[derive(Clone, Copy, PartialEq, Eq)]
pub struct Place {
    pub first: u16,
    pub second: u16,
    pub third: u16,
    /// Most often the year.
    pub last: u16,
}

/// What a rule finds of some members: the place with the first member of the last set, as the first year, with which it speaks, with
/// how many more it does, and two numbers in billionths: the one that is odd, and the one beside which it is, or 0 where there is none.
#[derive(Clone, Copy, PartialEq, Eq)]
pub struct Finding {
    pub rule: Rule,
    pub place: Place,
    pub more: usize,
    pub number: i128,
    pub other: i128,
}
