// What the words after `span` ask for.

use command_words::SolveMethod;

/// What is wanted of a variable: its span, in plans whose cost is at most so many millionths of its absolute value above the least
/// cost, or above the bound that the rounded method proves; by this method, with so many pivots at most in the search for the least cost, and in each of the two trials after it. The
/// rounded method may stay so many millionths from what it proves; where none is given, the usual gaps are tried in turn.
#[derive(Clone, Copy, PartialEq, Eq)]
pub struct Wanted {
    pub method: SolveMethod,
    pub slack: u32,
    pub gap: Option<u32>,
    pub pivots: u64,
}

/// The gaps that are tried where none is given, in millionths: ends move much more than the limit on the cost does, so that a wider gap
/// finds what a narrow one doesn't.
pub const USUAL_GAPS: [u32; 3] = [10, 100, 1_000];
