//! What guesses are made for, and how far they may go.

use certified_answers::NoAnswer;
use presolved_program::Stop;
use row_core::{Row, Var};

/// Rows in order, with all that is known of them without an elimination.
#[derive(Clone, Copy)]
pub(crate) struct NamedRows<'a> {
    /// The rows.
    pub(crate) rows: &'a [Row],
    /// For each row the variable that it defines, if it defines one.
    pub(crate) defs: &'a [Option<Var>],
    /// The variables of the rows.
    pub(crate) vars: &'a [Var],
}

/// What an answer has to keep.
#[derive(Clone, Copy)]
pub(crate) struct Limits {
    /// By how many millionths of a bound the cost of a plan may be above it.
    pub(crate) ppm: u32,
    /// How many pivots each guess may make.
    pub(crate) pivots: u64,
}

/// Why a guess comes to nothing, as the reason why a try does.
pub(crate) fn no_guess(stop: Stop) -> NoAnswer {
    match stop {
        Stop::GivenUp => NoAnswer::Nothing,
        Stop::Memory => NoAnswer::Memory,
    }
}
