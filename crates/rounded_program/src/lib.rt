//! A smaller linear program in rounded numbers, with room for rounding; and the way from a guess at it back to exact values and
//! multipliers.
//!
//! Nothing here is sure of what it gives: a checker judges it. So the contracts say only that each call returns.
#![tactic(auto)]

mod back;
mod carried;
mod margins;
mod rounding;
mod sides;

pub use back::values_of;
pub use carried::{multipliers_of, named_multipliers};
pub use margins::{Margins, margins_for, margins_of};
pub use rounding::{Rounding, places_beside, plain_rounding};
pub use sides::{elastic_program, rounded_program};
