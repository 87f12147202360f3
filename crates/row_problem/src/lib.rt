//! What a question is asked of: rows, what each of them defines, their variables, and the linear program that is left of them.
#![tactic(auto)]

mod aiming;
mod carrying;
mod problem;
mod sizes;

pub use aiming::aimed;
pub use carrying::{carry_direction, carry_multipliers, carry_plan};
pub use problem::{Problem, left_of};
pub use sizes::{Size, size_of};
