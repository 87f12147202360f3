//! The simplex method over the tableau, exact, with its cause at every end.
//!
//! The method is that of `written_method`, and the tableau that of `int_tableau`. What an end means is said of the linear program
//! alone: a plan, multipliers that bound its cost or refute its rows, a direction along which the cost falls.
#![tactic(auto)]

mod candidate;
mod choice;
mod columns;
mod ends;
mod home;
mod kept_choice;
mod kept_count;
mod kept_due;
mod kept_rounds;
mod kept_width;
mod multipliers;
mod pivoting;
mod plans;
mod progress;
mod rounds;
mod running;
mod short_choice;
mod solving;
mod stops;

pub use ends::{End, Halt, Lambda};
pub use kept_count::kept_pivots;
pub use solving::solve;
pub use stops::{Stop, TrialStop};
