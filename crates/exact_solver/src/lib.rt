//! The exact method over rows: the simplex method on what is left of them, carrying back, and the checks of all that is found.
#![tactic(auto)]

mod carrying;
mod checking;
mod solving;

pub use solving::{exact, solve_rows, stop_at};
