//! The simplex method in rounded numbers: a guess at the optimum of a linear program, for an exact check to judge.
#![tactic(auto)]

mod at_once;
mod blocks;
mod candidates;
mod choices;
mod dual;
mod ending;
mod phases;
mod primal;
mod program;
mod ratio_test;
mod scaling;
mod shared_rows;
mod solving;
mod state;

pub use program::{Answer, Guess, LinearProgram};
pub use solving::guess;
