//! What `reduce` writes of accepted data: the smaller linear program that guesses solve, for solvers in floating point.
#![tactic(auto)]

mod reduce;
mod text;

pub use reduce::answer_reduce;
