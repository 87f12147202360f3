//! The steps of the solver's method over plain lists of unbounded whole numbers, each with the numbers that it forms.
//!
//! The definitions stand in `specs/`, and what they say of a linear program in `proofs/`. The code is one type, the linear program
//! that is solved.
#![tactic(auto)]

mod reduced;

pub use reduced::Reduced;
