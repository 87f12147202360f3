//! What the numbers of a plan's report mean: every quantity is a sum over what is chosen, and the price of a fuel
//! says what more of it costs. Definitions, in `specs/`, and laws about them.
#![tactic(auto)]

pub mod laws;
