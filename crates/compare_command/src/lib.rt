//! What `compare` answers of the proofs of two scenarios: how their plans differ, where `check` accepts both as optima; else what `check`
//! says.
#![tactic(auto)]

mod comparing;
mod scenarios;
mod standing;

pub use comparing::answer_compare;
pub use scenarios::{Proved, Which, refuse_scenario};
