//! Why no plan exists: a few inequalities that can't be met together, each of them shown to be needed for that.
#![tactic(auto)]

mod conflict;
mod copying;
mod explaining;
mod fallback;
mod guessing;
mod listing;
mod rounding;
mod searching;
mod shrinking;
mod trial;

pub use conflict::{Conflict, ExplainFail};
pub use explaining::explain;
pub use rounding::{explain_guessed, explain_rounded};
