//! What `check` answers over accepted data and the bytes of its other files: whether the plan that they tell meets the named
//! equations, and with multipliers how far its cost is from a bound.
//!
//! `check` makes the book of rows; then come the steps in this order: `files` (the plan and the multipliers that the bytes tell, or
//! the first rule that they break), `outcome` (what the checks come to), and `lines` (the text for it).
#![tactic(auto)]

mod accepted;
mod check;
mod files;
mod lines;
mod outcome;
mod proof;

pub use accepted::accepted_proof;
pub use check::{Claim, answer_check};
pub use proof::answer_proof;
