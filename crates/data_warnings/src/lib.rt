//! Data that are legal and probably wrong: what each rule finds, a line a finding.
#![tactic(auto)]

mod decimals;
mod findings;
mod investments;
mod laws;
mod limits;
mod lines;
mod makers;
mod neighbours;
mod numbers;
mod places;
mod questions;
mod reach;
mod rules;
mod shares;
mod speaking;
mod storage_users;
mod sums;
mod uses;
mod values;
mod warnings;
mod wide;
mod words;
mod yearly;

pub use laws::no_plan_laws;
pub use places::{Finding, Place};
pub use questions::Question;
pub use rules::{Cost, EmissionLimit, Enabler, Frame, Limit, Pair, Rule, Series};
pub use sums::Parts;
pub use warnings::warnings_text;
pub use wide::Wide;
pub use yearly::Yearly;
