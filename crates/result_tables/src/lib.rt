//! What is printed of an answer: reports, with tables of quantities and of fuel prices.
#![tactic(auto)]

mod attempts;
mod directions;
mod laws;
mod lines;
mod prices;
mod quantities;
mod records;
mod reports;

pub use attempts::{Begun, FoundBy};
pub use directions::push_chosen_values;
pub use laws::price_laws;
pub use reports::{infeasible_report, report, unbounded_report};
