//! The tables that a page of results is drawn from, one after another: of the data, of a plan and of its prices; of a direction along which the
//! cost falls; or of the sets alone, where there is no plan.
#![tactic(auto)]

mod lists;
mod named;
mod texts;

pub use texts::{Source, plan_tables, proof_tables};
