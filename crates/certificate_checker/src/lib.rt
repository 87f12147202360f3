//! Checks of plans, and of what proves a bound, that there is no plan, or that there is no bound, over rows alone.
//!
//! A check shares nothing with the program that found the plan or the multipliers: its yes is true of all plans, by
//! linear programming duality.
#![tactic(auto)]

mod bounds;
mod columns;
mod costs;
mod gaps;
mod laws;
mod multipliers;
mod numbers;
mod plans;
mod values;
mod verdicts;

pub use bounds::{check_bound, check_infeasible};
pub use costs::CostNumbers;
pub use gaps::check_gap;
pub use laws::{bound_laws, denominator_laws, direction_laws, infeasible_laws};
pub use plans::{check_direction, check_plan};
pub use verdicts::{Rejection, Verdict};
