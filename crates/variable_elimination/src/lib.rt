//! Removes the defined variables of rows, and of the row that says what the cost is.
#![tactic(auto)]

mod cells;
mod columns;
mod costing;
mod definitions;
mod eliminating;
mod expanding;
mod laws;
mod lifting;
mod multiplying;
mod reducing;
mod values;

pub use eliminating::eliminate;
pub use laws::certificate_laws;
pub use lifting::{lift_direction, lift_plan};
pub use multiplying::lift_multipliers;
pub use written_method::Reduced;
