//! What is certified of rows, or why nothing is: answers that the checker has said yes to, in the words of all who ask for them.
#![tactic(auto)]

mod accepting;
mod answers;
mod costs;
mod laws;

pub use accepting::{
    accepted_bound, accepted_direction, accepted_gap, accepted_plan, accepted_refutation,
};
pub use answers::{Certified, NoAnswer};
pub use costs::{Cost, Goal};
pub use laws::{multiplier_laws, plan_laws};
