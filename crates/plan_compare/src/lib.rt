//! Two plans beside each other, each over its own sets: what is built otherwise, how it runs otherwise, and what it costs more. Names
//! decide which members are the same.
#![tactic(auto)]

mod amounts;
mod change;
mod changes;
mod comparison;
mod counterparts;
mod heads;
mod laws;
mod members;
mod records;
mod scenario;
mod section;
mod sections;
mod sorting;
mod sums;
mod values;

pub use amounts::difference;
pub use comparison::compare_text;
pub use heads::{at_least, at_most, push_head};
pub use laws::{least_cost_laws, order_laws};
pub use scenario::Scenario;
