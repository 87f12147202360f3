//! The rows of demand, energy balance and accounting: equations 1 and 7 to 24 of an OSeMOSYS model (Howells et
//! al., "OSeMOSYS: The Open Source Energy Modeling System", Energy Policy 39, 2011).
#![tactic(auto)]

mod accounting;
mod demand;
mod flows;
mod production;
mod rows;
mod timeslices;
mod years;

pub use rows::rows_of;
