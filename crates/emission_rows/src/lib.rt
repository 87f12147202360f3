//! The rows of emissions, their penalties and their limits: equations 35 to 39 and 61 to 64 of an OSeMOSYS model (Howells
//! et al., "OSeMOSYS: The Open Source Energy Modeling System", Energy Policy 39, 2011).
#![tactic(auto)]

mod regions;
mod rows;
mod technologies;

pub use rows::rows_of;
