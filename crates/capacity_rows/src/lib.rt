//! The rows of capacity adequacy: equations 2 to 6 of an OSeMOSYS model (Howells et al., "OSeMOSYS: The
//! Open Source Energy Modeling System", Energy Policy 39, 2011).
#![tactic(auto)]

mod capacity;
mod rows;

pub use rows::rows_of;
