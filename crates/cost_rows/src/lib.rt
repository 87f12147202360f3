//! The rows of investment, salvage value, operating cost and total cost: equations 25 to 34 and 40 to 42 of an OSeMOSYS
//! model (Howells et al., "OSeMOSYS: The Open Source Energy Modeling System", Energy Policy 39, 2011).
#![tactic(auto)]

mod depreciation;
mod investment;
mod operating_cost;
mod rows;
mod salvage;
mod total_cost;

pub use rows::rows_of;
