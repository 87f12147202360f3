//! The rows of limits, reserve margin and renewable target: equations 43 to 60 of an OSeMOSYS model (Howells et al.,
//! "OSeMOSYS: The Open Source Energy Modeling System", Energy Policy 39, 2011).
#![tactic(auto)]

mod activity;
mod limits;
mod renewable_target;
mod reserve_margin;
mod rows;

pub use rows::rows_of;
