//! The named equations of an OSeMOSYS model: what a plan must meet (Howells et al., "OSeMOSYS: The Open
//! Source Energy Modeling System", Energy Policy 39, 2011). Definitions, in `specs/`, and laws about them.
#![tactic(auto)]

pub mod laws;
