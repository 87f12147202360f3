//! What the rows of an OSeMOSYS model are made of (Howells et al., "OSeMOSYS: The Open Source Energy Modeling System",
//! Energy Policy 39, 2011): its variables, its parameters as fractions, the conditions on which equations stand, its years
//! and written factors, and the rows of the shapes that many equations share.
#![tactic(auto)]

pub mod factors;
mod indices;
pub mod limits;
pub mod parameters;
pub mod ratios;
pub mod shapes;
pub mod whole_numbers;
pub mod years;

pub use indices::ORIGIN;
