//! Values as whole millionths: what their six decimal places print, and rounded down and up.
#![tactic(auto)]

mod laws;
mod nearest;
mod outwards;

pub use laws::outward_laws;
pub use nearest::millionths;
pub use outwards::{millionths_down, millionths_up};
