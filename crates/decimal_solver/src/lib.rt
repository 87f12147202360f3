//! The second attempt at a linear program: the simplex method on a grid of nine decimal places, with the checker's yes to what it
//! gives.
#![tactic(auto)]

mod attempts;
mod choosing;
mod clearing;
mod ending;
mod lines;
mod numbers;
mod pivoting;
mod running;
mod starting;
mod states;

pub use attempts::{Found, second};
