//! A linear program made smaller by exact steps, for a guess: presolve, free columns removed, equations found.
//!
//! Nothing here is sure of what it gives: a checker judges what is made of it. So the contracts say that each call returns, and of small
//! steps what they give.
#![tactic(auto)]

mod access;
mod annual;
mod bounds;
mod decimals;
mod entries;
mod equalities;
mod expanding;
mod floats;
mod helpers;
mod inequalities;
mod layout;
mod lines;
mod mirrors;
mod presolve;
mod program;
mod steps;
mod stop;
mod sums;
mod trades;
mod zeros;

pub use access::{at, filled, item, put};
pub use decimals::{
    between, ceiling, decimal, digits_before, float_power, over, power, rounded_down, rounded_to,
    rounded_up, scaled, short_above, short_below,
};
pub use entries::{Entry, less_product, plus_product, quotient, whole};
pub use equalities::Equality;
pub use floats::{float_of, float_of_frac, nearest};
pub use inequalities::{Aim, Inequalities};
pub use layout::{Layout, layout_of, number_at};
pub use lines::{Line, number_in};
pub use program::{Program, prepare, prepare_rows};
pub use steps::Step;
pub use stop::Stop;
pub use trades::{Made, Merge, weighted};
