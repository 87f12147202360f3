//! What a limit on the emissions of the model period costs: the least cost at the limit, and the slope of a line that lies below the
//! cost of every plan at every other limit.
#![tactic(auto)]

mod exact;
mod point;
mod rounding;
mod slope;

pub use exact::solve_limit;
pub use point::Point;
pub use rounding::round_limit;
