// Exact fractions of 128-bit whole numbers.
#![tactic(auto)]

mod arithmetic;
mod divisor;
mod fraction;
mod laws;
mod order;
mod range;

pub use arithmetic::{add, div, mul, ratio, sub};
pub use divisor::gcd;
pub use fraction::Frac;
pub use laws::{arithmetic_laws, gcd_laws, order_laws, range_laws, step_laws, value_laws};
pub use order::cmp_frac;
pub use range::{TooWide, difference, fits, product, total};
