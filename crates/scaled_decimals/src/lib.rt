//! Numbers as decimal text: read in whole billionths and as exact fractions, and printed as fractions
//! and with six decimal places.
#![tactic(auto)]

mod inverse;
mod printing;
mod reading;

pub use inverse::inverse_laws;
pub use printing::{fraction_laws, places_laws, push_frac, push_places, round_part};
pub use reading::{DecFault, exact_value, read_decimal, rounding_laws, spelling_laws};
