//! A guess of plan and multipliers in numbers of limited accuracy, rounded to short decimals, carried back exactly to all rows
//! of a problem, and given to the checker, whose yes alone decides.
#![tactic(auto)]

mod asked;
mod carried_back;
mod certifying;
mod costless;
mod guesses;
mod limit;
mod plans;
mod raising;
mod refuting;
mod room;
mod short_numbers;
mod short_tries;
mod sizes;
mod solving;
mod starting;
mod tries;

pub use guesses::{Guess, GuessedOptimum, guess_multipliers, guess_optimum, guess_values};
pub use short_tries::guessed_rows;
pub use solving::guessed;
pub use starting::starting_values;
pub use tries::TRIES;
