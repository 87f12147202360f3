//! The sets of an OSeMOSYS model: their members, in the order of the file, by name and by position.
//!
//! A set goes by its number: 1 REGION, 2 TECHNOLOGY, 3 FUEL, 4 EMISSION, 5 MODE_OF_OPERATION,
//! 6 TIMESLICE, 7 YEAR, 8 STORAGE, 9 SEASON, 10 DAYTYPE, 11 DAILYTIMEBRACKET (the sets of the OSeMOSYS
//! long code, Howells et al., Energy Policy 2011). A member goes by its position, which counts from 0.
#![tactic(auto)]

mod fault;
mod laws;
mod limits;
mod member_list;
pub mod param_numbers;
pub mod params;
pub mod set_numbers;
mod set_words;
mod sets;
mod years;

pub use fault::{SetFail, SetFault};
pub use laws::year_laws;
pub use params::{
    Range, Use, is_used, param_number, param_word, range_of, subscript_count, subscript_sets,
};
pub use set_words::{set_number, set_word};
pub use sets::Sets;
