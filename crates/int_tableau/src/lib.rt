//! The tableau of the simplex method over whole numbers of 128 bits, with only its entries other than 0.
//!
//! A tableau counts its pivots. Its rows are those that the written method has (`written_method`), number by number.
#![tactic(auto)]

mod entries;
mod entry_list;
mod line;
mod marks;
mod merging;
mod narrow;
mod narrow_division;
mod narrow_merging;
mod numbers;
mod refused;
mod room;
mod short_numbers;
mod sizes;
mod starting;
mod tableau;

pub use merging::difference;
pub use narrow::is_narrow;
pub use narrow_merging::short_difference;
pub use short_numbers::ShortNumbers;
pub use starting::{as_most, column_after, is_split};
pub use tableau::Tableau;
