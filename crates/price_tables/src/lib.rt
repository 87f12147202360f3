//! What limits and fuels cost, as CSV text: by the multipliers of a proof, the price of each row of a limit and of each balance of
//! a fuel.
#![tactic(auto)]

mod amounts;
mod records;
mod shown;
mod tables;

pub use shown::{PriceTable, price_table_named};
pub use tables::price_text;
