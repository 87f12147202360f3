//! The data of a model as tables in CSV text: the members of its sets, what the money of a year is worth, and of each used parameter the
//! values that say something, with the columns of otoole's files.
#![tactic(auto)]

mod cells;
mod columns;
mod names;
mod params;
mod ratio_cells;
mod sets;
mod tables;
mod worth;

pub use names::{DataTable, data_table_named};
pub use tables::data_text;
