//! Data with the changes of a CSV file: each record changes the values of a parameter at the members that it names.
//!
//! `columns` finds the columns and fields of a record, `records` makes its change of them, and `files` makes the changes of all records, one
//! after another.
#![tactic(auto)]

mod columns;
mod fault;
mod files;
mod records;

pub use fault::{ChangesFail, ChangesFault, RecordFault};
pub use files::change_data;
