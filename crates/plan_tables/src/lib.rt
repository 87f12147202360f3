//! The tables of a plan as CSV text: of each kind of variables the values that aren't 0, with the columns of otoole's result file
//! where it has one.
#![tactic(auto)]

mod columns;
mod names;
mod shown;
mod tables;
mod values;

pub use names::table_named;
pub use shown::{NumberForm, Table};
pub use tables::table_text;
pub use values::{member_at, position_at, push_number, set_of};
