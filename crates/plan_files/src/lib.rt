//! Plans and multipliers as CSV files (RFC 4180): a header, and one record for each variable or row with its subscripts and
//! its value.
#![tactic(auto)]

mod faults;
mod fields;
mod header;
mod laws;
mod lines;
mod names;
mod reading;
mod records;
mod values;
mod writing;

pub use faults::{PlanFail, PlanFault};
pub use fields::{field_at, places_of_equation, places_of_kind};
pub use header::read_header;
pub use laws::{reading_laws, telling_laws};
pub use lines::Lines;
pub use names::{place_of_row, place_of_variable, place_of_word};
pub use reading::{names_of, read_multipliers, read_plan, read_values};
pub use records::{next_record, reader_of};
pub use values::{first_without, with_values};
pub use writing::{
    header_text, multiplier_text, plan_text, push_field, push_multipliers, push_plan, push_record,
    push_value,
};
