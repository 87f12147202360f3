//! The page of a plan, or of two that are compared: constants around texts that are proved elsewhere, each written so that it holds no
//! markup. A script, one of the constants, draws charts from these texts in the reader's browser.
#![tactic(auto)]

mod escaping;
mod laws;
mod names;
mod page_parts;
mod page_style;
mod pages;
mod script_drawing;
mod script_figures;
mod script_numbers;
mod script_page;
mod script_series;
mod script_tables;

pub use laws::escaping_laws;
pub use names::last_segment;
pub use pages::{PagePart, Title, compare_page, plan_page};
