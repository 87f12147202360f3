//! The data of an OSeMOSYS model, checked: the members of its sets, and a value in its range for each
//! used parameter at each index.
#![tactic(auto)]

mod building;
mod change;
mod changed;
mod changed_table;
mod changed_value;
mod checks;
mod copied_sets;
mod fault;
mod first_fault;
mod given;
mod indices;
mod laws;
mod listed;
mod model_data;
mod named_places;
mod open_data;
mod open_table;
mod param_table;
mod place_search;
mod ranges;
mod ratio_places;
mod ratio_sizes;
mod ratios;
mod set_members;
mod tables;
mod tried;

pub use building::build;
pub use change::{Change, ChangeKind, Members};
pub use fault::{BuildFail, BuildFault, Cell, CellFault, ChangeFail};
pub use laws::{canonical_laws, range_laws};
pub use model_data::ModelData;
pub use open_data::OpenData;
pub use ratios::{ActivityRatio, RatioIndex};
pub use set_members::sets_of;
