//! All rows of the linear program of an OSeMOSYS model (Howells et al., "OSeMOSYS: The Open Source Energy
//! Modeling System", Energy Policy 39, 2011): one for each instance of the named equations, in order, and their
//! variables.
#![tactic(auto)]

mod book;
mod cells;
mod defined;
mod factors;
mod fail;
mod feed;
mod gathering;
mod held_rows;
mod instance_row;
mod key_order;
mod kind_variables;
mod laws;
mod made_rows;
mod ratios;
mod replaced;
mod rows;
mod single_row;
mod tally;
mod tallying;
mod variables;
mod walk;

pub use book::RowBook;
pub use fail::BookFail;
pub use feed::RowFeed;
pub use laws::{same_data_laws, stop_laws};
pub use single_row::row_at;
