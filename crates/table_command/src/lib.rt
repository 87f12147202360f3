//! What `table` answers: a table of a proof that `check` accepts, of its plan or of what its multipliers say of costs; or what else is due.
#![tactic(auto)]

mod showing;
mod shown;

pub use showing::{answer_shown, form_of, refuse_table};
pub use shown::{Shown, shown_named};
