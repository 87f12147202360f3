//! What `explain` answers over accepted data: a few named inequalities that can't be met together, each of them shown to be needed for
//! that; that some plan meets all equations; or why the trials came to neither.
#![tactic(auto)]

mod ends;
mod explain;
mod texts;

pub use explain::{Wanted, answer_explain};
