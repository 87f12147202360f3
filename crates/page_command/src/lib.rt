//! What `page` answers of a proof that `check` accepts: a page of what it shows.
#![tactic(auto)]

mod showing;

pub use showing::{Sheet, answer_page};
