//! Where a call that takes long is, told to whoever waits for it.
#![tactic(auto)]

mod stage;
mod watcher;

pub use stage::Stage;
pub use watcher::{Unwatched, Watcher};
