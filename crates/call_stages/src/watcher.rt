//! Who is told.

use crate::stage::Stage;

/// Whoever waits for a call. What it does with what it is told changes nothing of the call's answer.
pub trait Watcher {
    /// The call is at this stage.
    fn see(&mut self, stage: Stage);
}

/// Nobody waits.
#[derive(Clone, Copy)]
pub struct Unwatched;

impl Watcher for Unwatched {
    fn see(&mut self, _stage: Stage) {}
}
