//! A line on standard error that says where the call is, where that is a terminal.

use call_stages::{Stage, Watcher};
use std::io::IsTerminal;
use std::time::{Duration, Instant};

/// The line is written once in so many milliseconds at most, but for stages that are told once and may last.
const BETWEEN: u64 = 500;

/// The line, and when it was written.
#[derive(Drop)]
pub struct ProgressLine<'a> {
    rt: &'a HostRuntime,
    is_terminal: bool,
    written: Option<Instant>,
    lasting: Lasting,
}

/// Which stages were told that may last, and in which nothing else is told.
#[derive(Clone, Copy)]
struct Lasting {
    rows: bool,
    elimination: bool,
    exact: bool,
}

impl Lasting {
    /// Whether a stage is one of these and is told for the first time. From now on it was told.
    fn is_new(&mut self, stage: Stage) -> bool {
        let before = *self;
        match stage {
            Stage::Rows => {
                self.rows = true;
                !before.rows
            }
            Stage::Elimination => {
                self.elimination = true;
                !before.elimination
            }
            Stage::Exact => {
                self.exact = true;
                !before.exact
            }
            _ => false,
        }
    }
}

impl<'a> ProgressLine<'a> {
    /// No line so far.
    pub fn new(rt: &'a HostRuntime) -> ProgressLine<'a> {
        ProgressLine {
            rt,
            is_terminal: rt.stderr().is_terminal(),
            written: None,
            lasting: Lasting {
                rows: false,
                elimination: false,
                exact: false,
            },
        }
    }

    /// Removes the line, if there is one.
    pub fn remove(&mut self) {
        if self.written.is_some() {
            let _ = eprint!(self.rt; "\r\x1b[K");
            self.written = None;
        }
    }

    /// Whether nothing was written, or long enough ago.
    fn is_due(&self, now: Instant) -> bool {
        let Some(at) = self.written else {
            return true;
        };
        match now.checked_duration_since(at) {
            Some(since) => since >= Duration::from_millis(BETWEEN),
            None => true,
        }
    }

    /// Writes the line for a stage.
    fn write(&self, stage: Stage) {
        let _ = match stage {
            Stage::Reading => eprint!(self.rt; "\rreading\x1b[K"),
            Stage::Rows => eprint!(self.rt; "\rmaking the rows\x1b[K"),
            Stage::Elimination => eprint!(self.rt; "\rremoving defined variables\x1b[K"),
            Stage::Values { pivots, below } => {
                eprint!(self.rt; "\r{pivots} pivots, values below 0 by {below:.3}\x1b[K")
            }
            Stage::Costs { pivots, below } => {
                eprint!(self.rt; "\r{pivots} pivots, reduced costs below 0 by {below:.3}\x1b[K")
            }
            Stage::Exact => eprint!(self.rt; "\rthe exact simplex\x1b[K"),
            Stage::Rounding => eprint!(self.rt; "\rrounding\x1b[K"),
            Stage::Checks => eprint!(self.rt; "\rchecking\x1b[K"),
            Stage::Writing => Ok(()),
        };
    }
}

impl Watcher for ProgressLine<'_> {
    fn see(&mut self, stage: Stage) {
        if !self.is_terminal {
            return;
        }
        if let Stage::Writing = stage {
            self.remove();
            return;
        }
        let Ok(now) = Instant::now(self.rt) else {
            return;
        };
        if self.lasting.is_new(stage) || self.is_due(now) {
            self.write(stage);
            self.written = Some(now);
        }
    }
}
