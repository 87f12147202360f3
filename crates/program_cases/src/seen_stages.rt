//! The stages that a call tells.

use call_stages::{Stage, Watcher};
use std::alloc::Global;

/// The words of the stages so far, one after another; a stage that is told again at once isn't noted again.
#[derive(Drop)]
pub struct SeenStages {
    /// The words, with a space before each.
    words: Vec<u8>,
    /// The last one's word.
    last: &'static str,
    /// Whether memory ran out.
    is_cut: bool,
}

impl SeenStages {
    /// None so far.
    pub fn new(alloc: Global) -> SeenStages {
        SeenStages {
            words: Vec::new(alloc),
            last: "",
            is_cut: false,
        }
    }

    /// The words, or that memory ran out.
    pub fn text(&self) -> &str {
        if self.is_cut {
            return " cut";
        }
        std::str::from_utf8(&self.words).unwrap_or(" not UTF-8")
    }
}

impl Watcher for SeenStages {
    fn see(&mut self, stage: Stage) {
        let word = word_of(stage);
        if word == self.last {
            return;
        }
        self.last = word;
        if self.words.extend_from_slice(word.as_bytes()).is_err() {
            self.is_cut = true;
        }
    }
}

/// A stage's word, with a space before it.
fn word_of(stage: Stage) -> &'static str {
    match stage {
        Stage::Reading => " reading",
        Stage::Rows => " rows",
        Stage::Elimination => " elimination",
        Stage::Values { .. } => " values",
        Stage::Costs { .. } => " costs",
        Stage::Exact => " exact",
        Stage::Rounding => " rounding",
        Stage::Checks => " checks",
        Stage::Writing => " writing",
    }
}
