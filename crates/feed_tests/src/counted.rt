//! A feed that counts how often the rows of an equation are begun.

use row_book::RowFeed;
use row_core::equation_numbers::CAA1;
use row_core::{Row, RowSource};
use std::alloc::AllocError;

/// A feed, and how often the rows of CAa1 were begun.
#[derive(Drop)]
pub(crate) struct Counted<'a> {
    pub(crate) feed: RowFeed<'a>,
    pub(crate) begun: u64,
}

impl<'a> RowSource for Counted<'a> {
    ghost rows = { λ counted. counted.feed.rows };

    ghost ahead = { λ counted. counted.feed.ahead };

    fn start(&mut self, eq: u8) {
        if eq == CAA1 {
            self.begun = self.begun.saturating_add(1);
        }
        self.feed.start(eq);
    }

    fn next(&mut self) -> Result<Option<(u64, Row)>, AllocError> {
        self.feed.next()
    }

    fn has(&self, eq: u8, kind: u8) -> bool {
        self.feed.has(eq, kind)
    }
}
