//! Rows that are made one after another.

ghost use Rattle.std.specs.Prelude.{◌≤◌};

use row_core::Row;
use std::alloc::Global;

/// The rows that are made so far, and how many entries they have together.
#[derive(Drop)]
pub(crate) struct MadeRows {
    pub(crate) alloc: Global,
    pub(crate) rows: Vec<Row>,
    pub(crate) entries: usize,
    pub(crate) ghost few: { entries ≤ 4000000 },
}
