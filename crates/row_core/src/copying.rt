//! Copies of rows.

ghost use Rattle.std.specs.Prelude.{◌≡◌, IfOk, map};
ghost use Rattle.row_core.specs.Contents.{contents_of};

use crate::Row;
use std::alloc::{AllocError, Global};

/// A copy of a row. Refuses only where memory runs out.
pub fn copy_row(alloc: Global, row: &Row) -> Result<Row, AllocError>
    ensures { IfOk result (λ copy. contents_of copy ≡ contents_of row.now) }
{
    let entries = Vec::from_slice(alloc, row.entries.as_slice())?;
    Ok(Row {
        name: row.name,
        sense: row.sense,
        entries,
        rhs: row.rhs,
    })
}

/// Copies of rows, in their order. Refuses only where memory runs out.
pub fn copy_rows(alloc: Global, rows: &[Row]) -> Result<Vec<Row>, AllocError>
    ensures { IfOk result (λ copies. map contents_of copies.items ≡ map contents_of rows.now) }
{
    let mut copies = Vec::with_capacity(alloc, rows.len())?;
    for row in rows {
        let copy = copy_row(alloc, row)?;
        copies.push(copy)?;
    }
    Ok(copies)
}
