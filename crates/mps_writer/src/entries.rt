//! All entries of the rows, in the order of their variables.

ghost use Rattle.std.specs.Prelude.{◌≡◌, ◌++◌, IfOk, OnOk, map};
ghost use Rattle.row_core.specs.Contents.{contents_of};
ghost use Rattle.row_core.specs.Order.{var_cmp};
ghost use Rattle.mps_writer.specs.Entries.{AreSorted, entries_of, row_entries};

use row_core::{Row, Var};
use std::alloc::{AllocError, Global};
use std::cmp::Ordering;

/// An entry: its variable, its row's number and itself.
#[derive(Clone, Copy)]
pub struct Entry {
    pub variable: Var,
    /// Counted from 1.
    pub row: u64,
    pub number: i128,
}

/// How the entry's variable compares with this one.
pub fn compare(entry: &Entry, var: Var) -> Ordering
    ensures { result ≡ var_cmp entry.now.variable var }
{
    entry.variable.cmp(&var)
}

/// The entries by variable, and those of one variable in the order of rows.
pub fn sorted_entries(alloc: Global, rows: &[Row]) -> Result<Vec<Entry>, AllocError>
    ensures { IfOk result (λ entries. AreSorted (entries_of (map contents_of rows.now)) entries.items) }
{
    let mut entries = all_entries(alloc, rows)?;
    entries.sort_by_key(|entry| entry.variable)?;
    Ok(entries)
}

// The entries row by row.
fn all_entries(alloc: Global, rows: &[Row]) -> Result<Vec<Entry>, AllocError>
    ensures { IfOk result (λ entries. entries.items ≡ entries_of (map contents_of rows.now)) }
{
    let mut entries = Vec::new(alloc);
    for (place, row) in rows.iter().enumerate() {
        add_entries(&mut entries, place as u64 + 1, row)?;
    }
    Ok(entries)
}

// Adds the entries of a row.
fn add_entries(entries: &mut Vec<Entry>, number: u64, row: &Row) -> Result<(), AllocError>
    ensures { OnOk result (entries.new.items ≡ entries.old.items ++ row_entries (number, contents_of row.now)) }
{
    for (variable, entry) in row.entries.as_slice() {
        entries.push(Entry {
            variable: *variable,
            row: number,
            number: *entry,
        })?;
    }
    Ok(())
}
