//! The entries of one kind of variable, in the order of their variables.

ghost use Rattle.std.specs.Prelude.{◌≡◌, ◌++◌, filter, IfOk, OnOk};
ghost use Rattle.std.specs.List.{AllByRecursion, flat_map};
ghost use Rattle.row_core.specs.Equations.{IsEquation};
ghost use Rattle.row_core.specs.Contents.{contents_of};
ghost use Rattle.row_core.specs.Sources.{AreInOrder, rows_of_equation};
ghost use Rattle.mps_writer.specs.Entries.{AreSorted, HasEquation, entries_of_kind, is_of_kind, row_entries};

use crate::entries::Entry;
use crate::key_order::sort_pieces;
use row_core::equation_numbers::EQUATION_COUNT;
use row_core::{Row, RowSource};
use std::alloc::{AllocError, Global};

/// The entries of a kind by variable, and those of one variable in the order of rows.
pub fn sorted_entries_of_kind<R: RowSource>(
    alloc: Global,
    rows: &mut R,
    kind: u8,
) -> Result<Vec<Entry>, AllocError>
    requires equations { AllByRecursion HasEquation (R.rows rows.old) }
    requires in_order { AreInOrder (R.rows rows.old) }
    ensures sorted { IfOk result (λ entries. AreSorted (entries_of_kind kind (R.rows rows.old)) entries.items) }
    ensures rows { R.rows rows.new ≡ R.rows rows.old }
{
    let mut entries = Vec::new(alloc);
    match add_kind(&mut entries, rows, kind) {
        Ok(()) => {}
        Err(fail) => return Err(fail),
    }
    sort_pieces(alloc, &mut entries)?;
    entries.sort_by_key(|entry| entry.variable)?;
    Ok(entries)
}

// Adds the entries of a kind, row by row.
fn add_kind<R: RowSource>(
    entries: &mut Vec<Entry>,
    rows: &mut R,
    kind: u8,
) -> Result<(), AllocError>
    requires equations { AllByRecursion HasEquation (R.rows rows.old) }
    requires in_order { AreInOrder (R.rows rows.old) }
    ensures added { OnOk result (entries.new.items ≡ entries.old.items ++ entries_of_kind kind (R.rows rows.old)) }
    ensures rows { R.rows rows.new ≡ R.rows rows.old }
{
    for eq in 1..EQUATION_COUNT as u8 + 1 {
        match add_equation(entries, rows, eq, kind) {
            Ok(()) => {}
            Err(fail) => return Err(fail),
        }
    }
    Ok(())
}

// Adds those of an equation.
fn add_equation<R: RowSource>(
    entries: &mut Vec<Entry>,
    rows: &mut R,
    eq: u8,
    kind: u8,
) -> Result<(), AllocError>
    requires { IsEquation eq }
    ensures added { OnOk result (entries.new.items ≡ entries.old.items ++ filter (is_of_kind kind) (flat_map row_entries (rows_of_equation eq (R.rows rows.old)))) }
    ensures rows { R.rows rows.new ≡ R.rows rows.old }
{
    if !rows.has(eq, kind) {
        return Ok(());
    }
    rows.start(eq);
    'rows: loop {
        let (number, row) = match rows.next() {
            Ok(Some(found)) => found,
            Ok(None) => return Ok(()),
            Err(fail) => return Err(fail),
        };
        match add_entries(entries, number, &row, kind) {
            Ok(()) => {}
            Err(fail) => return Err(fail),
        }
    }
}

// Adds those of a row.
fn add_entries(entries: &mut Vec<Entry>, number: u64, row: &Row, kind: u8) -> Result<(), AllocError>
    ensures { OnOk result (entries.new.items ≡ entries.old.items ++ filter (is_of_kind kind) (row_entries (number, contents_of row.now))) }
{
    for (variable, entry) in row.entries.as_slice() {
        if variable.kind == kind {
            entries.push(Entry {
                variable: *variable,
                row: number,
                number: *entry,
            })?;
        }
    }
    Ok(())
}
