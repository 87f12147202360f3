//! The section of columns, kind by kind: the entries of a kind are gathered, and then passed through once in the
//! order of their variables.

ghost use Rattle.std.specs.Prelude.{◌≡◌, ◌≤◌, ◌++◌, List, true, drop, length, IfOk, OnOk};
ghost use Rattle.std.specs.List.{AllByRecursion, flat_map};
ghost use Rattle.model_sets.specs.Members.{SetLists};
ghost use Rattle.row_core.specs.declared.Var.{Var};
ghost use Rattle.row_core.specs.Numbers.{ascends};
ghost use Rattle.row_core.specs.Order.{var_cmp};
ghost use Rattle.row_core.specs.Sources.{AreInOrder};
ghost use Rattle.mps_writer.specs.Entries.{HasEquation, following, lines_of};
ghost use Rattle.mps_writer.specs.Gathered.{Serves};
ghost use Rattle.mps_writer.specs.MpsText.{IsNamedRow, IsNamedVariable, column_head, column_lines, entry_line, numbered};
ghost use Rattle.io_edges.specs.Outputs.{output};
ghost use Rattle.mps_writer.specs.Steps.{Takes};

use crate::buffer::spill;
use crate::entries::{Entry, compare};
use crate::kind_entries::sorted_entries_of_kind;
use crate::lines::{push_column_head, push_entry};
use crate::sending::MpsFail;
use io_edges::Sink;
use model_sets::Sets;
use row_core::{RowSource, Var};
use std::alloc::{AllocError, Global};
use std::cmp::Ordering;

/// The entries of one kind of variable, in the order of their variables, and how many of them are passed by.
#[derive(Drop)]
pub struct Gathered {
    pub kind: u8,
    pub entries: Vec<Entry>,
    pub passed: usize,
}

/// Writes the columns of the variables, each with its entries.
pub fn send_columns<R: RowSource, K: Sink>(
    alloc: Global,
    rows: &mut R,
    vars: &[Var],
    sets: &Sets,
    buffer: &mut Vec<u8>,
    out: &mut K,
) -> Result<(), MpsFail>
    requires equations { AllByRecursion HasEquation (R.rows rows.old) }
    requires in_order { AreInOrder (R.rows rows.old) }
    requires vars { AllByRecursion (IsNamedVariable sets.now) vars.now }
    requires ascending { ascends var_cmp vars.now ≡ true }
    ensures taken { Takes (buffer.old.items ++ flat_map (column_lines sets.now (R.rows rows.old)) (numbered vars.now)) result
        (output (K.written out.old) (K.accepted out.old))
        (output (K.written out.new) (K.accepted out.new))
        (K.faults out.old) (K.faults out.new) buffer.new.items }
    ensures rows { R.rows rows.new ≡ R.rows rows.old }
{
    // No variable is of kind 0.
    let mut gathered = Gathered {
        kind: 0,
        entries: Vec::new(alloc),
        passed: 0,
    };
    for (place, var) in vars.iter().enumerate() {
        match gather(alloc, rows, var.kind, &mut gathered) {
            Ok(()) => {}
            Err(_) => return Err(MpsFail::Memory),
        }
        let column = place as u64 + 1;
        match send_column(
            column,
            *var,
            &gathered.entries,
            gathered.passed,
            sets,
            buffer,
            out,
        ) {
            Ok(passed) => gathered.passed = passed,
            Err(fail) => return Err(fail),
        }
    }
    Ok(())
}

// Gathers the entries of this kind, unless they are there.
fn gather<R: RowSource>(
    alloc: Global,
    rows: &mut R,
    kind: u8,
    gathered: &mut Gathered,
) -> Result<(), AllocError>
    requires equations { AllByRecursion HasEquation (R.rows rows.old) }
    requires in_order { AreInOrder (R.rows rows.old) }
    ensures kind { OnOk result (gathered.new.kind ≡ kind) }
    ensures serves { OnOk result ((vars : List Var) → Serves (R.rows rows.old) gathered.old vars → Serves (R.rows rows.old) gathered.new vars) }
    ensures rows { R.rows rows.new ≡ R.rows rows.old }
{
    if gathered.kind == kind {
        return Ok(());
    }
    gathered.entries = match sorted_entries_of_kind(alloc, rows, kind) {
        Ok(entries) => entries,
        Err(fail) => return Err(fail),
    };
    gathered.kind = kind;
    gathered.passed = 0;
    Ok(())
}

// Writes the column of a variable with its entries, passing by those of earlier variables; answers where later
// ones begin.
fn send_column<K: Sink>(
    column: u64,
    var: Var,
    entries: &[Entry],
    from: usize,
    sets: &Sets,
    buffer: &mut Vec<u8>,
    out: &mut K,
) -> Result<usize, MpsFail>
    requires named { IsNamedVariable sets.now var }
    requires within { from ≤ length entries.now }
    ensures taken { Takes (buffer.old.items ++ (column_head sets.now (column, var) ++ lines_of column var (drop from entries.now))) result
        (output (K.written out.old) (K.accepted out.old))
        (output (K.written out.new) (K.accepted out.new))
        (K.faults out.old) (K.faults out.new) buffer.new.items }
    ensures rest { IfOk result (λ to. drop to entries.now ≡ following var (drop from entries.now)) }
    ensures within { IfOk result (λ to. to ≤ length entries.now) }
{
    match send_head(column, var, sets, buffer, out) {
        Ok(()) => {}
        Err(fail) => return Err(fail),
    }
    for i in from..entries.len() {
        let entry = &entries[i];
        match compare(entry, var) {
            Ordering::Less => {}
            Ordering::Equal => match send_entry(column, entry, buffer, out) {
                Ok(()) => {}
                Err(fail) => return Err(fail),
            },
            Ordering::Greater => return Ok(i),
        }
    }
    Ok(entries.len())
}

// Writes a column's head.
fn send_head<K: Sink>(
    column: u64,
    var: Var,
    sets: &Sets,
    buffer: &mut Vec<u8>,
    out: &mut K,
) -> Result<(), MpsFail>
    requires { IsNamedVariable sets.now var }
    ensures { Takes (buffer.old.items ++ column_head sets.now (column, var)) result
        (output (K.written out.old) (K.accepted out.old))
        (output (K.written out.new) (K.accepted out.new))
        (K.faults out.old) (K.faults out.new) buffer.new.items }
{
    match push_column_head(buffer, column, var, sets) {
        Ok(()) => spill(buffer, out),
        Err(_) => Err(MpsFail::Memory),
    }
}

// Writes the line of an entry.
fn send_entry<K: Sink>(
    column: u64,
    entry: &Entry,
    buffer: &mut Vec<u8>,
    out: &mut K,
) -> Result<(), MpsFail>
    ensures { Takes (buffer.old.items ++ entry_line column entry.now.row entry.now.number) result
        (output (K.written out.old) (K.accepted out.old))
        (output (K.written out.new) (K.accepted out.new))
        (K.faults out.old) (K.faults out.new) buffer.new.items }
{
    match push_entry(buffer, column, entry) {
        Ok(()) => spill(buffer, out),
        Err(_) => Err(MpsFail::Memory),
    }
}
