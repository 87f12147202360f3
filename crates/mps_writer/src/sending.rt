//! The text of the rows of a source, into a sink.

ghost use Rattle.std.specs.Prelude.{◌≡◌, ◌≤◌, ◌++◌, true, Some, IsErrOf, OnErr, OnOk};
ghost use Rattle.std.specs.List.{AllByRecursion, flat_map};
ghost use Rattle.io_edges.specs.Count.{Rose};
ghost use Rattle.row_core.specs.Kinds.{IsKind};
ghost use Rattle.row_core.specs.Numbers.{ascends};
ghost use Rattle.row_core.specs.Order.{var_cmp};
ghost use Rattle.row_core.specs.Sources.{AreInOrder};
ghost use Rattle.mps_writer.specs.MpsText.{IsNamedRow, IsNamedVariable, bound_line, bounds, numbered, rows_text, sections_text};
ghost use Rattle.io_edges.specs.Outputs.{output, Took, TookPrefix};
ghost use Rattle.mps_writer.specs.Steps.{Takes};
ghost use Rattle.mps_writer.specs.declared.sending.MpsFail.TheVariants.{Memory, Write};

use crate::any_free;
use crate::buffer::{flush, spill};
use crate::lines::push_bound;
use crate::sections::{SIDES, Section, send_section};
use crate::sent_columns::send_columns;
use io_edges::{Failed, Sink};
use model_sets::Sets;
use row_core::{RowSource, Var};
use std::alloc::{AllocError, Global};

/// Why a text wasn't written whole.
#[derive(Clone, Copy, PartialEq, Eq)]
pub enum MpsFail {
    /// The sink failed, and counted it.
    Write,
    /// Memory ran out.
    Memory,
}

impl From<AllocError> for MpsFail {
    ghost from_gives = { λ _ fail. fail ≡ Memory };

    fn from(_: AllocError) -> MpsFail {
        MpsFail::Memory
    }
}

impl From<Failed> for MpsFail {
    ghost from_gives = { λ _ fail. fail ≡ Write };

    fn from(_: Failed) -> MpsFail {
        MpsFail::Write
    }
}

/// Writes the text of the rows of the source, in their order, with a column for each of the variables, which
/// ascend strictly: the text that `mps_text` gives. The source goes through its equations once for the rows,
/// for each kind of variable once through those that have it, and once for the right sides, where it asks for no
/// row of an equation whose right sides are all 0. So it holds the entries of one kind at a time, and no list of rows.
///
/// Where a write fails or memory runs out, a prefix of the text was written by then.
pub fn mps_to<R: RowSource, K: Sink>(
    alloc: Global,
    rows: &mut R,
    vars: &[Var],
    sets: &Sets,
    out: &mut K,
) -> Result<(), MpsFail>
    requires rows { AllByRecursion (IsNamedRow sets.now) (R.rows rows.old) }
    requires in_order { AreInOrder (R.rows rows.old) }
    requires vars { AllByRecursion (IsNamedVariable sets.now) vars.now }
    requires ascending { ascends var_cmp vars.now ≡ true }

    // What the sink took, or what prefix of it.
    ensures sent { OnOk result (Took (output (K.written out.old) (K.accepted out.old))
        (output (K.written out.new) (K.accepted out.new))
        (rows_text sets.now (R.rows rows.old) vars.now)) }
    ensures cut { OnErr result (TookPrefix (output (K.written out.old) (K.accepted out.old))
        (output (K.written out.new) (K.accepted out.new))
        (rows_text sets.now (R.rows rows.old) vars.now)) }

    // When a write failed. That memory runs out has no cause.
    ensures failed { IsErrOf result MpsFail.Write → Rose (K.faults out.old) (K.faults out.new) }
    ensures faults { K.faults out.old ≤ K.faults out.new }

    ensures rows_stay { R.rows rows.new ≡ R.rows rows.old }
{
    let mut buffer = match Vec::from_slice(alloc, b"NAME OSEMOSYS\nROWS\n N COST\n") {
        Ok(buffer) => buffer,
        Err(_) => return Err(MpsFail::Memory),
    };
    match send_sections(alloc, rows, vars, sets, &mut buffer, out) {
        Ok(()) => {}
        Err(fail) => return Err(fail),
    }
    flush(&mut buffer, out)
}

// Writes what comes after the head of the rows.
fn send_sections<R: RowSource, K: Sink>(
    alloc: Global,
    rows: &mut R,
    vars: &[Var],
    sets: &Sets,
    buffer: &mut Vec<u8>,
    out: &mut K,
) -> Result<(), MpsFail>
    requires rows { AllByRecursion (IsNamedRow sets.now) (R.rows rows.old) }
    requires in_order { AreInOrder (R.rows rows.old) }
    requires vars { AllByRecursion (IsNamedVariable sets.now) vars.now }
    requires ascending { ascends var_cmp vars.now ≡ true }
    ensures taken { Takes (buffer.old.items ++ sections_text sets.now (R.rows rows.old) vars.now) result
        (output (K.written out.old) (K.accepted out.old))
        (output (K.written out.new) (K.accepted out.new))
        (K.faults out.old) (K.faults out.new) buffer.new.items }
    ensures rows_stay { R.rows rows.new ≡ R.rows rows.old }
{
    // Nothing is known yet of right sides.
    let mut sides = [true; SIDES];
    match send_section(rows, Section::Rows, &mut sides, sets, buffer, out) {
        Ok(()) => {}
        Err(fail) => return Err(fail),
    }
    match send_piece(b"COLUMNS\n", buffer, out) {
        Ok(()) => {}
        Err(fail) => return Err(fail),
    }
    match send_columns(alloc, rows, vars, sets, buffer, out) {
        Ok(()) => {}
        Err(fail) => return Err(fail),
    }
    match send_piece(b"RHS\n", buffer, out) {
        Ok(()) => {}
        Err(fail) => return Err(fail),
    }
    match send_section(rows, Section::RightSides, &mut sides, sets, buffer, out) {
        Ok(()) => {}
        Err(fail) => return Err(fail),
    }
    match send_bounds(vars, sets, buffer, out) {
        Ok(()) => {}
        Err(fail) => return Err(fail),
    }
    send_piece(b"ENDATA\n", buffer, out)
}

// Writes the free columns, where there is one.
fn send_bounds<K: Sink>(
    vars: &[Var],
    sets: &Sets,
    buffer: &mut Vec<u8>,
    out: &mut K,
) -> Result<(), MpsFail>
    requires { AllByRecursion (IsNamedVariable sets.now) vars.now }
    ensures { Takes (buffer.old.items ++ bounds (numbered vars.now)) result
        (output (K.written out.old) (K.accepted out.old))
        (output (K.written out.new) (K.accepted out.new))
        (K.faults out.old) (K.faults out.new) buffer.new.items }
{
    if !any_free(vars, sets) {
        return spill(buffer, out);
    }
    match send_piece(b"BOUNDS\n", buffer, out) {
        Ok(()) => send_free_columns(vars, sets, buffer, out),
        Err(fail) => Err(fail),
    }
}

// Writes the free columns.
fn send_free_columns<K: Sink>(
    vars: &[Var],
    sets: &Sets,
    buffer: &mut Vec<u8>,
    out: &mut K,
) -> Result<(), MpsFail>
    requires { AllByRecursion (IsNamedVariable sets.now) vars.now }
    ensures { Takes (buffer.old.items ++ flat_map bound_line (numbered vars.now)) result
        (output (K.written out.old) (K.accepted out.old))
        (output (K.written out.new) (K.accepted out.new))
        (K.faults out.old) (K.faults out.new) buffer.new.items }
{
    for (place, var) in vars.iter().enumerate() {
        match send_bound(place as u64 + 1, *var, buffer, out) {
            Ok(()) => {}
            Err(fail) => return Err(fail),
        }
    }
    Ok(())
}

// Writes a column's bound where its variable is free.
fn send_bound<K: Sink>(
    column: u64,
    var: Var,
    buffer: &mut Vec<u8>,
    out: &mut K,
) -> Result<(), MpsFail>
    requires { IsKind var.kind }
    ensures { Takes (buffer.old.items ++ bound_line (column, var)) result
        (output (K.written out.old) (K.accepted out.old))
        (output (K.written out.new) (K.accepted out.new))
        (K.faults out.old) (K.faults out.new) buffer.new.items }
{
    match push_bound(buffer, column, var) {
        Ok(()) => spill(buffer, out),
        Err(_) => Err(MpsFail::Memory),
    }
}

// Writes a piece.
fn send_piece<K: Sink>(piece: &[u8], buffer: &mut Vec<u8>, out: &mut K) -> Result<(), MpsFail>
    ensures { Takes (buffer.old.items ++ piece.now) result
        (output (K.written out.old) (K.accepted out.old))
        (output (K.written out.new) (K.accepted out.new))
        (K.faults out.old) (K.faults out.new) buffer.new.items }
{
    match buffer.extend_from_slice(piece) {
        Ok(()) => spill(buffer, out),
        Err(_) => Err(MpsFail::Memory),
    }
}
