//! The sections with lines of rows: the rows themselves, and their right sides.

ghost use Rattle.std.specs.Prelude.{◌≡◌, ◌≤◌, ◌++◌, ◌||◌, not, false, IfOk, OnOk};
ghost use Rattle.std.specs.List.{AllByRecursion, flat_map};
ghost use Rattle.row_core.specs.Equations.{IsEquation};
ghost use Rattle.row_core.specs.Numbers.{is_zero};
ghost use Rattle.row_core.specs.Contents.{contents_of};
ghost use Rattle.row_core.specs.Sources.{AreInOrder, rows_of_equation};
ghost use Rattle.mps_writer.specs.MpsText.{IsNamedRow, numbered};
ghost use Rattle.mps_writer.specs.SectionLines.{AreSidesOf, HasNoSides, is_of_sides, lines_in};
ghost use Rattle.io_edges.specs.Outputs.{output};
ghost use Rattle.mps_writer.specs.Steps.{Takes};

use crate::buffer::spill;
use crate::lines::{push_rhs, push_row};
use crate::sending::MpsFail;
use io_edges::Sink;
use model_sets::Sets;
use row_core::equation_numbers::EQUATION_COUNT;
use row_core::{Row, RowSource};
use std::alloc::AllocError;

/// A section with lines of rows.
#[derive(Clone, Copy)]
pub enum Section {
    Rows,
    RightSides,
}

/// For how many numbers of equations it is kept whether they have right sides.
pub const SIDES: usize = EQUATION_COUNT + 1;

impl Section {
    /// Whether it is the section of right sides, in which a row has a line only where its right side isn't 0.
    fn has_right_sides(self) -> bool
        ensures { result ≡ is_of_sides self }
    {
        match self {
            Section::Rows => false,
            Section::RightSides => true,
        }
    }
}

/// Writes the lines of a section, equation by equation. At each equation's number `sides` tells whether some row of it
/// may have a right side that isn't 0, which is found as its lines are written: where none has one, no row of it is asked
/// for in the section of right sides.
pub fn send_section<R: RowSource, K: Sink>(
    rows: &mut R,
    section: Section,
    sides: &mut [bool; SIDES],
    sets: &Sets,
    buffer: &mut Vec<u8>,
    out: &mut K,
) -> Result<(), MpsFail>
    requires named { AllByRecursion (IsNamedRow sets.now) (R.rows rows.old) }
    requires in_order { AreInOrder (R.rows rows.old) }
    requires sides { AreSidesOf (R.rows rows.old) sides.old }
    ensures taken { Takes (buffer.old.items ++ flat_map (lines_in section sets.now) (numbered (R.rows rows.old))) result
        (output (K.written out.old) (K.accepted out.old))
        (output (K.written out.new) (K.accepted out.new))
        (K.faults out.old) (K.faults out.new) buffer.new.items }
    ensures rows { R.rows rows.new ≡ R.rows rows.old }
    ensures sides { OnOk result (AreSidesOf (R.rows rows.old) sides.new) }
{
    for eq in 1..EQUATION_COUNT as u8 + 1 {
        match send_equation(rows, section, eq, sides[eq as usize], sets, buffer, out) {
            Ok(some) => sides[eq as usize] = some,
            Err(fail) => return Err(fail),
        }
    }
    Ok(())
}

/// Writes the lines of an equation's rows, and answers whether one of those that were asked for has a right side that
/// isn't 0. Where none may have one (`may_have`), there is nothing to write in the section of right sides.
fn send_equation<R: RowSource, K: Sink>(
    rows: &mut R,
    section: Section,
    eq: u8,
    may_have: bool,
    sets: &Sets,
    buffer: &mut Vec<u8>,
    out: &mut K,
) -> Result<bool, MpsFail>
    requires equation { IsEquation eq }
    requires named { AllByRecursion (IsNamedRow sets.now) (R.rows rows.old) }
    requires sides { may_have ≡ false → HasNoSides (rows_of_equation eq (R.rows rows.old)) }
    ensures taken { Takes (buffer.old.items ++ flat_map (lines_in section sets.now) (rows_of_equation eq (R.rows rows.old))) result
        (output (K.written out.old) (K.accepted out.old))
        (output (K.written out.new) (K.accepted out.new))
        (K.faults out.old) (K.faults out.new) buffer.new.items }
    ensures rows { R.rows rows.new ≡ R.rows rows.old }
    ensures sides { IfOk result (λ found. found ≡ false → HasNoSides (rows_of_equation eq (R.rows rows.old))) }
{
    // Each section begins each equation, also where no row of it is asked for.
    rows.start(eq);
    if !may_have && section.has_right_sides() {
        return Ok(false);
    }
    let mut found = false;
    'rows: loop {
        let (number, row) = match rows.next() {
            Ok(Some(next)) => next,
            Ok(None) => return Ok(found),
            Err(_) => return Err(MpsFail::Memory),
        };
        match send_lines(section, number, &row, sets, buffer, out) {
            Ok(()) => {}
            Err(fail) => return Err(fail),
        }
        found = is_side_seen(found, &row);
    }
}

/// Whether one was seen before, or the row has a right side that isn't 0.
fn is_side_seen(before: bool, row: &Row) -> bool
    ensures { result ≡ (before || not (is_zero row.now.rhs)) }
{
    before || row.rhs != 0
}

/// Writes the lines of a row.
fn send_lines<K: Sink>(
    section: Section,
    number: u64,
    row: &Row,
    sets: &Sets,
    buffer: &mut Vec<u8>,
    out: &mut K,
) -> Result<(), MpsFail>
    requires { IsNamedRow sets.now (contents_of row.now) }
    ensures { Takes (buffer.old.items ++ lines_in section sets.now (number, contents_of row.now)) result
        (output (K.written out.old) (K.accepted out.old))
        (output (K.written out.new) (K.accepted out.new))
        (K.faults out.old) (K.faults out.new) buffer.new.items }
{
    match push_lines(section, number, row, sets, buffer) {
        Ok(()) => spill(buffer, out),
        Err(_) => Err(MpsFail::Memory),
    }
}

/// Appends the lines of a row.
fn push_lines(
    section: Section,
    number: u64,
    row: &Row,
    sets: &Sets,
    buffer: &mut Vec<u8>,
) -> Result<(), AllocError>
    requires { IsNamedRow sets.now (contents_of row.now) }
    ensures { OnOk result (buffer.new.items ≡ buffer.old.items ++ lines_in section sets.now (number, contents_of row.now)) }
{
    match section {
        Section::Rows => push_row(buffer, number, row, sets),
        Section::RightSides => push_rhs(buffer, number, row.rhs),
    }
}
