//! The lines of rows, entries, right sides and bounds.
ghost use Rattle.std.specs.Prelude.{◌≡◌, ◌++◌, OnOk, decimal};
ghost use Rattle.row_core.specs.Kinds.{IsKind};
ghost use Rattle.row_core.specs.Contents.{contents_of};
ghost use Rattle.mps_writer.specs.MpsText.{IsNamedRow, IsNamedVariable, bound_line, column_head, entry_line, row_lines, rhs_line_of};

use crate::entries::Entry;
use itoa::Buffer;
use model_sets::Sets;
use row_core::kind_numbers::TOTAL_DISCOUNTED_COST;
use row_core::{Row, Sense, Var, is_free, push_row_name, push_var};
use std::alloc::AllocError;

/// Appends a row's name as a comment, and its sense.
pub fn push_row(out: &mut Vec<u8>, number: u64, row: &Row, sets: &Sets) -> Result<(), AllocError>
    requires { IsNamedRow sets.now (contents_of row.now) }
    ensures { OnOk result (out.new.items
        ≡ out.old.items ++ row_lines sets.now (number, contents_of row.now)) }
{
    out.extend_from_slice(b"* ")?;
    push_row_name(out, row.name, sets)?;
    out.extend_from_slice(match row.sense {
        Sense::Least => b"\n G R",
        Sense::Equal => b"\n E R",
        Sense::Most => b"\n L R",
    })?;
    push_number(out, number)?;
    out.extend_from_slice(b"\n")?;
    Ok(())
}

/// Appends a column's name as a comment, and its cost where it has one.
pub fn push_column_head(
    out: &mut Vec<u8>,
    column: u64,
    variable: Var,
    sets: &Sets,
) -> Result<(), AllocError>
    requires { IsNamedVariable sets.now variable }
    ensures { OnOk result (out.new.items
        ≡ out.old.items ++ column_head sets.now (column, variable)) }
{
    out.extend_from_slice(b"* ")?;
    push_var(out, variable, sets)?;
    out.extend_from_slice(b"\n")?;
    if variable.kind == TOTAL_DISCOUNTED_COST {
        out.extend_from_slice(b" C")?;
        push_number(out, column)?;
        out.extend_from_slice(b" COST 1\n")?;
    }
    Ok(())
}

/// Appends an entry in a column.
pub fn push_entry(out: &mut Vec<u8>, column: u64, entry: &Entry) -> Result<(), AllocError>
    ensures { OnOk result (out.new.items
        ≡ out.old.items ++ entry_line column entry.now.row entry.now.number) }
{
    out.extend_from_slice(b" C")?;
    push_number(out, column)?;
    out.extend_from_slice(b" R")?;
    push_number(out, entry.row)?;
    out.extend_from_slice(b" ")?;
    out.extend_from_slice(Buffer::new().format(entry.number).as_bytes())?;
    out.extend_from_slice(b"\n")?;
    Ok(())
}

/// Appends a row's right side, unless it is 0.
pub fn push_rhs(out: &mut Vec<u8>, row: u64, rhs: i128) -> Result<(), AllocError>
    ensures { OnOk result (out.new.items ≡ out.old.items ++ rhs_line_of row rhs) }
{
    if rhs == 0 {
        return Ok(());
    }
    out.extend_from_slice(b" RHS R")?;
    push_number(out, row)?;
    out.extend_from_slice(b" ")?;
    out.extend_from_slice(Buffer::new().format(rhs).as_bytes())?;
    out.extend_from_slice(b"\n")?;
    Ok(())
}

/// Appends a column's bound where its variable is free.
pub fn push_bound(out: &mut Vec<u8>, column: u64, variable: Var) -> Result<(), AllocError>
    requires { IsKind variable.kind }
    ensures { OnOk result (out.new.items ≡ out.old.items ++ bound_line (column, variable)) }
{
    if !is_free(variable.kind) {
        return Ok(());
    }
    out.extend_from_slice(b" FR BND C")?;
    push_number(out, column)?;
    out.extend_from_slice(b"\n")?;
    Ok(())
}

// A number in decimal.
fn push_number(out: &mut Vec<u8>, number: u64) -> Result<(), AllocError>
    ensures { OnOk result (out.new.items ≡ out.old.items ++ decimal number) }
{
    out.extend_from_slice(Buffer::new().format(number).as_bytes())
}
