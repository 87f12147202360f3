//! The text of rows in the free MPS format (https://lpsolve.sourceforge.net/5.5/mps-format.htm): rows are
//! `R1`, `R2`, .. and columns `C1`, `C2`, .., each after a comment line with its name.
#![tactic(auto)]

ghost use Rattle.std.specs.Prelude.{◌≡◌, ◌++◌, true, map, IfOk, OnOk};
ghost use Rattle.std.specs.List.{AllByRecursion, flat_map, list_any};
ghost use Rattle.row_core.specs.Numbers.{ascends};
ghost use Rattle.row_core.specs.Order.{var_cmp};
ghost use Rattle.row_core.specs.Contents.{contents_of};
ghost use Rattle.mps_writer.specs.MpsText.{IsNamedRow, IsNamedVariable, bound_line, bounds, column_lines, is_free_column, mps_text, numbered, row_lines, rhs_line};

mod buffer;
mod columns;
mod entries;
mod key_order;
mod kind_entries;
mod lines;
mod sections;
mod sending;
mod sent_columns;

use crate::columns::push_columns;
use crate::entries::sorted_entries;
use crate::lines::{push_bound, push_rhs, push_row};
pub use crate::sending::{MpsFail, mps_to};
use model_sets::Sets;
use row_core::{Row, Var, is_free};
use std::alloc::{AllocError, Global};

/// The text of the rows, in their order, with a column for each of the variables, which ascend strictly.
///
/// The sections are `ROWS`, with the cost as the free row; `COLUMNS`, where a variable
/// TotalDiscountedCost has the cost 1; `RHS`, with the right sides that aren't 0; `BOUNDS` where a
/// variable may be below 0, with such variables as `FR`; and `ENDATA`. Every line ends with a line feed.
/// An entry at a variable that isn't listed is left out. Refuses only where memory runs out.
pub fn mps_text(
    alloc: Global,
    rows: &[Row],
    vars: &[Var],
    sets: &Sets,
) -> Result<Vec<u8>, AllocError>
    requires rows { AllByRecursion (λ row. IsNamedRow sets.now (contents_of row)) rows.now }
    requires vars { AllByRecursion (IsNamedVariable sets.now) vars.now }
    requires ascending { ascends var_cmp vars.now ≡ true }
    ensures { IfOk result (λ text. text.items ≡ mps_text sets.now rows.now vars.now) }
{
    let mut out = Vec::from_slice(alloc, b"NAME OSEMOSYS\nROWS\n N COST\n")?;
    push_rows(&mut out, rows, sets)?;
    out.extend_from_slice(b"COLUMNS\n")?;
    push_column_section(alloc, &mut out, rows, vars, sets)?;
    out.extend_from_slice(b"RHS\n")?;
    push_right_sides(&mut out, rows)?;
    push_bounds(&mut out, vars, sets)?;
    out.extend_from_slice(b"ENDATA\n")?;
    Ok(out)
}

// The names and senses of all rows.
fn push_rows(out: &mut Vec<u8>, rows: &[Row], sets: &Sets) -> Result<(), AllocError>
    requires { AllByRecursion (λ row. IsNamedRow sets.now (contents_of row)) rows.now }
    ensures { OnOk result (out.new.items ≡ out.old.items ++ flat_map (row_lines sets.now) (numbered (map contents_of rows.now))) }
{
    for (place, row) in rows.iter().enumerate() {
        push_row(out, place as u64 + 1, row, sets)?;
    }
    Ok(())
}

// The columns, over the entries in the order of their variables.
fn push_column_section(
    alloc: Global,
    out: &mut Vec<u8>,
    rows: &[Row],
    vars: &[Var],
    sets: &Sets,
) -> Result<(), AllocError>
    requires vars { AllByRecursion (IsNamedVariable sets.now) vars.now }
    requires ascending { ascends var_cmp vars.now ≡ true }
    ensures { OnOk result (out.new.items
        ≡ out.old.items ++ flat_map (column_lines sets.now (map contents_of rows.now)) (numbered vars.now)) }
{
    let entries = sorted_entries(alloc, rows)?;
    push_columns(out, vars, &entries, sets)?;
    Ok(())
}

// The right sides that aren't 0.
fn push_right_sides(out: &mut Vec<u8>, rows: &[Row]) -> Result<(), AllocError>
    ensures { OnOk result (out.new.items ≡ out.old.items ++ flat_map rhs_line (numbered (map contents_of rows.now))) }
{
    for (place, row) in rows.iter().enumerate() {
        push_rhs(out, place as u64 + 1, row.rhs)?;
    }
    Ok(())
}

// The free columns, where there is one.
fn push_bounds(out: &mut Vec<u8>, vars: &[Var], sets: &Sets) -> Result<(), AllocError>
    requires { AllByRecursion (IsNamedVariable sets.now) vars.now }
    ensures { OnOk result (out.new.items ≡ out.old.items ++ bounds (numbered vars.now)) }
{
    if any_free(vars, sets) {
        out.extend_from_slice(b"BOUNDS\n")?;
        push_free_columns(out, vars, sets)?;
    }
    Ok(())
}

// Some column is free.
fn any_free(vars: &[Var], sets: &Sets) -> bool
    requires { AllByRecursion (IsNamedVariable sets.now) vars.now }
    ensures { result ≡ list_any is_free_column (numbered vars.now) }
{
    for var in vars {
        if is_free(var.kind) {
            return true;
        }
    }
    false
}

// The free columns.
fn push_free_columns(out: &mut Vec<u8>, vars: &[Var], sets: &Sets) -> Result<(), AllocError>
    requires { AllByRecursion (IsNamedVariable sets.now) vars.now }
    ensures { OnOk result (out.new.items ≡ out.old.items ++ flat_map bound_line (numbered vars.now)) }
{
    for (place, var) in vars.iter().enumerate() {
        push_bound(out, place as u64 + 1, *var)?;
    }
    Ok(())
}
