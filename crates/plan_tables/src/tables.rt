//! The text of a table.

ghost use Rattle.std.specs.Prelude.{◌≡◌, ◌++◌, IfOk, OnOk};
ghost use Rattle.std.specs.List.{AllByRecursion, flat_map};
ghost use Rattle.row_core.specs.Kinds.{IsKind};
ghost use Rattle.row_core.specs.NameTexts.{VariableIsWithin};
ghost use Rattle.plan_tables.specs.TableNames.{IsTable, all_kinds};
ghost use Rattle.plan_tables.specs.ValueTables.{kind_text, named_text, table_text};

use crate::columns::{columns_of, push_header};
use crate::shown::{NumberForm, Table};
use crate::values::{Columns, push_values};
use model_sets::Sets;
use plan_files::Lines;
use row_core::kind_numbers::KIND_COUNT;
use row_core::{Plan, var_word};
use std::alloc::{AllocError, Global};

/// A table of a plan as CSV text: a header with the sets of the kind's subscripts and VALUE, and a record for each value of the
/// kind that isn't 0, in the order of the plan, with the members of its subscripts and the value in this form. Of all kinds one table
/// after another, by their numbers, each after a line with the kind's word. Refuses where memory runs out.
pub fn table_text(
    alloc: Global,
    sets: &Sets,
    plan: &Plan,
    table: Table,
    form: NumberForm,
) -> Result<Vec<u8>, AllocError>
    requires table { IsTable table }
    requires within { AllByRecursion (λ e. VariableIsWithin sets.now e.0) plan.now }
    ensures { IfOk result (λ text. text.items ≡ table_text sets.now form plan.now table) }
{
    let mut out = Vec::new(alloc);
    match table {
        Table::Values(kind) => push_kind(alloc, &mut out, sets, plan, kind, form)?,
        Table::AllValues => push_all(alloc, &mut out, sets, plan, form)?,
    }
    Ok(out)
}

// Appends the tables of all kinds.
fn push_all(
    alloc: Global,
    out: &mut Vec<u8>,
    sets: &Sets,
    plan: &Plan,
    form: NumberForm,
) -> Result<(), AllocError>
    requires { AllByRecursion (λ e. VariableIsWithin sets.now e.0) plan.now }
    ensures { OnOk result (out.new.items ≡ out.old.items ++ flat_map (named_text sets.now form plan.now) all_kinds) }
{
    for kind in 1..=KIND_COUNT as u8 {
        push_named(alloc, out, sets, plan, kind, form)?;
    }
    Ok(())
}

// Appends a line with the word of a kind, and its table.
fn push_named(
    alloc: Global,
    out: &mut Vec<u8>,
    sets: &Sets,
    plan: &Plan,
    kind: u8,
    form: NumberForm,
) -> Result<(), AllocError>
    requires listed { IsKind kind }
    requires within { AllByRecursion (λ e. VariableIsWithin sets.now e.0) plan.now }
    ensures { OnOk result (out.new.items ≡ out.old.items ++ named_text sets.now form plan.now kind) }
{
    out.extend_from_slice(var_word(kind).as_bytes())?;
    out.extend_from_slice(b"\n")?;
    push_kind(alloc, out, sets, plan, kind, form)
}

// Appends the table of a kind.
fn push_kind(
    alloc: Global,
    out: &mut Vec<u8>,
    sets: &Sets,
    plan: &Plan,
    kind: u8,
    form: NumberForm,
) -> Result<(), AllocError>
    requires listed { IsKind kind }
    requires within { AllByRecursion (λ e. VariableIsWithin sets.now e.0) plan.now }
    ensures { OnOk result (out.new.items ≡ out.old.items ++ kind_text sets.now form plan.now kind) }
{
    let places = columns_of(alloc, kind)?;
    let mut lines = Lines::new(alloc);
    push_header(alloc, &mut lines, &places)?;
    let shown = Columns {
        kind,
        places: &places,
        form,
    };
    push_values(alloc, &mut lines, sets, plan.entries(), shown)?;
    out.extend_from_slice(&lines.into_text()?)
}
