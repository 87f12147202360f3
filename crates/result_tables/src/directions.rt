//! The table of a direction.

ghost use Rattle.std.specs.Prelude.{◌≡◌, ◌++◌, ◌∷◌, [], OnOk, map};
ghost use Rattle.std.specs.List.{AllByRecursion};
ghost use Rattle.exact_num.specs.Value.{value_of};
ghost use Rattle.plan_files.specs.Texts.{records_text};
ghost use Rattle.row_core.specs.Kinds.{IsKind};
ghost use Rattle.row_core.specs.NameTexts.{VariableIsWithin};
ghost use Rattle.row_core.specs.Plans.{valued};
ghost use Rattle.result_tables.specs.Tables.{direction_table, is_chosen, table_text};

use crate::lines::push_heading;
use crate::records::{is_zero, push_amount_record};
use csv::ByteRecord;
use exact_num::Frac;
use model_sets::Sets;
use plan_files::{places_of_kind, push_field};
use row_core::kind_numbers::{NEW_CAPACITY, RATE_OF_ACTIVITY, TRADE};
use row_core::{Plan, Var, var_word};
use std::alloc::{AllocError, Global};

/// Appends the table of a direction.
pub(crate) fn push_direction_table(
    alloc: Global,
    out: &mut Vec<u8>,
    sets: &Sets,
    direction: &Plan,
) -> Result<(), AllocError>
    requires { AllByRecursion (λ e. IsKind e.0.kind × VariableIsWithin sets.now e.0) direction.now }
    ensures { OnOk result (out.new.items ≡ out.old.items ++ table_text (direction_table sets.now direction.now)) }
{
    push_heading(out, b"Direction")?;
    push_chosen_values(alloc, out, sets, direction)
}

/// Appends a record for each RateOfActivity, NewCapacity and Trade, in order, whose value in a plan or a direction isn't 0: its word, its
/// members, and its value as a fraction and rounded to six decimal places. Refuses where memory runs out.
pub fn push_chosen_values(
    alloc: Global,
    out: &mut Vec<u8>,
    sets: &Sets,
    plan: &Plan,
) -> Result<(), AllocError>
    requires { AllByRecursion (λ e. IsKind e.0.kind × VariableIsWithin sets.now e.0) plan.now }
    ensures { OnOk result (out.new.items ≡ out.old.items ++ records_text (direction_table sets.now plan.now).records) }
{
    push_components(alloc, out, sets, plan.entries())
}

// Appends the records of a direction.
fn push_components(
    alloc: Global,
    out: &mut Vec<u8>,
    sets: &Sets,
    entries: &[(Var, Frac)],
) -> Result<(), AllocError>
    requires { AllByRecursion (λ e. IsKind e.0.kind × VariableIsWithin sets.now e.0) (map valued entries.now) }
    ensures { OnOk result (out.new.items ≡ out.old.items ++ records_text (direction_table sets.now (map valued entries.now)).records) }
{
    for (var, value) in entries {
        push_component(alloc, out, sets, *var, *value)?;
    }
    Ok(())
}

// Appends the record of a variable, where it is a chosen one and its value isn't 0.
fn push_component(
    alloc: Global,
    out: &mut Vec<u8>,
    sets: &Sets,
    var: Var,
    value: Frac,
) -> Result<(), AllocError>
    requires listed { IsKind var.kind }
    requires within { VariableIsWithin sets.now var }
    ensures { OnOk result (out.new.items ≡ out.old.items ++ records_text (direction_table sets.now ((var, value_of value) ∷ [])).records) }
{
    if !is_chosen(var) || is_zero(value) {
        return Ok(());
    }
    let mut start = ByteRecord::new(alloc);
    push_field(&mut start, var_word(var.kind).as_bytes())?;
    push_amount_record(
        alloc,
        out,
        sets,
        start,
        &places_of_kind(var.kind),
        var.index,
        value,
    )
}

// Whether a variable is one that is chosen: all others follow from these.
fn is_chosen(var: Var) -> bool
    ensures { result ≡ is_chosen var }
{
    var.kind == RATE_OF_ACTIVITY || var.kind == NEW_CAPACITY || var.kind == TRADE
}
