//! The tables of quantities, one for each of twelve kinds of variables.

ghost use Rattle.std.specs.Prelude.{◌≡◌, ◌++◌, ◌∷◌, [], OnOk, map};
ghost use Rattle.std.specs.List.{AllByRecursion, flat_map};
ghost use Rattle.plan_files.specs.Listed.{IsListedVariable};
ghost use Rattle.plan_files.specs.Texts.{records_text};
ghost use Rattle.row_core.specs.Kinds.{IsKind};
ghost use Rattle.row_core.specs.NameTexts.{VariableIsWithin};
ghost use Rattle.result_tables.specs.Tables.{kind_table, table_kinds, table_text};

use crate::lines::push_heading;
use crate::records::{is_zero, push_amount_record};
use csv::ByteRecord;
use model_sets::Sets;
use plan_files::places_of_kind;
use row_core::kind_numbers::{
    ANNUAL_EMISSIONS, DISCOUNTED_CAPITAL_INVESTMENT, DISCOUNTED_OPERATING_COST,
    DISCOUNTED_SALVAGE_VALUE, DISCOUNTED_TECHNOLOGY_EMISSIONS_PENALTY, NEW_CAPACITY,
    PRODUCTION_BY_TECHNOLOGY_ANNUAL, TOTAL_CAPACITY_ANNUAL, TOTAL_DISCOUNTED_COST,
    TOTAL_TECHNOLOGY_ANNUAL_ACTIVITY, TRADE_ANNUAL, USE_BY_TECHNOLOGY_ANNUAL,
};
use row_core::{Plan, Var, var_word};
use std::alloc::{AllocError, Global};

/// The kinds that have a table, in its order.
const TABLE_KINDS: [u8; 12] = [
    NEW_CAPACITY,
    TOTAL_CAPACITY_ANNUAL,
    TOTAL_TECHNOLOGY_ANNUAL_ACTIVITY,
    PRODUCTION_BY_TECHNOLOGY_ANNUAL,
    USE_BY_TECHNOLOGY_ANNUAL,
    TRADE_ANNUAL,
    ANNUAL_EMISSIONS,
    DISCOUNTED_CAPITAL_INVESTMENT,
    DISCOUNTED_OPERATING_COST,
    DISCOUNTED_TECHNOLOGY_EMISSIONS_PENALTY,
    DISCOUNTED_SALVAGE_VALUE,
    TOTAL_DISCOUNTED_COST,
];

/// Appends the tables of all these kinds.
pub(crate) fn push_kind_tables(
    alloc: Global,
    out: &mut Vec<u8>,
    sets: &Sets,
    vars: &[Var],
    plan: &Plan,
) -> Result<(), AllocError>
    requires { AllByRecursion (IsListedVariable sets.now) vars.now }
    ensures { OnOk result (out.new.items ≡ out.old.items ++ flat_map table_text (map (kind_table sets.now vars.now plan.now) table_kinds)) }
{
    for kind in TABLE_KINDS {
        push_kind_table(alloc, out, sets, kind, vars, plan)?;
    }
    Ok(())
}

// Appends the table of a kind.
fn push_kind_table(
    alloc: Global,
    out: &mut Vec<u8>,
    sets: &Sets,
    kind: u8,
    vars: &[Var],
    plan: &Plan,
) -> Result<(), AllocError>
    requires listed { IsKind kind }
    requires vars { AllByRecursion (IsListedVariable sets.now) vars.now }
    ensures { OnOk result (out.new.items ≡ out.old.items ++ table_text (kind_table sets.now vars.now plan.now kind)) }
{
    push_heading(out, var_word(kind).as_bytes())?;
    push_quantities(alloc, out, sets, kind, vars, plan)
}

// Appends the records of a kind.
fn push_quantities(
    alloc: Global,
    out: &mut Vec<u8>,
    sets: &Sets,
    kind: u8,
    vars: &[Var],
    plan: &Plan,
) -> Result<(), AllocError>
    requires listed { IsKind kind }
    requires vars { AllByRecursion (IsListedVariable sets.now) vars.now }
    ensures { OnOk result (out.new.items ≡ out.old.items ++ records_text (kind_table sets.now vars.now plan.now kind).records) }
{
    for var in vars {
        push_quantity(alloc, out, sets, kind, *var, plan)?;
    }
    Ok(())
}

// Appends the record of a variable, where it is of the kind and its value isn't 0.
fn push_quantity(
    alloc: Global,
    out: &mut Vec<u8>,
    sets: &Sets,
    kind: u8,
    var: Var,
    plan: &Plan,
) -> Result<(), AllocError>
    requires listed { IsKind var.kind }
    requires within { VariableIsWithin sets.now var }
    ensures { OnOk result (out.new.items ≡ out.old.items ++ records_text (kind_table sets.now (var ∷ []) plan.now kind).records) }
{
    if var.kind != kind {
        return Ok(());
    }
    let value = plan.value(var);
    if is_zero(value) {
        return Ok(());
    }
    push_amount_record(
        alloc,
        out,
        sets,
        ByteRecord::new(alloc),
        &places_of_kind(var.kind),
        var.index,
        value,
    )
}
