//! Proofs as text.

ghost use Rattle.std.specs.Prelude.{◌≡◌, ◌++◌, IfOk, OnOk, map};
ghost use Rattle.std.specs.List.{AllByRecursion};
ghost use Rattle.exact_num.specs.Value.{value_of};
ghost use Rattle.row_core.specs.Equations.{IsEquation};
ghost use Rattle.row_core.specs.Kinds.{IsKind};
ghost use Rattle.row_core.specs.NameTexts.{RowNameIsWithin, VariableIsWithin};
ghost use Rattle.csv.specs.Writing.{default_writer, row_text};
ghost use Rattle.plan_files.specs.Texts.{records_text};
ghost use Rattle.proof_files.specs.ProofRecords.{descent_file, direction_record, optimum_file, refutation_file};

use crate::names::direction_word;
use exact_num::Frac;
use model_sets::Sets;
use plan_files::{header_text, multiplier_text, push_multipliers, push_plan, push_value};
use row_core::{Multipliers, Plan, Var};
use std::alloc::{AllocError, Global};

/// An optimum as CSV text: the header, a record for each variable of the plan, and one for each row whose multiplier isn't 0.
/// Refuses where memory runs out.
pub fn optimum_text(
    alloc: Global,
    plan: &Plan,
    multipliers: &Multipliers,
    sets: &Sets,
) -> Result<Vec<u8>, AllocError>
    requires plan { AllByRecursion (λ e. IsKind e.0.kind × VariableIsWithin sets.now e.0) plan.now }
    requires multipliers { AllByRecursion (λ e. IsEquation e.0.eq × RowNameIsWithin sets.now e.0) multipliers.now }
    ensures { IfOk result (λ text. text.items ≡ optimum_file sets.now plan.now multipliers.now) }
{
    let mut out = header_text(alloc)?;
    push_plan(alloc, &mut out, plan, sets)?;
    push_multipliers(alloc, &mut out, multipliers, sets)?;
    Ok(out)
}

/// A refutation as CSV text: the header, and a record for each row whose multiplier isn't 0. Refuses where memory runs out.
pub fn refutation_text(
    alloc: Global,
    multipliers: &Multipliers,
    sets: &Sets,
) -> Result<Vec<u8>, AllocError>
    requires { AllByRecursion (λ e. IsEquation e.0.eq × RowNameIsWithin sets.now e.0) multipliers.now }
    ensures { IfOk result (λ text. text.items ≡ refutation_file sets.now multipliers.now) }
{
    multiplier_text(alloc, multipliers, sets)
}

/// A plan and a direction as CSV text: the header, a record for each variable of the plan, and one for each variable of the
/// direction. Refuses where memory runs out.
pub fn descent_text(
    alloc: Global,
    plan: &Plan,
    direction: &Plan,
    sets: &Sets,
) -> Result<Vec<u8>, AllocError>
    requires plan { AllByRecursion (λ e. IsKind e.0.kind × VariableIsWithin sets.now e.0) plan.now }
    requires direction { AllByRecursion (λ e. IsKind e.0.kind × VariableIsWithin sets.now e.0) direction.now }
    ensures { IfOk result (λ text. text.items ≡ descent_file sets.now plan.now direction.now) }
{
    let mut out = header_text(alloc)?;
    push_plan(alloc, &mut out, plan, sets)?;
    push_direction(alloc, &mut out, direction, sets)?;
    Ok(out)
}

/// Appends a record for each variable of a direction, in order.
fn push_direction(
    alloc: Global,
    out: &mut Vec<u8>,
    direction: &Plan,
    sets: &Sets,
) -> Result<(), AllocError>
    requires { AllByRecursion (λ e. IsKind e.0.kind × VariableIsWithin sets.now e.0) direction.now }
    ensures { OnOk result (out.new.items ≡ out.old.items ++ records_text (map (direction_record sets.now) direction.now)) }
{
    let entries = direction.entries();
    for (variable, value) in entries {
        push_change(alloc, out, sets, *variable, *value)?;
    }
    Ok(())
}

/// Appends the record of a variable of a direction.
fn push_change(
    alloc: Global,
    out: &mut Vec<u8>,
    sets: &Sets,
    variable: Var,
    value: Frac,
) -> Result<(), AllocError>
    requires listed { IsKind variable.kind }
    requires within { VariableIsWithin sets.now variable }
    ensures { OnOk result (out.new.items ≡ out.old.items ++ row_text default_writer (direction_record sets.now (variable, value_of value))) }
{
    let word = direction_word(alloc, variable.kind)?;
    push_value(alloc, out, sets, &word, variable, value)
}
