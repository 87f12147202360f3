// The text of a conflict.
ghost use Rattle.std.specs.Prelude.{◌≡◌, ◌++◌, IfOk, OnOk, length, map};
ghost use Rattle.std.specs.List.{AllByRecursion, flat_map};
ghost use Rattle.row_core.specs.Kinds.{IsKind};
ghost use Rattle.row_core.specs.NameTexts.{VariableIsWithin};
ghost use Rattle.row_core.specs.Plans.{valued};
ghost use Rattle.exact_num.specs.Value.{value_of};
ghost use Rattle.command_answers.specs.CheckedPlans.{IsListedBook};
ghost use Rattle.command_answers.specs.PlacesWithin.{IsRowOfSets};
ghost use Rattle.conflict_sets.specs.Conflicts.{IsConflict};
ghost use Rattle.explain_command.specs.Texts.{all_plan_lines, conflict_text, member_line, plan_lines};

use command_answers::{push_count, push_with_row};
use conflict_sets::Conflict;
use exact_num::Frac;
use model_sets::Sets;
use result_tables::push_chosen_values;
use row_book::RowBook;
use row_core::{Plan, RowName};
use scaled_decimals::push_frac;
use std::alloc::{AllocError, Global};

/// The text of a conflict of the rows of a book.
pub fn conflict_text(
    alloc: Global,
    book: &RowBook,
    sets: &Sets,
    conflict: &Conflict,
) -> Result<Vec<u8>, AllocError>
    requires listed { IsListedBook sets.now book.now.rows book.now.vars }
    requires conflict { IsConflict book.now.rows book.now.vars conflict.now }
    ensures { IfOk result (λ text. text.items ≡ conflict_text sets.now (map valued conflict.now.members.items) conflict.now.plans.items) }
{
    let mut out = Vec::from_slice(alloc, b"status infeasible\n")?;
    push_count(&mut out, b"conflict ", conflict.members.len() as u64)?;
    push_members(&mut out, sets, &conflict.members)?;
    push_plans(alloc, &mut out, sets, &conflict.members, &conflict.plans)?;
    out.extend_from_slice(b"end\n")?;
    Ok(out)
}

// Appends a line for each member.
fn push_members(
    out: &mut Vec<u8>,
    sets: &Sets,
    members: &[(RowName, Frac)],
) -> Result<(), AllocError>
    requires { AllByRecursion (λ member. IsRowOfSets sets.now member.0) members.now }
    ensures { OnOk result (out.new.items ≡ out.old.items ++ flat_map (member_line sets.now) (map valued members.now)) }
{
    for (name, multiplier) in members {
        push_member(out, sets, *name, *multiplier)?;
    }
    Ok(())
}

// Appends the line of a member.
fn push_member(
    out: &mut Vec<u8>,
    sets: &Sets,
    name: RowName,
    multiplier: Frac,
) -> Result<(), AllocError>
    requires { IsRowOfSets sets.now name }
    ensures { OnOk result (out.new.items ≡ out.old.items ++ member_line sets.now (name, value_of multiplier)) }
{
    push_with_row(out, b"equation ", name, sets)?;
    out.extend_from_slice(b" ")?;
    push_frac(out, multiplier)?;
    out.extend_from_slice(b"\n")
}

// Appends the plan of each member.
fn push_plans(
    alloc: Global,
    out: &mut Vec<u8>,
    sets: &Sets,
    members: &[(RowName, Frac)],
    plans: &[Plan],
) -> Result<(), AllocError>
    requires even { length members.now ≡ length plans.now }
    requires members { AllByRecursion (λ member. IsRowOfSets sets.now member.0) members.now }
    requires plans { AllByRecursion (AllByRecursion (λ e. IsKind e.0.kind × VariableIsWithin sets.now e.0)) plans.now }
    ensures { OnOk result (out.new.items ≡ out.old.items ++ all_plan_lines sets.now (map valued members.now) plans.now) }
{
    for (i, plan) in plans.iter().enumerate() {
        let member = members[i];
        push_without(alloc, out, sets, member.0, plan)?;
    }
    Ok(())
}

// Appends the plan of the others where a member is left out.
fn push_without(
    alloc: Global,
    out: &mut Vec<u8>,
    sets: &Sets,
    name: RowName,
    plan: &Plan,
) -> Result<(), AllocError>
    requires name { IsRowOfSets sets.now name }
    requires plan { AllByRecursion (λ e. IsKind e.0.kind × VariableIsWithin sets.now e.0) plan.now }
    ensures { OnOk result (out.new.items ≡ out.old.items ++ plan_lines sets.now name plan.now) }
{
    push_with_row(out, b"without ", name, sets)?;
    out.extend_from_slice(b"\n")?;
    push_chosen_values(alloc, out, sets, plan)
}
