//! A proof from text.

ghost use Rattle.std.specs.Prelude.{◌≡◌, ◌<◌, ◌+◌, ◌^◌, IfOk, IfErr, IsTrue, List, OnOk, is_none, length, map};
ghost use Rattle.std.specs.List.{AllByRecursion, list_all};
ghost use Rattle.csv.specs.Records.{fields_of};
ghost use Rattle.model_sets.specs.Members.{SetLists};
ghost use Rattle.row_core.specs.Numbers.{ascends};
ghost use Rattle.row_core.specs.Order.{var_cmp, row_name_cmp};
ghost use Rattle.row_core.specs.Plans.{valued};
ghost use Rattle.plan_files.specs.Answers.{BreaksFirst, IsFailOf, row_names, variable_names};
ghost use Rattle.plan_files.specs.Files.{Fields, name_of, records_of};
ghost use Rattle.plan_files.specs.Listed.{IsListedRow, IsListedVariable, name_of_row};
ghost use Rattle.plan_files.specs.Reading.{AreRead, AreTaken, IsEntry, with_values};
ghost use Rattle.proof_files.specs.ProofRecords.{direction_names, proof_names};
ghost use Rattle.proof_files.specs.Proofs.{AreRecordsOf, IsProof, IsProofFault, MissesFirst};

use crate::names::place_named;
use crate::proof::Proof;
use csv::ByteRecord;
use exact_num::Frac;
use model_sets::Sets;
use plan_files::{PlanFail, PlanFault, first_without, names_of, read_values, with_values};
use row_core::{Multipliers, Plan, Row, RowName, Var};
use std::alloc::{AllocError, Global};

/// The proof of a CSV text: the header, and then records in any order, at most one for each of these variables, for each of
/// these rows, and for each of these variables in a direction. Without a record of a variable or of a direction it is a
/// refutation; with one of a direction a plan and the direction; and else a plan and multipliers. What has no record has the
/// value 0, but in a plan.
///
/// Refuses as `read_plan` of `plan_files` does: the first record that breaks a rule, by the first rule that it breaks; and
/// after the last record, where one is of a variable or of a direction, the first of the variables without one (`Missing`).
/// Else only where memory runs out.
pub fn read_proof(
    alloc: Global,
    text: &[u8],
    vars: &[Var],
    rows: &[Row],
    sets: &Sets,
) -> Result<Proof, PlanFail>
    requires ascending_vars { IsTrue (ascends var_cmp vars.now) }
    requires listed_vars { AllByRecursion (IsListedVariable sets.now) vars.now }
    requires ascending_rows { IsTrue (ascends row_name_cmp (map name_of_row rows.now)) }
    requires listed_rows { AllByRecursion (IsListedRow sets.now) (map name_of_row rows.now) }
    ensures proof { IfOk result (IsProof sets.now vars.now (map name_of_row rows.now) (records_of text.now)) }
    ensures fault { IfErr result (IsFailOf (IsProofFault sets.now vars.now (map name_of_row rows.now) (records_of text.now))) }
{
    let names = names_of(alloc, rows)?;
    let values = proof_values(alloc, text, vars, &names, sets)?;
    proof_of(alloc, vars, &names, &values)
}

/// The values that the records give: of the variables, then of the rows, then of the variables of a direction; none where no
/// record is of one.
fn proof_values(
    alloc: Global,
    text: &[u8],
    vars: &[Var],
    names: &[RowName],
    sets: &Sets,
) -> Result<Vec<Option<Frac>>, PlanFail>
    requires ascending_vars { IsTrue (ascends var_cmp vars.now) }
    requires listed_vars { AllByRecursion (IsListedVariable sets.now) vars.now }
    requires ascending_rows { IsTrue (ascends row_name_cmp names.now) }
    requires listed_rows { AllByRecursion (IsListedRow sets.now) names.now }
    ensures read { IfOk result (λ values. AreRead (proof_names sets.now vars.now names.now) (records_of text.now) values.items) }
    ensures fault { IfErr result (IsFailOf (BreaksFirst (proof_names sets.now vars.now names.now) (records_of text.now))) }
{
    let count = count_of(vars.len(), names.len())?;
    read_values(
        alloc,
        text,
        count,
        |fields: &ByteRecord|
            requires ascending_vars { IsTrue (ascends var_cmp vars.now) }
            requires listed_vars { AllByRecursion (IsListedVariable sets.now) vars.now }
            requires ascending_rows { IsTrue (ascends row_name_cmp names.now) }
            requires listed_rows { AllByRecursion (IsListedRow sets.now) names.now }
            requires room { length vars.now + length names.now + length vars.now < 2 ^ 64 }
            ensures { IsEntry (proof_names sets.entry.now vars.entry.now names.entry.now) (name_of (fields_of fields.now)) result }
        { place_named(fields, vars, names, sets) },
    )
}

/// How many values there may be of so many variables and rows. Refuses a number that no memory holds.
fn count_of(vars: usize, names: usize) -> Result<usize, AllocError>
    ensures count { IfOk result (λ count. count ≡ vars + names + vars) }
    ensures room { OnOk result (vars + names + vars < 2 ^ 64) }
{
    let Some(both) = vars.checked_add(names) else {
        return Err(AllocError);
    };
    match both.checked_add(vars) {
        Some(count) => Ok(count),
        None => Err(AllocError),
    }
}

/// The proof that has these values: of the variables, then of the rows, then of the variables of a direction.
fn proof_of(
    alloc: Global,
    vars: &[Var],
    names: &[RowName],
    values: &[Option<Frac>],
) -> Result<Proof, PlanFail>
    requires ascending_vars { IsTrue (ascends var_cmp vars.now) }
    requires ascending_rows { IsTrue (ascends row_name_cmp names.now) }
    requires many { length values.now ≡ length vars.now + length names.now + length vars.now }
    ensures proof { (sets : SetLists) (rows : List Fields) → AreTaken (proof_names sets vars.now names.now) rows values.now → IfOk result (AreRecordsOf sets vars.now names.now rows) }
    ensures missing { (sets : SetLists) (rows : List Fields) → AreTaken (proof_names sets vars.now names.now) rows values.now → IfErr result (IsFailOf (MissesFirst sets vars.now rows)) }
{
    let (of_plan, others) = values.split_at(vars.len());
    let (of_rows, of_direction) = others.split_at(names.len());
    proof_with(alloc, vars, names, of_plan, of_rows, of_direction)
}

/// The same where the values stand apart.
fn proof_with(
    alloc: Global,
    vars: &[Var],
    names: &[RowName],
    of_plan: &[Option<Frac>],
    of_rows: &[Option<Frac>],
    of_direction: &[Option<Frac>],
) -> Result<Proof, PlanFail>
    requires ascending_vars { IsTrue (ascends var_cmp vars.now) }
    requires ascending_rows { IsTrue (ascends row_name_cmp names.now) }
    requires values { length of_plan.now ≡ length vars.now }
    requires multipliers { length of_rows.now ≡ length names.now }
    requires changes { length of_direction.now ≡ length vars.now }
    ensures proof { (sets : SetLists) (rows : List Fields) → AreTaken (variable_names sets vars.now) rows of_plan.now
        → AreTaken (row_names sets names.now) rows of_rows.now → AreTaken (direction_names sets vars.now) rows of_direction.now
        → IfOk result (AreRecordsOf sets vars.now names.now rows) }
    ensures missing { (sets : SetLists) (rows : List Fields) → AreTaken (variable_names sets vars.now) rows of_plan.now
        → AreTaken (row_names sets names.now) rows of_rows.now → AreTaken (direction_names sets vars.now) rows of_direction.now
        → IfErr result (IsFailOf (MissesFirst sets vars.now rows)) }
{
    let direction = plan_with(alloc, vars, of_direction)?;
    let multipliers = multipliers_with(alloc, names, of_rows)?;
    if has_none(of_plan) && has_none(of_direction) {
        return Ok(Proof::Refutation { multipliers });
    }
    if let Some(variable) = first_without(vars, of_plan) {
        return Err(PlanFail::Fault(PlanFault::Missing(variable)));
    }
    let plan = plan_with(alloc, vars, of_plan)?;
    if has_none(of_direction) {
        Ok(Proof::Optimum { plan, multipliers })
    } else {
        Ok(Proof::Descent { plan, direction })
    }
}

/// The values that there are, of variables.
fn plan_with(alloc: Global, vars: &[Var], values: &[Option<Frac>]) -> Result<Plan, AllocError>
    requires ascending { IsTrue (ascends var_cmp vars.now) }
    requires many { length values.now ≡ length vars.now }
    ensures { IfOk result (λ plan. plan ≡ map valued (with_values vars.now values.now)) }
{
    Ok(Plan::of(with_values(alloc, vars, values)?))
}

/// The values that there are, of rows.
fn multipliers_with(
    alloc: Global,
    names: &[RowName],
    values: &[Option<Frac>],
) -> Result<Multipliers, AllocError>
    requires ascending { IsTrue (ascends row_name_cmp names.now) }
    requires many { length values.now ≡ length names.now }
    ensures { IfOk result (λ multipliers. multipliers ≡ map valued (with_values names.now values.now)) }
{
    Ok(Multipliers::of(with_values(alloc, names, values)?))
}

/// Whether there is no value.
fn has_none(values: &[Option<Frac>]) -> bool
    ensures { result ≡ list_all is_none values.now }
{
    for value in values {
        if value.is_some() {
            return false;
        }
    }
    true
}
