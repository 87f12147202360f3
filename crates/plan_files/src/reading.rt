//! Plans and multipliers from text.

ghost use Rattle.std.specs.Prelude.{◌≡◌, ◌<◌, ℕ, List, Option, IfOk, IfErr, IfSome, IsTrue, length, map};
ghost use Rattle.std.specs.Fn.{FnReturnsAt};
ghost use Rattle.std.specs.List.{AllByRecursion};
ghost use Rattle.csv.specs.Records.{Row as CsvRow, fields_of};
ghost use Rattle.row_core.specs.Numbers.{ascends};
ghost use Rattle.row_core.specs.Order.{var_cmp, row_name_cmp};
ghost use Rattle.plan_files.specs.Answers.{AreMultipliers, BreaksFirst, IsFailOf, IsMultiplierFault, IsPlan, IsPlanFault, row_names, variable_names};
ghost use Rattle.plan_files.specs.Files.{Fields, name_of, records_of};
ghost use Rattle.plan_files.specs.Listed.{IsListedRow, IsListedVariable, name_of_row};
ghost use Rattle.plan_files.specs.Reading.{AreRead, FindsPlaces, IsEntry};

use crate::faults::{PlanFail, PlanFault};
use crate::header::read_header;
use crate::names::{place_of_row, place_of_variable};
use crate::records::{next_record, reader_of};
use crate::values::{first_without, no_values, take, with_values};
use csv::ByteRecord;
use exact_num::Frac;
use model_sets::Sets;
use row_core::{Multipliers, Plan, Row, RowName, Var};
use std::alloc::{AllocError, Global};

/// The plan of a CSV text: the header, and one record for each of these variables, in any order. The records are those that
/// `csv` reads by default (RFC 4180): blank lines are none.
///
/// Refuses the first record that breaks a rule, by the first rule that it breaks: ten fields, and of record 1 the header
/// (`BadRecord`); nine fields that name one of the variables, those of subscripts that it doesn't have empty (`UnknownVar`); a
/// variable that no earlier record names (`Twice`); and an exact value whose numbers fit (`BadValue`). After the last record the
/// first of the variables without one (`Missing`). Else only where memory runs out.
pub fn read_plan(alloc: Global, text: &[u8], vars: &[Var], sets: &Sets) -> Result<Plan, PlanFail>
    requires ascending { IsTrue (ascends var_cmp vars.now) }
    requires listed { AllByRecursion (IsListedVariable sets.now) vars.now }
    ensures plan { IfOk result (IsPlan sets.now vars.now (records_of text.now)) }
    ensures fault { IfErr result (IsFailOf (IsPlanFault sets.now vars.now (records_of text.now))) }
{
    let values = plan_values(alloc, text, vars, sets)?;
    if let Some(variable) = first_without(vars, &values) {
        return Err(PlanFail::Fault(PlanFault::Missing(variable)));
    }
    Ok(Plan::of(with_values(alloc, vars, &values)?))
}

/// The multipliers of a CSV text: the header, and at most one record for each of these rows, in any order; a row without a record
/// has the multiplier 0. Refuses as `read_plan` does, but none is missing.
pub fn read_multipliers(
    alloc: Global,
    text: &[u8],
    rows: &[Row],
    sets: &Sets,
) -> Result<Multipliers, PlanFail>
    requires ascending { IsTrue (ascends row_name_cmp (map name_of_row rows.now)) }
    requires listed { AllByRecursion (IsListedRow sets.now) (map name_of_row rows.now) }
    ensures multipliers { IfOk result (AreMultipliers sets.now (map name_of_row rows.now) (records_of text.now)) }
    ensures fault { IfErr result (IsFailOf (IsMultiplierFault sets.now (map name_of_row rows.now) (records_of text.now))) }
{
    let names = names_of(alloc, rows)?;
    let values = multiplier_values(alloc, text, &names, sets)?;
    Ok(Multipliers::of(with_values(alloc, &names, &values)?))
}

/// The names of the rows. Refuses where memory runs out.
pub fn names_of(alloc: Global, rows: &[Row]) -> Result<Vec<RowName>, AllocError>
    ensures { IfOk result (λ names. names.items ≡ map name_of_row rows.now) }
{
    let mut names = Vec::with_capacity(alloc, rows.len())?;
    for row in rows {
        names.push(row.name)?;
    }
    Ok(names)
}

/// The value that the records give to each variable, none where no record names it.
fn plan_values(
    alloc: Global,
    text: &[u8],
    vars: &[Var],
    sets: &Sets,
) -> Result<Vec<Option<Frac>>, PlanFail>
    requires ascending { IsTrue (ascends var_cmp vars.now) }
    requires listed { AllByRecursion (IsListedVariable sets.now) vars.now }
    ensures read { IfOk result (λ values. AreRead (variable_names sets.now vars.now) (records_of text.now) values.items) }
    ensures fault { IfErr result (IsFailOf (BreaksFirst (variable_names sets.now vars.now) (records_of text.now))) }
{
    read_values(
        alloc,
        text,
        vars.len(),
        |fields: &ByteRecord|
            requires ascending { IsTrue (ascends var_cmp vars.now) }
            requires listed { AllByRecursion (IsListedVariable sets.now) vars.now }
            ensures { IsEntry (variable_names sets.entry.now vars.entry.now) (name_of (fields_of fields.now)) result }
        { place_of_variable(fields, vars, sets) },
    )
}

/// The multiplier that the records give to each row, none where no record names it.
fn multiplier_values(
    alloc: Global,
    text: &[u8],
    names: &[RowName],
    sets: &Sets,
) -> Result<Vec<Option<Frac>>, PlanFail>
    requires ascending { IsTrue (ascends row_name_cmp names.now) }
    requires listed { AllByRecursion (IsListedRow sets.now) names.now }
    ensures read { IfOk result (λ values. AreRead (row_names sets.now names.now) (records_of text.now) values.items) }
    ensures fault { IfErr result (IsFailOf (BreaksFirst (row_names sets.now names.now) (records_of text.now))) }
{
    read_values(
        alloc,
        text,
        names.len(),
        |fields: &ByteRecord|
            requires ascending { IsTrue (ascends row_name_cmp names.now) }
            requires listed { AllByRecursion (IsListedRow sets.now) names.now }
            ensures { IsEntry (row_names sets.entry.now names.entry.now) (name_of (fields_of fields.now)) result }
        { place_of_row(fields, names, sets) },
    )
}

/// The value that the records of a text give to each of so many names, none where no record has the name; `place_of` finds the
/// place of the name that a record has. Refuses a text without the header, and the first record that breaks a rule, and else
/// only where memory runs out.
pub fn read_values<P: Fn(&ByteRecord) -> Option<usize>>(
    alloc: Global,
    text: &[u8],
    count: usize,
    place_of: P,
) -> Result<Vec<Option<Frac>>, PlanFail>
    requires callable { P.IsAlwaysCallable place_of }
    requires within { (fields : CsvRow) (place : Option ℕ) → FnReturnsAt P.Fn place_of fields place → IfSome place (λ i. i < count) }
    ensures read { (names : List Fields) → count ≡ length names → FindsPlaces names (FnReturnsAt P.Fn place_of)
        → IfOk result (λ values. AreRead names (records_of text.now) values.items) }
    ensures fault { (names : List Fields) → count ≡ length names → FindsPlaces names (FnReturnsAt P.Fn place_of)
        → IfErr result (IsFailOf (BreaksFirst names (records_of text.now))) }
{
    let mut values = no_values(alloc, count)?;
    let mut reader = reader_of(alloc, text);
    let mut fields = ByteRecord::new(alloc);
    read_header(&mut reader, &mut fields)?;
    for number in 2..u64::MAX {
        if !next_record(&mut reader, &mut fields)? {
            return Ok(values);
        }
        let place = place_of(&fields);
        take(&mut values, &fields, number, place)?;
    }
    Err(PlanFail::Memory)
}
