//! CSV files of plans and proofs.

ghost use Rattle.std.specs.Prelude.{◌≡◌, IfErr, IfOk, IsTrue};
ghost use Rattle.std.specs.List.{AllByRecursion};
ghost use Rattle.csv.specs.Records.{fields_of};
ghost use Rattle.row_core.specs.Numbers.{ascends};
ghost use Rattle.row_core.specs.Order.{var_cmp};
ghost use Rattle.plan_files.specs.Answers.{variable_names};
ghost use Rattle.plan_files.specs.Files.{records_of};
ghost use Rattle.plan_files.specs.Listed.{IsListedVariable};
ghost use Rattle.solver_answers.specs.Tables.{IsFound, IsHeaderFail, IsTableAnswer, IsTableFail};

use crate::answer::{Answer, AnswerFail};
use crate::floats::float_of_frac;
use crate::found::Found;
use crate::start::no_start;
use csv::ByteRecord;
use model_sets::Sets;
use plan_files::{PlanFail, field_at, next_record, place_of_variable, read_header, reader_of};
use row_core::Var;
use scaled_decimals::exact_value;
use std::alloc::Global;

/// What a CSV file tells.
pub(crate) fn read_table(
    alloc: Global,
    text: &[u8],
    vars: &[Var],
    sets: &Sets,
) -> Result<Answer, AnswerFail>
    requires ascending { IsTrue (ascends var_cmp vars.now) }
    requires listed { AllByRecursion (IsListedVariable sets.now) vars.now }
    ensures answer { IfOk result (IsTableAnswer (variable_names sets.now vars.now) (records_of text.now)) }
    ensures fault { IfErr result (IsTableFail (variable_names sets.now vars.now) (records_of text.now)) }
{
    let mut start = no_start(alloc, vars.len())?;
    let mut reader = reader_of(alloc, text);
    let mut fields = ByteRecord::new(alloc);
    if let Err(fail) = read_header(&mut reader, &mut fields) {
        return Err(header_fail(fail));
    }
    for number in 2..u64::MAX {
        if !next_record(&mut reader, &mut fields)? {
            return Ok(Answer::Start(start));
        }
        match found_in_record(&fields, vars, sets) {
            Found::Wrong => return Err(AnswerFail::Fault(number)),
            found => start.take(found),
        }
    }
    Err(AnswerFail::Memory)
}

/// Why there is no header, where it is this that was refused.
fn header_fail(fail: PlanFail) -> AnswerFail
    ensures { IsHeaderFail fail result }
{
    match fail {
        PlanFail::Fault(_) => AnswerFail::Fault(1),
        PlanFail::Memory => AnswerFail::Memory,
    }
}

/// What is found in a record.
fn found_in_record(fields: &ByteRecord, vars: &[Var], sets: &Sets) -> Found
    requires ascending { IsTrue (ascends var_cmp vars.now) }
    requires listed { AllByRecursion (IsListedVariable sets.now) vars.now }
    ensures { IsFound (variable_names sets.now vars.now) (fields_of fields.now) result }
{
    if fields.len() != 10 {
        return Found::Wrong;
    }
    let Ok(value) = exact_value(field_at(fields, 9)) else {
        return Found::Wrong;
    };
    match place_of_variable(fields, vars, sets) {
        Some(place) => Found::Value(place, float_of_frac(value)),
        None => Found::Passed,
    }
}
