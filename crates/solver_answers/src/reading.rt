//! The answer of a file of any form.

ghost use Rattle.std.specs.Prelude.{◌≡◌, IfErr, IfOk, IsTrue};
ghost use Rattle.std.specs.List.{AllByRecursion};
ghost use Rattle.row_core.specs.Numbers.{ascends};
ghost use Rattle.row_core.specs.Order.{var_cmp};
ghost use Rattle.mps_meaning.specs.Lines.{lines};
ghost use Rattle.plan_files.specs.Listed.{IsListedVariable};
ghost use Rattle.solver_answers.specs.Answers.{IsAnswerTo, IsFailOfText, first_words, form_of};

use crate::answer::{Answer, AnswerFail};
use crate::form::{Form, form_of};
use crate::lines::read_lines;
use crate::tables::read_table;
use crate::words::split_line;
use model_sets::Sets;
use row_core::Var;
use std::alloc::Global;

/// The values that a file gives to these variables, over a model with so many rows: a solver's answer to the text of
/// `osemosys mps`, or the CSV file of a plan or of a proof. Which it is the first word of the first line tells, without regard
/// to case.
///
/// Refuses the first line that breaks the form of the file, or the first such record of a CSV file (`Fault`). Else only where
/// memory runs out.
pub fn read_answer(
    alloc: Global,
    text: &[u8],
    vars: &[Var],
    rows: usize,
    sets: &Sets,
) -> Result<Answer, AnswerFail>
    requires ascending { IsTrue (ascends var_cmp vars.now) }
    requires listed { AllByRecursion (IsListedVariable sets.now) vars.now }
    ensures answer { IfOk result (IsAnswerTo sets.now vars.now rows text.now) }
    ensures fault { IfErr result (IsFailOfText sets.now vars.now rows text.now) }
{
    match form_of_text(text) {
        Some(form) => read_lines(alloc, form, vars.len(), rows, text),
        None => read_table(alloc, text, vars, sets),
    }
}

/// The form of a text, by its first line.
fn form_of_text(text: &[u8]) -> Option<Form>
    ensures { result ≡ form_of (first_words (lines text.now)) }
{
    let (line, _) = split_line(text)?;
    form_of(line)
}
