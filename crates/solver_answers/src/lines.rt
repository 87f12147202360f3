//! Answers that are read line by line.

ghost use Rattle.std.specs.Prelude.{◌≡◌, ◌≤◌, IfErr, IfOk};
ghost use Rattle.solver_answers.specs.Answers.{found_in, text_tells};
ghost use Rattle.solver_answers.specs.Told.{IsAnswer, IsFailOf};
ghost use Rattle.solver_answers.specs.Words.{words};

use crate::answer::{Answer, AnswerFail};
use crate::coin::{coin_line, coin_state};
use crate::form::{Form, ends_with_mark};
use crate::found::Found;
use crate::glpsol::glpsol_line;
use crate::highs::{highs_line, highs_state};
use crate::start::no_start;
use crate::words::split_line;
use std::alloc::Global;

/// What a text in this form tells, over so many columns and rows.
pub(crate) fn read_lines(
    alloc: Global,
    form: Form,
    columns: usize,
    rows: usize,
    text: &[u8],
) -> Result<Answer, AnswerFail>
    ensures answer { IfOk result (IsAnswer columns (text_tells form columns rows text.now)) }
    ensures fault { IfErr result (IsFailOf (text_tells form columns rows text.now)) }
{
    let mut start = no_start(alloc, columns)?;
    let mut left = text;
    for number in 1..u64::MAX {
        let Some((line, later)) = split_line(left) else {
            if ends_with_mark(form) {
                return Err(AnswerFail::Fault(number));
            }
            return Ok(Answer::Start(start));
        };
        match found_in(form, columns, rows, number, line) {
            Found::Nothing => return Ok(Answer::NoStart),
            Found::End => return Ok(Answer::Start(start)),
            Found::Wrong => return Err(AnswerFail::Fault(number)),
            found => start.take(found),
        }
        left = later;
    }
    Err(AnswerFail::Memory)
}

/// What the line of this number tells.
fn found_in(form: Form, columns: usize, rows: usize, number: u64, line: &[u8]) -> Found
    ensures { result ≡ found_in form columns rows number (words line.now) }
{
    match (form, number) {
        (Form::Coin, 1) => coin_state(line),
        (Form::Coin, _) => coin_line(columns, rows, line),
        (Form::Glpsol, _) => glpsol_line(columns, line),
        (Form::Highs, 1) => Found::Blank,
        (Form::Highs, 2) => highs_state(line),
        (Form::Highs, _) => highs_line(columns, rows, line),
    }
}
