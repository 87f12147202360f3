//! The texts that HiGHS writes in its raw form.

ghost use Rattle.std.specs.Prelude.{◌≡◌};
ghost use Rattle.solver_answers.specs.HighsTexts.{highs_columns, highs_head, highs_line, highs_rows, highs_state, highs_word};
ghost use Rattle.solver_answers.specs.Words.{words};

use crate::found::Found;
use crate::names::at_name;
use crate::numbers::{is_count, number_in, whole_in};
use crate::words::{says, split_word};

/// What the second line tells: how the search ended.
pub(crate) fn highs_state(line: &[u8]) -> Found
    ensures { result ≡ highs_state (words line.now) }
{
    let Some((first, _)) = split_word(line) else {
        return Found::Wrong;
    };
    if says(first, b"Infeasible") || says(first, b"Unbounded") || says(first, b"Primal") {
        Found::Nothing
    } else {
        Found::Blank
    }
}

/// What a later line tells.
pub(crate) fn highs_line(columns: usize, rows: usize, line: &[u8]) -> Found
    ensures { result ≡ highs_line columns rows (words line.now) }
{
    let Some((first, later)) = split_word(line) else {
        return Found::Blank;
    };
    let Some((second, rest)) = split_word(later) else {
        return highs_word(first);
    };
    if says(first, b"#") {
        highs_head(columns, second, rest)
    } else if says(first, b"Objective") {
        Found::Blank
    } else {
        match split_word(rest) {
            None => at_name(columns, rows, first, number_in(second)),
            Some(_) => Found::Wrong,
        }
    }
}

/// What a line of one word tells: whether there are values.
fn highs_word(word: &[u8]) -> Found
    ensures { result ≡ highs_word word.now }
{
    if says(word, b"None") {
        Found::Nothing
    } else if says(word, b"Feasible") || says(word, b"Infeasible") {
        Found::Blank
    } else {
        Found::Wrong
    }
}

/// What the head of a part tells, by its first word and what follows it.
fn highs_head(columns: usize, word: &[u8], later: &[u8]) -> Found
    ensures { result ≡ highs_head columns word.now (words later.now) }
{
    if says(word, b"Primal") {
        Found::Blank
    } else if says(word, b"Dual") {
        Found::End
    } else if says(word, b"Columns") {
        highs_columns(columns, later)
    } else if says(word, b"Rows") {
        highs_rows(later)
    } else {
        Found::Wrong
    }
}

/// What the number of columns tells.
fn highs_columns(columns: usize, later: &[u8]) -> Found
    ensures { result ≡ highs_columns columns (words later.now) }
{
    match split_word(later) {
        Some((number, _)) if is_count(columns, number) => Found::Blank,
        _ => Found::Wrong,
    }
}

/// What the number of rows tells, which may be those of the smaller program.
fn highs_rows(later: &[u8]) -> Found
    ensures { result ≡ highs_rows (words later.now) }
{
    match split_word(later) {
        Some((number, _)) if whole_in(number).is_some() => Found::Blank,
        _ => Found::Wrong,
    }
}
