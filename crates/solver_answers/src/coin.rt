//! The texts that `-solution` of Clp and CBC writes.

ghost use Rattle.std.specs.Prelude.{◌≡◌};
ghost use Rattle.solver_answers.specs.CoinTexts.{coin_line, coin_record, coin_state, coin_values, has_values, is_state};
ghost use Rattle.solver_answers.specs.Words.{words};

use crate::found::Found;
use crate::names::at_name;
use crate::numbers::number_in;
use crate::words::{says, split_word};

/// Whether a first line that begins with this word is one of Clp or CBC.
pub(crate) fn is_state(word: &[u8]) -> bool
    ensures { result ≡ is_state word.now }
{
    has_values(word)
        || says(word, b"infeasible")
        || says(word, b"unbounded")
        || says(word, b"integer")
        || says(word, b"status")
}

/// Whether values follow after this word.
fn has_values(word: &[u8]) -> bool
    ensures { result ≡ has_values word.now }
{
    says(word, b"optimal") || says(word, b"stopped")
}

/// What the first line tells.
pub(crate) fn coin_state(line: &[u8]) -> Found
    ensures { result ≡ coin_state (words line.now) }
{
    match split_word(line) {
        Some((first, _)) if has_values(first) => Found::Blank,
        _ => Found::Nothing,
    }
}

/// What a later line tells.
pub(crate) fn coin_line(columns: usize, rows: usize, line: &[u8]) -> Found
    ensures { result ≡ coin_line columns rows (words line.now) }
{
    let Some((first, later)) = split_word(line) else {
        return Found::Blank;
    };
    if says(first, b"objective") {
        Found::Blank
    } else if says(first, b"**") {
        coin_record(columns, rows, later)
    } else {
        coin_values(columns, rows, later)
    }
}

/// What a record tells: a number, and what follows it.
fn coin_record(columns: usize, rows: usize, line: &[u8]) -> Found
    ensures { result ≡ coin_record columns rows (words line.now) }
{
    match split_word(line) {
        Some((_, later)) => coin_values(columns, rows, later),
        None => Found::Wrong,
    }
}

/// What a name, its value and its dual tell.
fn coin_values(columns: usize, rows: usize, values: &[u8]) -> Found
    ensures { result ≡ coin_values columns rows (words values.now) }
{
    let Some((name, values)) = split_word(values) else {
        return Found::Wrong;
    };
    let Some((value, values)) = split_word(values) else {
        return Found::Wrong;
    };
    let found = at_name(columns, rows, name, number_in(value));
    let Some((dual, values)) = split_word(values) else {
        return found;
    };
    match (number_in(dual), split_word(values)) {
        (Some(_), None) => found,
        _ => Found::Wrong,
    }
}
