//! The texts that `-w` of glpsol writes.

ghost use Rattle.std.specs.Prelude.{◌≡◌};
ghost use Rattle.solver_answers.specs.GlpsolTexts.{basic_state, glpsol_column, glpsol_line, glpsol_state, plain_state};
ghost use Rattle.solver_answers.specs.Words.{words};

use crate::found::Found;
use crate::names::at_column;
use crate::numbers::{is_count, number_in, place_in, whole_in};
use crate::words::{says, split_word};

/// What a line tells.
pub(crate) fn glpsol_line(columns: usize, line: &[u8]) -> Found
    ensures { result ≡ glpsol_line columns (words line.now) }
{
    let Some((letter, later)) = split_word(line) else {
        return Found::Blank;
    };
    if says(letter, b"c") {
        Found::Blank
    } else if says(letter, b"s") {
        glpsol_state(columns, later)
    } else if says(letter, b"i") {
        Found::Passed
    } else if says(letter, b"j") {
        glpsol_column(columns, later)
    } else if says(letter, b"e") {
        Found::End
    } else {
        Found::Wrong
    }
}

/// What the line of the state tells: `bas`, `ipt` or `mip`, how many rows and columns there are, and how the search ended. The rows may be
/// those of the smaller program.
fn glpsol_state(columns: usize, line: &[u8]) -> Found
    ensures { result ≡ glpsol_state columns (words line.now) }
{
    let Some((kind, later)) = split_word(line) else {
        return Found::Wrong;
    };
    let Some((row_count, later)) = split_word(later) else {
        return Found::Wrong;
    };
    let Some((column_count, later)) = split_word(later) else {
        return Found::Wrong;
    };
    if whole_in(row_count).is_none() || !is_count(columns, column_count) {
        Found::Wrong
    } else if says(kind, b"bas") {
        basic_state(later)
    } else {
        plain_state(later)
    }
}

/// What the two letters of a basic solution tell.
fn basic_state(line: &[u8]) -> Found
    ensures { result ≡ basic_state (words line.now) }
{
    let Some((primal, later)) = split_word(line) else {
        return Found::Wrong;
    };
    let Some((dual, _)) = split_word(later) else {
        return Found::Wrong;
    };
    if says(primal, b"f") && says(dual, b"f") {
        Found::Blank
    } else {
        Found::Nothing
    }
}

/// What the letter of another solution tells.
fn plain_state(line: &[u8]) -> Found
    ensures { result ≡ plain_state (words line.now) }
{
    let Some((letter, _)) = split_word(line) else {
        return Found::Wrong;
    };
    if says(letter, b"o") || says(letter, b"f") {
        Found::Blank
    } else {
        Found::Nothing
    }
}

/// What the line of a column tells: its number, in a basic solution the letter of its status, its value, and mostly its dual.
fn glpsol_column(columns: usize, line: &[u8]) -> Found
    ensures { result ≡ glpsol_column columns (words line.now) }
{
    let Some((column, later)) = split_word(line) else {
        return Found::Wrong;
    };
    let Some((first, later)) = split_word(later) else {
        return Found::Wrong;
    };
    let place = place_in(columns, column);
    let Some((second, later)) = split_word(later) else {
        return at_column(place, number_in(first));
    };
    let Some((_, later)) = split_word(later) else {
        return at_column(place, number_in(first));
    };
    match split_word(later) {
        None => at_column(place, number_in(second)),
        Some(_) => Found::Wrong,
    }
}
