// The values of options, and the number of `make`.
ghost use Rattle.std.specs.Prelude.{◌≡◌, ◌≤◌, map, option_map};
ghost use Rattle.std.specs.Char.{is_ascii_digit};
ghost use Rattle.std.specs.List.{list_all};
ghost use Rattle.command_words.specs.ClapWords.{given_of};
ghost use Rattle.command_words.specs.Forms.{asks_for_rounded, entry_of};
ghost use Rattle.command_words.specs.WordParts.{named};
ghost use Rattle.command_words.specs.WordValues.{choice, number_or, number_within};
ghost use Rattle.command_words.specs.Words.{numbers_of, usual_gap, usual_pivots};

use crate::command::{CompareShow, MakeShow, SolveMethod, SolveShow};
use crate::forms::FormName;
use crate::parsing::value_of;
use clap::ArgMatches;

/// The numbers of decimal places, by word.
pub const PLACES: [(&str, u8); 2] = [("6", 6), ("9", 9)];

/// What `solve` may write, by word.
pub const SOLVE_SHOWS: [(&str, SolveShow); 5] = [
    ("report", SolveShow::Report),
    ("plan", SolveShow::Plan),
    ("multipliers", SolveShow::Multipliers),
    ("proof", SolveShow::Proof),
    ("line", SolveShow::Line),
];

/// What `make` may write, by word.
pub const MAKE_SHOWS: [(&str, MakeShow); 2] = [
    ("file", MakeShow::File),
    ("summary", MakeShow::Summary),
];

/// What `compare` may write, by word.
pub const COMPARE_SHOWS: [(&str, CompareShow); 2] = [
    ("text", CompareShow::Text),
    ("page", CompareShow::Page),
];

/// The methods, by word.
pub const METHODS: [(&str, SolveMethod); 2] = [
    ("exact", SolveMethod::Exact),
    ("rounded", SolveMethod::Rounded),
];

/// The numbers that options say: a gap and a slack in millionths, the most pivots, and how many decimal places written factors have.
#[derive(Clone, Copy)]
pub struct Numbers {
    pub gap: u32,
    pub pivots: u32,
    pub places: u8,
    pub slack: u32,
}

/// The numbers of the options of a form.
pub fn numbers_of(form: FormName, given: &ArgMatches<'_>) -> Option<Numbers>
    ensures { result ≡ numbers_of form (given_of given.now) }
{
    let (Some(gap), Some(pivots), Some(places), Some(slack)) = (
        number_or(usual_gap(form, given), value_of(given, "gap")),
        number_or(usual_pivots(given), value_of(given, "pivots")),
        choice(&PLACES, 6, value_of(given, "places")),
        number_or(0, value_of(given, "slack")),
    ) else {
        return None;
    };
    Some(Numbers {
        gap,
        pivots,
        places,
        slack,
    })
}

// The gap where none is given. What is made of a proof allows that of a rounded one.
fn usual_gap(form: FormName, given: &ArgMatches<'_>) -> u32
    ensures { result ≡ usual_gap form (given_of given.now) }
{
    match form {
        FormName::Table | FormName::Page | FormName::Compare => 10,
        _ => { if asks_for_rounded(given) { 10 } else { 0 } }
    }
}

// The most pivots where none are given. A pivot of the rounded method costs far less than one of the exact method.
fn usual_pivots(given: &ArgMatches<'_>) -> u32
    ensures { result ≡ usual_pivots (given_of given.now) }
{
    if asks_for_rounded(given) {
        1_000_000
    } else {
        20_000
    }
}

/// The value of `--method` is `rounded`.
pub fn asks_for_rounded(given: &ArgMatches<'_>) -> bool
    ensures { result ≡ asks_for_rounded (given_of given.now) }
{
    match value_of(given, "method") {
        Some(method) => method == "rounded",
        None => false,
    }
}

/// What the value stands for in a table of words, or what one that is left out stands for.
pub fn choice<T: Copy>(table: &[(&str, T)], default: T, value: Option<&str>) -> Option<T>
    ensures { result ≡ choice (map entry_of table.now) default (option_map (λ value. value.now) value.entry) }
{
    match value {
        Some(value) => named(table, value),
        None => Some(default),
    }
}

/// What the word stands for in a table of words.
pub fn named<T: Copy>(table: &[(&str, T)], word: &str) -> Option<T>
    ensures { result ≡ named (map entry_of table.now) word.now }
{
    match table.iter().find(|entry| entry.0 == word) {
        Some(entry) => Some(entry.1),
        None => None,
    }
}

// A gap or a slack in millionths, or the most pivots.
fn number_or(default: u32, text: Option<&str>) -> Option<u32>
    ensures { result ≡ number_or default (option_map (λ text. text.now) text.entry) }
{
    match text {
        Some(text) => number_within(text, 7, 0, 1_000_000),
        None => Some(default),
    }
}

/// The whole number of 1 to `places` digits, if it is from `least` to `most`.
pub fn number_within(text: &str, places: usize, least: u32, most: u32) -> Option<u32>
    requires { places ≤ 9 }
    ensures { result ≡ number_within places least most text.now }
{
    if text.is_empty() || text.len() > places || !has_digits_only(text.as_bytes()) {
        return None;
    }
    match text.parse::<u32>() {
        Ok(number) if least <= number && number <= most => Some(number),
        _ => None,
    }
}

fn has_digits_only(bytes: &[u8]) -> bool
    ensures { result ≡ list_all is_ascii_digit bytes.now }
{
    bytes.iter().all(|byte| byte.is_ascii_digit())
}
