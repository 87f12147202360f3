// The forms of the commands: the one table of them, and which of them fits what is given.
ghost use Rattle.std.specs.Prelude.{◌≡◌, map};
ghost use Rattle.std.specs.List.{list_all, list_any};
ghost use Rattle.std.specs.Str.{bytes_eq};
ghost use Rattle.command_words.specs.ClapWords.{given_of};
ghost use Rattle.command_words.specs.Forms.{described, fits, form_in, is_among, suits, texts_of};

use crate::parsing::{value_of, word_count};
use crate::values::asks_for_rounded;
use clap::ArgMatches;

/// The forms by name. Two forms of one word are told apart by what is given.
#[derive(Clone, Copy, PartialEq, Eq)]
pub enum FormName {
    Mps,
    Check,
    CheckProof,
    Solve,
    SolveFrom,
    Explain,
    Curve,
    Span,
    Make,
    Table,
    Page,
    Warn,
    Compare,
    Reduce,
}

/// An option's name, and whether it has a value: a flag has none.
pub type OptionEntry = (&'static str, bool);

/// The options of all commands.
pub const OPTIONS: [OptionEntry; 11] = [
    ("gap", true),
    ("pivots", true),
    ("places", true),
    ("show", true),
    ("method", true),
    ("slack", true),
    ("proof", true),
    ("start", true),
    ("exact", false),
    ("with", true),
    ("with2", true),
];

type Names = &'static [&'static str];

/// A form: its name and its word, how many words at least and at most stand after that beside the options, the options that it may
/// have, those that it may have beside `--method rounded` alone, and those that it needs.
type Form = (FormName, &'static str, usize, usize, Names, Names, Names);

const NONE: Names = &[];

const WARNED: Names = &["with"];

const WRITTEN: Names = &["places", "with"];

const CHECKED: Names = &["gap", "places", "with"];

const PROVED: Names = &["gap", "places", "proof", "with"];

const PROOF: Names = &["proof"];

const SOLVED: Names = &["gap", "pivots", "places", "show", "method", "with"];

const START: Names = &["start"];

const TRIED: Names = &["pivots", "places", "method", "with"];

const SPANNED: Names = &["pivots", "places", "method", "slack", "with"];

const TABLED: Names = &["gap", "places", "exact", "with"];

const COMPARED: Names = &["gap", "places", "show", "with", "with2"];

/// The forms of all commands. The exact method of `curve` and `span` leaves no gap between cost and bound, so `--gap` belongs to
/// their rounded one; and `solve` begins from an answer by its rounded method alone.
pub const FORMS: [Form; 14] = [
    (FormName::Mps, "mps", 1, 1, WRITTEN, NONE, NONE),
    (FormName::Check, "check", 2, 3, CHECKED, NONE, NONE),
    (FormName::CheckProof, "check", 1, 1, PROVED, NONE, PROOF),
    (FormName::Solve, "solve", 1, 1, SOLVED, NONE, NONE),
    (FormName::SolveFrom, "solve", 1, 1, SOLVED, START, START),
    (FormName::Explain, "explain", 1, 1, TRIED, NONE, NONE),
    (FormName::Curve, "curve", 4, 4, TRIED, &["gap"], NONE),
    (FormName::Span, "span", 4, 4, SPANNED, &["gap"], NONE),
    (FormName::Make, "make", 1, 1, &["show"], NONE, NONE),
    (FormName::Table, "table", 3, 3, TABLED, NONE, NONE),
    (FormName::Page, "page", 2, 2, CHECKED, NONE, NONE),
    (FormName::Warn, "warn", 1, 1, WARNED, NONE, NONE),
    (FormName::Compare, "compare", 4, 4, COMPARED, NONE, NONE),
    (FormName::Reduce, "reduce", 1, 1, WRITTEN, NONE, NONE),
];

/// The word is a command's of the table.
pub fn is_command_in(table: &[Form], word: &str) -> bool
    ensures { result ≡ list_any (λ form. bytes_eq (described form).word word.now) table.now }
{
    table.iter().any(|form| form.1 == word)
}

/// The first form of this word that fits what is given.
pub fn form_in(table: &[Form], word: &str, given: &ArgMatches<'_>) -> Option<FormName>
    ensures { result ≡ form_in (map described table.now) word.now (given_of given.now) }
{
    for form in table {
        if form.1 == word && fits(form, given) {
            return Some(form.0);
        }
    }
    None
}

// The form has so many words, and each option suits it.
fn fits(form: &Form, given: &ArgMatches<'_>) -> bool
    ensures { result ≡ fits (described form.now) (given_of given.now) }
{
    let count = word_count(given);
    form.2 <= count && count <= form.3 && all_suit(&OPTIONS, form, given)
}

fn all_suit(options: &[OptionEntry], form: &Form, given: &ArgMatches<'_>) -> bool
    ensures { result ≡ list_all (λ o. suits (described form.now) (given_of given.now) o.0.now) options.now }
{
    for option in options {
        if !suits(form, given, option.0) {
            return false;
        }
    }
    true
}

// The option may be given, where it is, and may be left out, where it isn't.
fn suits(form: &Form, given: &ArgMatches<'_>, name: &str) -> bool
    ensures { result ≡ suits (described form.now) (given_of given.now) name.now }
{
    if value_of(given, name).is_some() {
        is_among(name, form.4) || (is_among(name, form.5) && asks_for_rounded(given))
    } else {
        !is_among(name, form.6)
    }
}

fn is_among(name: &str, names: &[&str]) -> bool
    ensures { result ≡ is_among name.now (texts_of names.entry) }
{
    names.iter().any(|one| *one == name)
}
