// The command of each form: its words, and the values of its options.
ghost use Rattle.std.specs.Prelude.{◌≡◌, IfOk};
ghost use Rattle.command_words.specs.ClapWords.{given_of};
ghost use Rattle.command_words.specs.Commands.{question_of_result};
ghost use Rattle.command_words.specs.Words.{asked_gap, command_by, made, text_of, word_at};
ghost use Rattle.command_words.specs.declared.forms.FormName.TheVariants as forms;

use crate::command::{Command, CompareShow, MakeShow, SolveMethod, SolveShow};
use crate::fault::WordFault;
use crate::forms::FormName;
use crate::limits::limits_of;
use crate::parsing::{value_of, word_in};
use crate::values::{
    COMPARE_SHOWS, MAKE_SHOWS, METHODS, Numbers, SOLVE_SHOWS, choice, number_within, numbers_of,
};
use clap::ArgMatches;
use std::alloc::{AllocError, Global};

/// The command of the form that fits, if one does.
pub fn command_by<'a>(
    alloc: Global,
    form: Option<FormName>,
    given: &ArgMatches<'a>,
) -> Result<Result<Command<'a>, WordFault>, AllocError>
    ensures { IfOk result (λ answer. question_of_result answer ≡ command_by form (given_of given.now)) }
{
    let Some(form) = form else {
        return Ok(Err(WordFault::BadForm));
    };
    match numbers_of(form, given) {
        Some(numbers) => command_of(alloc, form, given, &numbers),
        None => Ok(Err(WordFault::BadNumber)),
    }
}

fn command_of<'a>(
    alloc: Global,
    form: FormName,
    given: &ArgMatches<'a>,
    numbers: &Numbers,
) -> Result<Result<Command<'a>, WordFault>, AllocError>
    ensures { IfOk result (λ answer. question_of_result answer ≡ made form (given_of given.now) numbers.now) }
{
    match form {
        FormName::Mps => Ok(mps(given, numbers)),
        FormName::Check => Ok(check(given, numbers)),
        FormName::CheckProof => Ok(check_proof(given, numbers)),
        FormName::Solve => Ok(solve(given, numbers)),
        FormName::SolveFrom => Ok(solve_from(given, numbers)),
        FormName::Explain => Ok(explain(given, numbers)),
        FormName::Curve => curve(alloc, given, numbers),
        FormName::Span => Ok(span(given, numbers)),
        FormName::Make => Ok(make(given, numbers)),
        FormName::Table => Ok(table(given, numbers)),
        FormName::Page => Ok(Ok(Command::Page {
            file: word_at(given, 0),
            proof: word_at(given, 1),
            gap: numbers.gap,
            places: numbers.places,
        })),
        FormName::Warn => Ok(Ok(Command::Warn {
            file: word_at(given, 0),
        })),
        FormName::Compare => Ok(compare(given, numbers)),
        FormName::Reduce => Ok(Ok(Command::Reduce {
            file: word_at(given, 0),
            places: numbers.places,
        })),
    }
}

// Word i, counted from 0, of those that the form has.
fn word_at<'a>(given: &ArgMatches<'a>, i: usize) -> &'a str
    ensures { result.now ≡ word_at (given_of given.now) i }
{
    word_in(given, i).unwrap_or("")
}

// The value of an option that the form needs.
fn text_of<'a>(given: &ArgMatches<'a>, name: &str) -> &'a str
    ensures { result.now ≡ text_of (given_of given.now) name.now }
{
    value_of(given, name).unwrap_or("")
}

fn mps<'a>(given: &ArgMatches<'a>, numbers: &Numbers) -> Result<Command<'a>, WordFault>
    ensures { question_of_result result ≡ made forms.Mps (given_of given.now) numbers.now }
{
    Ok(Command::Mps {
        file: word_at(given, 0),
        places: numbers.places,
    })
}

fn check<'a>(given: &ArgMatches<'a>, numbers: &Numbers) -> Result<Command<'a>, WordFault>
    ensures { question_of_result result ≡ made forms.Check (given_of given.now) numbers.now }
{
    let multipliers = word_in(given, 2);
    if value_of(given, "gap").is_some() && multipliers.is_none() {
        return Err(WordFault::GapAlone);
    }
    Ok(Command::Check {
        file: word_at(given, 0),
        plan: word_at(given, 1),
        multipliers,
        gap: numbers.gap,
        places: numbers.places,
    })
}

fn check_proof<'a>(given: &ArgMatches<'a>, numbers: &Numbers) -> Result<Command<'a>, WordFault>
    ensures { question_of_result result ≡ made forms.CheckProof (given_of given.now) numbers.now }
{
    Ok(Command::CheckProof {
        file: word_at(given, 0),
        proof: text_of(given, "proof"),
        gap: numbers.gap,
        places: numbers.places,
    })
}

fn solve<'a>(given: &ArgMatches<'a>, numbers: &Numbers) -> Result<Command<'a>, WordFault>
    ensures { question_of_result result ≡ made forms.Solve (given_of given.now) numbers.now }
{
    let Some(show) = choice(&SOLVE_SHOWS, SolveShow::Report, value_of(given, "show")) else {
        return Err(WordFault::BadShow);
    };
    let Some(method) = choice(&METHODS, SolveMethod::Exact, value_of(given, "method")) else {
        return Err(WordFault::BadShow);
    };
    Ok(Command::Solve {
        file: word_at(given, 0),
        gap: numbers.gap,
        pivots: numbers.pivots,
        places: numbers.places,
        show,
        method,
    })
}

fn solve_from<'a>(given: &ArgMatches<'a>, numbers: &Numbers) -> Result<Command<'a>, WordFault>
    ensures { question_of_result result ≡ made forms.SolveFrom (given_of given.now) numbers.now }
{
    let Some(show) = choice(&SOLVE_SHOWS, SolveShow::Report, value_of(given, "show")) else {
        return Err(WordFault::BadShow);
    };
    Ok(Command::SolveFrom {
        file: word_at(given, 0),
        start: text_of(given, "start"),
        gap: numbers.gap,
        pivots: numbers.pivots,
        places: numbers.places,
        show,
    })
}

fn explain<'a>(given: &ArgMatches<'a>, numbers: &Numbers) -> Result<Command<'a>, WordFault>
    ensures { question_of_result result ≡ made forms.Explain (given_of given.now) numbers.now }
{
    let Some(method) = choice(&METHODS, SolveMethod::Exact, value_of(given, "method")) else {
        return Err(WordFault::BadShow);
    };
    Ok(Command::Explain {
        file: word_at(given, 0),
        pivots: numbers.pivots,
        places: numbers.places,
        method,
    })
}

fn curve<'a>(
    alloc: Global,
    given: &ArgMatches<'a>,
    numbers: &Numbers,
) -> Result<Result<Command<'a>, WordFault>, AllocError>
    ensures { IfOk result (λ answer. question_of_result answer ≡ made forms.Curve (given_of given.now) numbers.now) }
{
    let Some(limits) = limits_of(alloc, word_at(given, 3))? else {
        return Ok(Err(WordFault::BadNumber));
    };
    let Some(method) = choice(&METHODS, SolveMethod::Exact, value_of(given, "method")) else {
        return Ok(Err(WordFault::BadShow));
    };
    Ok(Ok(Command::Curve {
        file: word_at(given, 0),
        region: word_at(given, 1),
        emission: word_at(given, 2),
        limits,
        gap: numbers.gap,
        pivots: numbers.pivots,
        places: numbers.places,
        method,
    }))
}

fn span<'a>(given: &ArgMatches<'a>, numbers: &Numbers) -> Result<Command<'a>, WordFault>
    ensures { question_of_result result ≡ made forms.Span (given_of given.now) numbers.now }
{
    let Some(method) = choice(&METHODS, SolveMethod::Exact, value_of(given, "method")) else {
        return Err(WordFault::BadShow);
    };
    Ok(Command::Span {
        file: word_at(given, 0),
        region: word_at(given, 1),
        technology: word_at(given, 2),
        year: word_at(given, 3),
        slack: numbers.slack,
        gap: asked_gap(given, numbers),
        pivots: numbers.pivots,
        places: numbers.places,
        method,
    })
}

// The gap, if one is given.
fn asked_gap(given: &ArgMatches<'_>, numbers: &Numbers) -> Option<u32>
    ensures { result ≡ asked_gap (given_of given.now) numbers.now }
{
    match value_of(given, "gap") {
        Some(_) => Some(numbers.gap),
        None => None,
    }
}

fn make<'a>(given: &ArgMatches<'a>, _numbers: &Numbers) -> Result<Command<'a>, WordFault>
    ensures { question_of_result result ≡ made forms.Make (given_of given.now) _numbers.now }
{
    let Some(size) = number_within(word_at(given, 0), 3, 3, 122) else {
        return Err(WordFault::BadNumber);
    };
    let Some(show) = choice(&MAKE_SHOWS, MakeShow::File, value_of(given, "show")) else {
        return Err(WordFault::BadShow);
    };
    Ok(Command::Make { size, show })
}

fn table<'a>(given: &ArgMatches<'a>, numbers: &Numbers) -> Result<Command<'a>, WordFault>
    ensures { question_of_result result ≡ made forms.Table (given_of given.now) numbers.now }
{
    Ok(Command::Table {
        file: word_at(given, 0),
        proof: word_at(given, 1),
        name: word_at(given, 2),
        exact: value_of(given, "exact").is_some(),
        gap: numbers.gap,
        places: numbers.places,
    })
}

fn compare<'a>(given: &ArgMatches<'a>, numbers: &Numbers) -> Result<Command<'a>, WordFault>
    ensures { question_of_result result ≡ made forms.Compare (given_of given.now) numbers.now }
{
    let Some(show) = choice(&COMPARE_SHOWS, CompareShow::Text, value_of(given, "show")) else {
        return Err(WordFault::BadShow);
    };
    Ok(Command::Compare {
        first: word_at(given, 0),
        first_proof: word_at(given, 1),
        second: word_at(given, 2),
        second_proof: word_at(given, 3),
        gap: numbers.gap,
        places: numbers.places,
        show,
    })
}
