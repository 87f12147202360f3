// The words after a command, read by `clap` as one simple command with all options of all commands.
ghost use Rattle.std.specs.Prelude.{◌≡◌, ℕ, List, IfOk, fold, length, map, option_map, slice_get};
ghost use Rattle.std.specs.String.{string_bytes};
ghost use Rattle.clap.specs.Words.{app_of, with_rule};
ghost use Rattle.command_words.specs.ClapWords.{app, files_only, given_of, rule_named};
ghost use Rattle.command_words.specs.Forms.{entry_of, given_by};
ghost use Rattle.command_words.specs.WordParts.{HasSpelledParts, Part, parts_of};

use crate::forms::{OPTIONS, OptionEntry};
use crate::values::named;
use clap::error::ErrorKind;
use clap::{Arg, ArgAction, ArgMatches, Command};
use std::alloc::{AllocError, Global};

/// Reads the words after a command. `None` where an option is unknown, is repeated or has no value, or a flag is repeated or has one.
/// The texts of `clap` are never shown.
pub fn parse<'a>(alloc: Global, words: &'a [String]) -> Result<Option<ArgMatches<'a>>, AllocError>
    ensures { IfOk result (λ answer.
        option_map given_of answer ≡ given_by (parts_of (map string_bytes words.now))) }
{
    match any_options(alloc, &OPTIONS)?.try_get_matches_from(words) {
        Ok(matches) => Ok(Some(matches)),
        Err(error) => match error.kind() {
            ErrorKind::OutOfMemory => Err(AllocError),
            _ => Ok(None),
        },
    }
}

/// How many words there are that aren't options.
pub fn word_count(given: &ArgMatches<'_>) -> usize
    ensures { result ≡ length (given_of given.now).words }
{
    match given.get_strs("file") {
        Some(words) => words.len(),
        None => 0,
    }
}

/// Word i of them, counted from 0.
pub fn word_in<'a>(given: &ArgMatches<'a>, i: usize) -> Option<&'a str>
    ensures { option_map (λ word. word.now) result ≡ slice_get (given_of given.now).words i }
{
    match given.get_strs("file") {
        Some(words) => words.get(i).copied(),
        None => None,
    }
}

/// The value that is given for an option; that of a flag is `true`.
pub fn value_of<'a>(given: &ArgMatches<'a>, name: &str) -> Option<&'a str>
    ensures { option_map (λ value. value.now) result ≡ (given_of given.now).value name.now }
{
    let (Some(has_value), Some(value)) = (named(&OPTIONS, name), given.get_str(name)) else {
        return None;
    };
    if has_value || value == "true" {
        Some(value)
    } else {
        None
    }
}

// Files in any number, and these options. Which of them a form has is seen later.
fn any_options<'a>(alloc: Global, options: &[OptionEntry]) -> Result<Command<'a>, AllocError>
    ensures { IfOk result (λ command. app_of command
        ≡ fold (λ a o. with_rule a (rule_named o)) files_only (map entry_of options.now)) }
{
    let mut command = with_files(alloc)?;
    for option in options {
        command = with_option(alloc, command, option.0, option.1)?;
    }
    Ok(command)
}

// Files in any number, wherever they stand. No program's name stands before the words, and there is no help.
fn with_files<'a>(alloc: Global) -> Result<Command<'a>, AllocError>
    ensures { IfOk result (λ command. app_of command ≡ files_only) }
{
    let file = Arg::new(alloc, "file").action(ArgAction::Append);
    Command::new(alloc, "osemosys")
        .no_binary_name(true)
        .disable_help_flag(true)
        .arg(file)
}

// The command with one more option, which has one value, or is a flag and has none.
fn with_option<'a>(
    alloc: Global,
    command: Command<'a>,
    name: &'static str,
    has_value: bool,
) -> Result<Command<'a>, AllocError>
    ensures { IfOk result (λ more. app_of more ≡ with_rule (app_of command.entry) (rule_named (name.entry.now, has_value))) }
{
    let action = if has_value {
        ArgAction::Set
    } else {
        ArgAction::SetTrue
    };
    command.arg(Arg::new(alloc, name).long(name).action(action))
}

/// The parts of words are those that are spelled so.
pub fn spelled_parts()
    ensures { (words : List (List ℕ)) (parts : List Part) → HasSpelledParts words parts }
{}
