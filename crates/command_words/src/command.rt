// The commands with their files and options.
ghost use Rattle.std.specs.Prelude.{◌≡◌, IfOk, map};
ghost use Rattle.std.specs.String.{string_bytes};
ghost use Rattle.command_words.specs.Words.{asked};
ghost use Rattle.command_words.specs.Commands.{request_of_result};

use crate::fault::WordFault;
use crate::forms::{FORMS, form_in, is_command_in};
use crate::making::command_by;
use crate::parsing::{parse, value_of};
use std::alloc::{AllocError, Global};

/// A command with its files and options. `places` is how many decimal places written factors have: 6 or 9. `gap` is in millionths
/// of the bound, and where it is left out 10 by the rounded method, and for `table`, `page` and `compare`, else 0; `pivots` is the most
/// pivots that may be made, and where it is left out 1,000,000 by the rounded method, else 20,000.
#[derive(Drop)]
pub enum Command<'a> {
    /// `mps FILE [--places P]`: writes the named equations of a data file.
    Mps {
        file: &'a str,
        places: u8,
    },
    /// `check FILE PLAN [MULTIPLIERS] [--gap PPM] [--places P]`: checks a plan, and a bound where
    /// multipliers are given.
    Check {
        file: &'a str,
        plan: &'a str,
        multipliers: Option<&'a str>,
        gap: u32,
        places: u8,
    },
    /// `check FILE --proof PROOF [--gap PPM] [--places P]`: checks what a file of a proof holds.
    CheckProof {
        file: &'a str,
        proof: &'a str,
        gap: u32,
        places: u8,
    },
    /// `solve FILE [--gap PPM] [--pivots N] [--places P] [--show report|plan|multipliers|proof|line] [--method exact|rounded]`: solves.
    Solve {
        file: &'a str,
        gap: u32,
        pivots: u32,
        places: u8,
        show: SolveShow,
        method: SolveMethod,
    },
    /// `solve FILE --method rounded --start ANSWER [--gap PPM] [--pivots N] [--places P] [--show report|plan|multipliers|proof|line]`: solves by
    /// the rounded method, from an answer that a file holds.
    SolveFrom {
        file: &'a str,
        start: &'a str,
        gap: u32,
        pivots: u32,
        places: u8,
        show: SolveShow,
    },
    /// `explain FILE [--pivots N] [--places P] [--method exact|rounded]`: says why no plan exists, by a few equations that can't be
    /// met together. `pivots` are those of one trial.
    Explain {
        file: &'a str,
        pivots: u32,
        places: u8,
        method: SolveMethod,
    },
    /// `curve FILE REGION EMISSION LIMITS [--gap PPM] [--pivots N] [--places P] [--method exact|rounded]`: says what each of these limits on
    /// an emission in a region costs. The limits are in billionths, ascending; `pivots` are those of one limit. The exact method's cost
    /// is its bound, so `--gap` is taken beside `--method rounded` alone.
    Curve {
        file: &'a str,
        region: &'a str,
        emission: &'a str,
        limits: Vec<i128>,
        gap: u32,
        pivots: u32,
        places: u8,
        method: SolveMethod,
    },
    /// `span FILE REGION TECHNOLOGY YEAR [--slack PPM] [--gap PPM] [--pivots N] [--places P] [--method exact|rounded]`: says how little and
    /// how much of a technology a plan may build that costs at most `slack` millionths more than the least cost. `pivots` are those of
    /// one trial. The exact method's cost is its bound, so `--gap` is taken beside `--method rounded` alone; where it is left out there, several
    /// are tried in turn.
    Span {
        file: &'a str,
        region: &'a str,
        technology: &'a str,
        year: &'a str,
        slack: u32,
        gap: Option<u32>,
        pivots: u32,
        places: u8,
        method: SolveMethod,
    },
    /// `make N [--show file|summary]`: writes a made data file of this size, or solves it and writes
    /// a summary.
    Make {
        size: u32,
        show: MakeShow,
    },
    /// `table FILE PROOF NAME [--exact] [--gap PPM] [--places P]`: writes a table of the plan of a proof that `check` accepts. Its
    /// numbers are rounded to six decimal places, or fractions where they are to be exact.
    Table {
        file: &'a str,
        proof: &'a str,
        name: &'a str,
        exact: bool,
        gap: u32,
        places: u8,
    },
    /// `page FILE PROOF [--gap PPM] [--places P]`: writes a page of what a proof shows that `check` accepts.
    Page {
        file: &'a str,
        proof: &'a str,
        gap: u32,
        places: u8,
    },
    /// `warn FILE`: says what in a data file is legal and probably wrong.
    Warn {
        file: &'a str,
    },
    /// `compare FILE PROOF FILE2 PROOF2 [--gap PPM] [--places P] [--show text|page]`: writes how the plans of two proofs that `check` accepts
    /// differ, each over its own data file.
    Compare {
        first: &'a str,
        first_proof: &'a str,
        second: &'a str,
        second_proof: &'a str,
        gap: u32,
        places: u8,
        show: CompareShow,
    },
    /// `reduce FILE [--places P]`: writes what is left of the named equations of a data file once the variables that they define are replaced.
    Reduce {
        file: &'a str,
        places: u8,
    },
}

/// A command with the names of its files of changes (`--with`, `--with2`): that of its data file, or those of the two data files of `compare`.
#[derive(Drop)]
pub struct Request<'a> {
    pub command: Command<'a>,
    pub changes: Option<&'a str>,
    pub changes2: Option<&'a str>,
}

/// What `solve` writes.
#[derive(Clone, Copy, PartialEq, Eq)]
pub enum SolveShow {
    Report,
    Plan,
    Multipliers,
    Proof,
    Line,
}

/// Which method `solve`, `explain`, `curve` and `span` begin with.
#[derive(Clone, Copy, PartialEq, Eq)]
pub enum SolveMethod {
    Exact,
    Rounded,
}

/// What `compare` writes.
#[derive(Clone, Copy, PartialEq, Eq)]
pub enum CompareShow {
    Text,
    Page,
}

/// What `make` writes.
#[derive(Clone, Copy, PartialEq, Eq)]
pub enum MakeShow {
    File,
    Summary,
}

/// Reads the words. The first fault is answered, in this order: `NoCommand` where there
/// is no word; `BadCommand` where the first is no command; `BadForm` where an option is unknown, is
/// none of the command's, is repeated or has no value, the flag `--exact` has one or is repeated, `curve` or `span` has a gap without the rounded method, `solve` an answer to start from without it, or a file or another word is missing or too many;
/// `BadNumber` where a number, or a list of limits, isn't one of the digits and the range that its place allows; `BadShow` where the value
/// of `--show`, and then that of `--method`, is none of the command's; `GapAlone` where `check` has a gap and no multipliers. An
/// option and its value are two words, or one with `=` between. After `--` no word is an option.
pub fn read_command<'a>(
    alloc: Global,
    words: &'a [String],
) -> Result<Result<Request<'a>, WordFault>, AllocError>
    ensures { IfOk result (λ answer.
        request_of_result answer ≡ asked (map string_bytes words.now)) }
{
    let Some((first, others)) = words.split_first() else {
        return Ok(Err(WordFault::NoCommand));
    };
    let word = first.as_str();
    if !is_command_in(&FORMS, word) {
        return Ok(Err(WordFault::BadCommand));
    }
    let Some(given) = parse(alloc, others)? else {
        return Ok(Err(WordFault::BadForm));
    };
    match command_by(alloc, form_in(&FORMS, word, &given), &given)? {
        Ok(command) => Ok(Ok(Request {
            command,
            changes: value_of(&given, "with"),
            changes2: value_of(&given, "with2"),
        })),
        Err(fault) => Ok(Err(fault)),
    }
}
