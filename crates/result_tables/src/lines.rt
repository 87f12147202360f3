//! The lines of a report.

ghost use Rattle.std.specs.Prelude.{◌≡◌, ◌++◌, OnOk};
ghost use Rattle.exact_num.specs.Value.{value_of};
ghost use Rattle.result_tables.specs.declared.attempts.Begun.TheVariants.{FromValues};
ghost use Rattle.result_tables.specs.Lines.{amount_line, attempt_lines, count_line, count_lines, heading, places_line, start_line};

use crate::attempts::{Begun, FoundBy};
use exact_num::Frac;
use itoa::Buffer;
use scaled_decimals::{push_frac, push_places};
use std::alloc::AllocError;

/// The decimal places of written factors that no report names.
const USUAL_PLACES: u8 = 6;

/// The numbers of the attempts that a report names: all but the first.
const SECOND_ATTEMPT: u64 = 2;

const THIRD_ATTEMPT: u64 = 3;

/// Appends a line of a word and a value, as a fraction and rounded to six decimal places.
pub(crate) fn push_amount(out: &mut Vec<u8>, word: &[u8], value: Frac) -> Result<(), AllocError>
    ensures { OnOk result (out.new.items ≡ out.old.items ++ amount_line word.now (value_of value)) }
{
    out.extend_from_slice(word)?;
    out.extend_from_slice(b" ")?;
    push_frac(out, value)?;
    out.extend_from_slice(b" ")?;
    push_places(out, value)?;
    out.extend_from_slice(b"\n")
}

/// Appends the lines of how many pivots were made, of how many numbers of the data were rounded, of how many decimal places
/// the written factors have, only where these aren't 6, and of the attempt that gave what is told, only where it isn't the first.
pub(crate) fn push_counts(
    out: &mut Vec<u8>,
    pivots: u64,
    rounded: u64,
    places: u8,
    attempt: FoundBy,
) -> Result<(), AllocError>
    ensures { OnOk result (out.new.items ≡ out.old.items ++ count_lines pivots rounded places attempt) }
{
    push_count(out, b"pivots", pivots)?;
    push_count(out, b"rounded", rounded)?;
    push_places_line(out, places)?;
    push_attempt_lines(out, attempt)
}

// Appends the line of the decimal places of the written factors, where these aren't 6.
fn push_places_line(out: &mut Vec<u8>, places: u8) -> Result<(), AllocError>
    ensures { OnOk result (out.new.items ≡ out.old.items ++ places_line places) }
{
    if places == USUAL_PLACES {
        return Ok(());
    }
    push_count(out, b"places", u64::from(places))
}

// Appends the number of the attempt that gave what is told, where it isn't the first, and what guesses began from.
fn push_attempt_lines(out: &mut Vec<u8>, attempt: FoundBy) -> Result<(), AllocError>
    ensures { OnOk result (out.new.items ≡ out.old.items ++ attempt_lines attempt) }
{
    match attempt {
        FoundBy::ByMethod => Ok(()),
        FoundBy::OnGrid => push_count(out, b"attempt", SECOND_ATTEMPT),
        FoundBy::ByGuesses(begun) => {
            push_count(out, b"attempt", THIRD_ATTEMPT)?;
            push_start_line(out, begun)
        }
    }
}

// Appends what guesses began from, where a file was given for it.
fn push_start_line(out: &mut Vec<u8>, begun: Begun) -> Result<(), AllocError>
    ensures { OnOk result (out.new.items ≡ out.old.items ++ start_line begun) }
{
    match begun {
        Begun::FromNothing => Ok(()),
        Begun::WithoutStart => out.extend_from_slice(b"start none\n"),
        Begun::FromValues { taken, passed } => push_values_line(out, taken, passed),
    }
}

// Appends how many values were taken, and how many were passed over.
fn push_values_line(out: &mut Vec<u8>, taken: u64, passed: u64) -> Result<(), AllocError>
    ensures { OnOk result (out.new.items ≡ out.old.items ++ start_line (FromValues taken passed)) }
{
    let mut digits = Buffer::new();
    out.extend_from_slice(b"start ")?;
    out.extend_from_slice(digits.format(taken).as_bytes())?;
    out.extend_from_slice(b" passed ")?;
    out.extend_from_slice(digits.format(passed).as_bytes())?;
    out.extend_from_slice(b"\n")
}

/// Appends the line that a table begins with.
pub(crate) fn push_heading(out: &mut Vec<u8>, name: &[u8]) -> Result<(), AllocError>
    ensures { OnOk result (out.new.items ≡ out.old.items ++ heading name.now) }
{
    out.extend_from_slice(b"table ")?;
    out.extend_from_slice(name)?;
    out.extend_from_slice(b"\n")
}

// Appends a line of a word and a whole number.
fn push_count(out: &mut Vec<u8>, word: &[u8], n: u64) -> Result<(), AllocError>
    ensures { OnOk result (out.new.items ≡ out.old.items ++ count_line word.now n) }
{
    let mut digits = Buffer::new();
    out.extend_from_slice(word)?;
    out.extend_from_slice(b" ")?;
    out.extend_from_slice(digits.format(n).as_bytes())?;
    out.extend_from_slice(b"\n")
}
