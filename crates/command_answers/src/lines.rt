// The one-line texts.
ghost use Rattle.std.specs.Prelude.{◌≡◌, ◌++◌, IfOk, OnOk, decimal};
ghost use Rattle.model_sets.specs.Members.{SetLists};
ghost use Rattle.mps_writer.specs.MpsText.{line};
ghost use Rattle.command_answers.specs.Lines.{entries_line, no_reduced_line, start_fault_line, stop_line, too_large_line, too_long_line, trial_text, uncertified_line, unguessed_line, words_line};
ghost use Rattle.command_answers.specs.PlacesWithin.{PlaceIsWithin, TrialIsWithin};

use crate::amounts::push_with_number;
use crate::places::push_place;
use crate::status::ReadStop;
use command_words::WordFault;
use itoa::Buffer;
use model_sets::Sets;
use row_core::Place;
use simplex_core::{Stop, TrialStop};
use std::alloc::{AllocError, Global};

/// The line for words that ask for nothing: `words refused FAULT`.
pub fn words_line(alloc: Global, fault: WordFault) -> Result<Vec<u8>, AllocError>
    ensures { IfOk result (λ text. text.items ≡ words_line fault) }
{
    let text: &[u8] = match fault {
        WordFault::NoCommand => b"words refused NoCommand\n",
        WordFault::BadCommand => b"words refused BadCommand\n",
        WordFault::BadForm => b"words refused BadForm\n",
        WordFault::BadNumber => b"words refused BadNumber\n",
        WordFault::BadShow => b"words refused BadShow\n",
        WordFault::GapAlone => b"words refused GapAlone\n",
    };
    Vec::from_slice(alloc, text)
}

/// The line for a file that couldn't be read: `no such file K` or `read fault file K`.
pub fn stop_line(alloc: Global, stop: ReadStop) -> Result<Vec<u8>, AllocError>
    ensures { IfOk result (λ text. text.items ≡ stop_line stop) }
{
    match stop {
        ReadStop::NoFile(file) => numbered(alloc, b"no such file ", file),
        ReadStop::Failed(file) => numbered(alloc, b"read fault file ", file),
    }
}

/// The line for a file of more than 64 MiB: `refused too long file K`.
pub fn too_long_line(alloc: Global, file: u8) -> Result<Vec<u8>, AllocError>
    ensures { IfOk result (λ text. text.items ≡ too_long_line file) }
{
    numbered(alloc, b"refused too long file ", file)
}

/// The line for rows with more than 4,000,000 entries: `refused too many entries`.
pub fn entries_line(alloc: Global) -> Result<Vec<u8>, AllocError>
    ensures { IfOk result (λ text. text.items ≡ entries_line) }
{
    Vec::from_slice(alloc, b"refused too many entries\n")
}

/// The line for a place at which a number doesn't fit: `uncertified width PLACE`, with the full names of rows and variables.
pub fn width_line(alloc: Global, place: Place, sets: &Sets) -> Result<Vec<u8>, AllocError>
    requires { PlaceIsWithin sets.now place }
    ensures { IfOk result (λ text. text.items ≡ uncertified_line sets.now (Stop.Width place)) }
{
    let mut text = Vec::from_slice(alloc, b"uncertified width ")?;
    push_place(&mut text, place, sets)?;
    text.extend_from_slice(b"\n")?;
    Ok(text)
}

/// The line where a pivot is due after the last of so many: `uncertified budget N`.
pub fn budget_line(alloc: Global, pivots: u64) -> Result<Vec<u8>, AllocError>
    ensures { (sets : SetLists) → IfOk result (λ text. text.items ≡ uncertified_line sets (Stop.Budget pivots)) }
{
    let mut text = Vec::new(alloc);
    push_with_number(&mut text, b"uncertified budget ", pivots)?;
    text.extend_from_slice(b"\n")?;
    Ok(text)
}

/// The line where the trial of this number stopped: `uncertified trial K budget N` or `uncertified trial K width PLACE`.
pub fn trial_line(
    alloc: Global,
    number: u64,
    stop: TrialStop,
    sets: &Sets,
) -> Result<Vec<u8>, AllocError>
    requires { TrialIsWithin sets.now stop }
    ensures { IfOk result (λ text. text.items ≡ uncertified_line sets.now (Stop.Trial number stop)) }
{
    let mut text = Vec::new(alloc);
    push_with_number(&mut text, b"uncertified trial ", number)?;
    text.extend_from_slice(b" ")?;
    push_trial_stop(&mut text, stop, sets)?;
    text.extend_from_slice(b"\n")?;
    Ok(text)
}

/// Appends why a trial stopped: `budget N` or `width PLACE`.
pub fn push_trial_stop(out: &mut Vec<u8>, stop: TrialStop, sets: &Sets) -> Result<(), AllocError>
    requires { TrialIsWithin sets.now stop }
    ensures { OnOk result (out.new.items ≡ out.old.items ++ trial_text sets.now stop) }
{
    match stop {
        TrialStop::Budget(pivots) => push_with_number(out, b"budget ", pivots),
        TrialStop::Width(place) => {
            out.extend_from_slice(b"width ")?;
            push_place(out, place, sets)
        }
    }
}

/// The line for a linear program that is too large: `refused too large ROWS COLUMNS`.
pub fn too_large_line(alloc: Global, rows: u64, columns: u64) -> Result<Vec<u8>, AllocError>
    ensures { IfOk result (λ text. text.items ≡ too_large_line rows columns) }
{
    let mut text = Vec::new(alloc);
    push_with_number(&mut text, b"refused too large ", rows)?;
    push_with_number(&mut text, b" ", columns)?;
    text.extend_from_slice(b"\n")?;
    Ok(text)
}

/// The line for such a linear program where no guess of at most so many pivots is accepted: `uncertified guesses N`.
pub fn unguessed_line(alloc: Global, pivots: u64) -> Result<Vec<u8>, AllocError>
    ensures { IfOk result (λ text. text.items ≡ unguessed_line pivots) }
{
    let mut text = Vec::new(alloc);
    push_with_number(&mut text, b"uncertified guesses ", pivots)?;
    text.extend_from_slice(b"\n")?;
    Ok(text)
}

/// The line for a file of values to start from that breaks its form at a line: `refused answer line L`.
pub fn start_fault_line(alloc: Global, number: u64) -> Result<Vec<u8>, AllocError>
    ensures { IfOk result (λ text. text.items ≡ start_fault_line number) }
{
    let mut text = Vec::new(alloc);
    push_with_number(&mut text, b"refused answer line ", number)?;
    text.extend_from_slice(b"\n")?;
    Ok(text)
}

/// The line for rows of which no smaller linear program is found: `refused no reduced program`.
pub fn no_reduced_line(alloc: Global) -> Result<Vec<u8>, AllocError>
    ensures { IfOk result (λ text. text.items ≡ no_reduced_line) }
{
    Vec::from_slice(alloc, b"refused no reduced program\n")
}

// A line that ends with a file's number.
fn numbered(alloc: Global, words: &[u8], file: u8) -> Result<Vec<u8>, AllocError>
    ensures { IfOk result (λ text. text.items ≡ line (words.now ++ decimal file)) }
{
    let mut text = Vec::from_slice(alloc, words)?;
    text.extend_from_slice(Buffer::new().format(file).as_bytes())?;
    text.extend_from_slice(b"\n")?;
    Ok(text)
}
