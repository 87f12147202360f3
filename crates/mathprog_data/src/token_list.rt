//! The tokens of a text.

ghost use Rattle.std.specs.Prelude.{◌≡◌, ◌+◌, ◌<◌, ◌≤◌, ◌∷◌, ℕ, List, length, map, true, false, Ok, Err, IfOk, IfErr, MatchResult};
ghost use Rattle.mathprog_data.specs.declared.blocks.Mark.{Mark};
ghost use Rattle.mathprog_data.specs.declared.fault.DataFault.{DataFault};
ghost use Rattle.mathprog_data.specs.declared.fault.ReadFail.TheVariants.{Fault};
ghost use Rattle.mathprog_data.specs.Lexemes.{Placed};
ghost use Rattle.mathprog_data.specs.Lexing.{LexingEnd, Tokens, Lexes, Fails};
ghost use Rattle.mathprog_data.specs.LexingMachine.{IsWithin};
ghost use Rattle.mathprog_data.specs.LexingRuns.{Run, run, lexed, lexed_run, and_then};
ghost use Rattle.mathprog_data.specs.TokenSlices.{slice_of, AreSlices, AreApart, IsLexicalFault, IsMemory, IsFaultOrMemory};
ghost use Rattle.mathprog_data.specs.TokenRuns.{Slices, slices_of, slices, preceded_by, closed_with, failed_with, ListsAll};

use crate::closing::Closing;
use crate::fault::ReadFail;
use crate::lexer::{Lexer, Seen};
use crate::spans::{lexeme_at, token_at};
use crate::token::Token;
use std::alloc::{AllocError, Global};

/// Adds the token that was seen, if one was, and says whether it closes the text.
#[inline]
fn add_seen<'a>(
    text: &'a [u8],
    seen: Seen,
    closing: &mut Closing,
    found: &mut Vec<Token<'a>>,
) -> Result<bool, ReadFail>
    requires { IsWithin 0 (length text.now) seen }
    ensures open { result ≡ Ok false → (run : Run) →
        preceded_by found.old.items (slices_of text.now (lexed_run text.now closing.old (and_then seen run)))
        ≡ preceded_by found.new.items (slices_of text.now (lexed_run text.now closing.new run)) }
    ensures closed { result ≡ Ok true → (run : Run) →
        preceded_by found.old.items (slices_of text.now (lexed_run text.now closing.old (and_then seen run))) ≡ closed_with found.new.items }
    ensures fault { (fault : DataFault) → result ≡ Err (Fault fault) → (run : Run) →
        slices_of text.now (lexed_run text.now closing.old (and_then seen run)) ≡ failed_with fault }
{
    match seen {
        Seen::Nothing => Ok(false),
        Seen::Fault(fault) => Err(ReadFail::Fault(fault)),
        Seen::Token(span) => {
            found.push(token_at(text, &span)).map_err(AllocError::from)?;
            let lexeme = lexeme_at(text, &span);
            let closes = closing.closes(&lexeme);
            *closing = closing.after(&lexeme);
            Ok(closes)
        }
    }
}

/// Takes the next byte of the text, adds the tokens that it makes whole, and says whether one closes the text.
fn take_any_byte<'a>(
    text: &'a [u8],
    byte: u8,
    lexer: &mut Lexer,
    closing: &mut Closing,
    found: &mut Vec<Token<'a>>,
) -> Result<bool, ReadFail>
    requires within { lexer.old.place < length text.now }
    requires short { length text.now ≤ 67108864 }
    ensures place { result ≡ Ok false → lexer.new.place ≡ lexer.old.place + 1 }
    ensures open { result ≡ Ok false → (bytes : List ℕ) →
        preceded_by found.old.items (slices_of text.now (lexed_run text.now closing.old (run lexer.old (byte ∷ bytes))))
        ≡ preceded_by found.new.items (slices_of text.now (lexed_run text.now closing.new (run lexer.new bytes))) }
    ensures closed { result ≡ Ok true → (bytes : List ℕ) →
        preceded_by found.old.items (slices_of text.now (lexed_run text.now closing.old (run lexer.old (byte ∷ bytes)))) ≡ closed_with found.new.items }
    ensures fault { (fault : DataFault) → result ≡ Err (Fault fault) → (bytes : List ℕ) →
        (lexed_run text.now closing.old (run lexer.old (byte ∷ bytes))).end ≡ Fails fault.no fault.at }
{
    let ended = lexer.before(byte);
    match add_seen(text, ended, closing, found) {
        Ok(false) => {
            let taken = lexer.take(byte);
            add_seen(text, taken, closing, found)
        }
        Ok(true) => Ok(true),
        Err(fail) => Err(fail),
    }
}

/// The same, sooner for the many bytes that make nothing whole.
#[inline]
fn take_byte<'a>(
    text: &'a [u8],
    byte: u8,
    lexer: &mut Lexer,
    closing: &mut Closing,
    found: &mut Vec<Token<'a>>,
) -> Result<bool, ReadFail>
    requires within { lexer.old.place < length text.now }
    requires short { length text.now ≤ 67108864 }
    ensures place { result ≡ Ok false → lexer.new.place ≡ lexer.old.place + 1 }
    ensures open { result ≡ Ok false → (bytes : List ℕ) →
        preceded_by found.old.items (slices_of text.now (lexed_run text.now closing.old (run lexer.old (byte ∷ bytes))))
        ≡ preceded_by found.new.items (slices_of text.now (lexed_run text.now closing.new (run lexer.new bytes))) }
    ensures closed { result ≡ Ok true → (bytes : List ℕ) →
        preceded_by found.old.items (slices_of text.now (lexed_run text.now closing.old (run lexer.old (byte ∷ bytes)))) ≡ closed_with found.new.items }
    ensures fault { (fault : DataFault) → result ≡ Err (Fault fault) → (bytes : List ℕ) →
        (lexed_run text.now closing.old (run lexer.old (byte ∷ bytes))).end ≡ Fails fault.no fault.at }
{
    if lexer.pass_over(byte) {
        return Ok(false);
    }
    take_any_byte(text, byte, lexer, closing, found)
}

/// The tokens of the text, or its first lexical fault.
fn all_tokens(alloc: Global, text: &[u8]) -> Result<Vec<Token<'_>>, ReadFail>
    requires { length text.now ≤ 67108864 }
    ensures done { IfOk result (λ found. ListsAll text.now found.items) }
    ensures fault { (fault : DataFault) → result ≡ Err (Fault fault) → (lexed text.now).end ≡ Fails fault.no fault.at }
{
    let mut lexer = Lexer::new();
    let mut closing = Closing::Free;
    let mut found = Vec::new(alloc);
    for byte in text {
        match take_byte(text, *byte, &mut lexer, &mut closing, &mut found) {
            Ok(false) => {}
            Ok(true) => return Ok(found),
            Err(fail) => return Err(fail),
        }
    }
    let last = lexer.end();
    match add_seen(text, last, &mut closing, &mut found) {
        Ok(_) => Ok(found),
        Err(fail) => Err(fail),
    }
}

/// The tokens of a text, in order, each with its kind, its bytes as a slice of the text, and where they stand. A text that
/// has a closing `end ;` is read up to that `;`. The text has 64 MiB at most.
///
/// # Errors
///
/// - `Fault`: the first lexical fault of the text. Its number is 1 where a byte begins no token or may not stand in a quoted
///   symbol, 2 where a quoted symbol isn't closed on its line, and 3 where a comment that `/*` began isn't closed. It stands at
///   the byte, at the quote, and at the `/`.
/// - `Memory`: there is no memory for the list.
///
/// The tokens are those of a data section of GNU MathProg, in the profile of docs/DATA.md.
pub fn tokens(alloc: Global, text: &[u8]) -> Result<Vec<Token<'_>>, ReadFail>
    requires { length text.now ≤ 67108864 }

    ensures listed { IfOk result (λ found. (placed : List Placed) × Tokens text.now placed × AreSlices text.now found.items placed) }
    ensures apart { IfOk result (λ found. AreApart 0 (length text.now) (map slice_of found.items)) }
    ensures first_fault { IfErr result (IsLexicalFault text.now) }

    // A text that has tokens is never refused, and one that has a fault always with that fault.
    ensures refuses_no_tokens { (placed : List Placed) → Tokens text.now placed → IfErr result IsMemory }
    ensures refuses_each_fault { (placed : List Placed) (number : ℕ) (at : Mark) → Lexes text.now placed (Fails number at) →
        MatchResult result (λ _. ⊥) (IsFaultOrMemory number at) }
{
    all_tokens(alloc, text)
}

/// Every text has a lexing, and no second one. It ends with the text, with the closing `end ;`, or at a lexical fault.
pub fn lexing_laws()
    ensures some { (text : List ℕ) → (placed : List Placed) × (end : LexingEnd) × Lexes text placed end }
    ensures one { (text : List ℕ) (placed others : List Placed) (end other : LexingEnd) →
        Lexes text placed end → Lexes text others other → (placed ≡ others) × (end ≡ other) }
{}
