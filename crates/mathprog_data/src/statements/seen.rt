//! What a token says to the reader of statements.

ghost use Rattle.std.specs.Prelude.{◌≡◌, false, IfOk};
ghost use Rattle.std.specs.Str.{all_ascii_digits};
ghost use Rattle.mathprog_data.specs.Lexemes.{Quoted, lexeme_of, bare_name, undoubled, without_leading_zeros};
ghost use Rattle.mathprog_data.specs.MachineStates.{seen_of};
ghost use Rattle.mathprog_data.specs.NumberReading.{reading};
ghost use Rattle.mathprog_data.specs.SymbolViews.{seen_view, word_in, name_in, number_in};

use super::short_number::short_number;
use crate::blocks::Name;
use crate::lexeme::{Lexeme, Sign};
use crate::words::{Word, word_of};
use scaled_decimals::read_decimal;
use std::alloc::{AllocError, Global};

/// A symbol: its quote, where it has one, and its bytes, without the quotes.
#[derive(Clone, Copy)]
pub(crate) struct Symbol<'a> {
    quote: Option<u8>,
    bytes: &'a [u8],
}

/// What a token says: a sign, nothing where it is an empty quoted symbol, or a symbol.
#[derive(Clone, Copy)]
pub(crate) enum Seen<'a> {
    Sign(Sign),
    Empty,
    Symbol(Symbol<'a>),
}

/// What the token says.
pub(crate) fn seen_in(lexeme: Lexeme<'_>) -> Seen<'_>
    ensures { seen_view result ≡ seen_of (lexeme_of lexeme.entry) }
{
    match lexeme {
        Lexeme::Sign(sign) => Seen::Sign(sign),
        Lexeme::Bare(bytes) => Seen::Symbol(Symbol { quote: None, bytes }),
        Lexeme::Quoted { quote, inner } => quoted(quote, inner),
    }
}

/// What a quoted symbol says. Without characters it says nothing.
fn quoted(quote: u8, inner: &[u8]) -> Seen<'_>
    ensures { seen_view result ≡ seen_of (Quoted (undoubled quote false inner.now)) }
{
    let symbol = Symbol {
        quote: Some(quote),
        bytes: inner,
    };
    if inner.is_empty() {
        return Seen::Empty;
    }
    if inner.len() > 1 {
        return Seen::Symbol(symbol);
    }
    if inner[0] == quote {
        Seen::Empty
    } else {
        Seen::Symbol(symbol)
    }
}

/// The bytes that a bare symbol names: digits alone without leading zeros.
fn bare_name(bytes: &[u8]) -> &[u8]
    ensures { result.now ≡ bare_name bytes.now }
{
    if are_digits(bytes) {
        without_leading_zeros(bytes)
    } else {
        bytes
    }
}

/// Whether all bytes are digits.
pub(super) fn are_digits(bytes: &[u8]) -> bool
    ensures { result ≡ all_ascii_digits bytes.now }
{
    for c in bytes {
        if !c.is_ascii_digit() {
            return false;
        }
    }
    true
}

/// Digits without leading zeros. One digit always stays.
fn without_leading_zeros(digits: &[u8]) -> &[u8]
    ensures { result.now ≡ without_leading_zeros digits.now }
{
    for (i, c) in digits.iter().enumerate() {
        if *c != b'0' || i + 1 == digits.len() {
            return &digits[i..];
        }
    }
    &digits[digits.len()..]
}

/// The bytes between quotes, with each doubled quote as one.
fn undoubled(alloc: Global, quote: u8, inner: &[u8]) -> Result<Vec<u8>, AllocError>
    ensures { IfOk result (λ bytes. bytes.items ≡ undoubled quote false inner.now) }
{
    let mut bytes = Vec::with_capacity(alloc, inner.len())?;
    let mut second = false;
    for c in inner {
        second = *c == quote && !second;
        if !second {
            bytes.push(*c)?;
        }
    }
    Ok(bytes)
}

impl Symbol<'_> {
    /// Which word the symbol is. A quoted symbol is none.
    pub(crate) fn word(&self) -> Word
        ensures { result ≡ word_in self.now }
    {
        match self.quote {
            None => word_of(self.bytes),
            Some(_) => Word::Other,
        }
    }

    /// The name of the symbol.
    #[inline(always)]
    pub(crate) fn name(&self, alloc: Global) -> Result<Name, AllocError>
        ensures { IfOk result (λ name. name ≡ name_in self.now) }
    {
        match self.quote {
            None => Name::from_slice(alloc, bare_name(self.bytes)),
            Some(quote) => Name::from_vec(alloc, undoubled(alloc, quote, self.bytes)?),
        }
    }

    /// The number that the symbol is, in billionths, and whether it was rounded. Nothing where it is none, or
    /// above 10^15.
    #[inline(always)]
    pub(crate) fn number(&self) -> Option<(i128, bool)>
        ensures { result ≡ number_in self.now }
    {
        match self.quote {
            None => reading(self.bytes),
            Some(_) => None,
        }
    }
}

/// The number of a bare symbol.
fn reading(bytes: &[u8]) -> Option<(i128, bool)>
    ensures { result ≡ reading bytes.now }
{
    if let Some(number) = short_number(bytes) {
        return Some((number, false));
    }
    match read_decimal(bytes) {
        Ok(number) => Some(number),
        Err(_) => None,
    }
}
