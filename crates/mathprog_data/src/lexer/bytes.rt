//! The bytes of a data section by kind.

ghost use Rattle.std.specs.Prelude.{◌≡◌, ◌≤◌, length};
ghost use Rattle.std.specs.List.{prefix_len};
ghost use Rattle.mathprog_data.specs.Places.{is_line_feed};
ghost use Rattle.mathprog_data.specs.LexingBytes.{is_separator, is_symbol_byte, is_quote, is_printable};
ghost use Rattle.mathprog_data.specs.LexingMachine.{sign_of};

use crate::lexeme::Sign;

/// Whether it ends a line.
#[inline]
pub(crate) fn is_line_feed(byte: u8) -> bool
    ensures { result ≡ is_line_feed byte }
{
    byte == b'\n'
}

/// Whether it separates tokens: a blank, a tab, a carriage return or a line feed.
#[inline]
pub(crate) fn is_separator(byte: u8) -> bool
    ensures { result ≡ is_separator byte }
{
    byte == b' ' || byte == b'\t' || byte == b'\r' || byte == b'\n'
}

/// Of the bytes from 0 to 63, one bit each: `+`, `-`, `.` and the digits.
const LOW_SYMBOL_BYTES: u64 = 0x03ff_6800_0000_0000;

/// Of those from 64 to 127: the ASCII letters and `_`.
const HIGH_SYMBOL_BYTES: u64 = 0x07ff_fffe_87ff_fffe;

/// Whether it may stand in a bare symbol: an ASCII letter or digit, `+`, `-`, `.` or `_`. It is asked of nearly every byte,
/// so its bit is looked up.
#[inline(always)]
pub(crate) fn is_symbol_byte(byte: u8) -> bool
    ensures { result ≡ is_symbol_byte byte }
{
    let bits = if byte < 64 {
        LOW_SYMBOL_BYTES
    } else {
        HIGH_SYMBOL_BYTES
    };
    byte < 128 && (bits >> (byte % 64)) % 2 == 1
}

/// How many bytes of bare symbols stand in front.
#[inline(always)]
pub(crate) fn symbol_length(text: &[u8]) -> usize
    ensures count { result ≡ prefix_len is_symbol_byte text.now }
    ensures within { result ≤ length text.now }
{
    for (i, byte) in text.iter().enumerate() {
        if !is_symbol_byte(*byte) {
            return i;
        }
    }
    text.len()
}

/// Whether it begins and ends a quoted symbol.
#[inline]
pub(crate) fn is_quote(byte: u8) -> bool
    ensures { result ≡ is_quote byte }
{
    byte == b'\'' || byte == b'"'
}

/// Whether it may stand in a quoted symbol: 32 to 126.
#[inline]
pub(crate) fn is_printable(byte: u8) -> bool
    ensures { result ≡ is_printable byte }
{
    byte >= 32 && byte <= 126
}

/// The sign of this one byte. `:` is left out, since it may begin `:=`.
#[inline]
pub(crate) fn sign_of(byte: u8) -> Option<Sign>
    ensures { result ≡ sign_of byte }
{
    match byte {
        b';' => Some(Sign::Semicolon),
        b',' => Some(Sign::Comma),
        b'[' => Some(Sign::OpenBracket),
        b']' => Some(Sign::CloseBracket),
        b'(' => Some(Sign::OpenParen),
        b')' => Some(Sign::CloseParen),
        b'*' => Some(Sign::Star),
        _ => None,
    }
}
