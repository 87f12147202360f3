//! What is pending between two bytes.

ghost use Rattle.std.specs.Prelude.{◌≡◌, IfSome};
ghost use Rattle.mathprog_data.specs.LexingMachine.{continues, quiet, in_comment, after_star, least_length};

use crate::lexer::bytes::{is_line_feed, is_separator, is_symbol_byte};

/// What was begun and isn't ended yet.
#[derive(Clone, Copy, Debug, PartialEq, Eq)]
pub(crate) enum Pending {
    /// Nothing: a gap or a token may begin.
    Gap,
    /// A comment that goes on to the end of the line.
    LineComment,
    /// A `/`, after which `*` is due.
    Slash,
    /// A comment that goes on to `*/`.
    BlockComment,
    /// The same, and its last byte is `*`.
    Star,
    /// A `:`, which may be the first byte of `:=`.
    Colon,
    /// A bare symbol.
    Bare,
    /// A symbol in quotes of this byte.
    Quoted(u8),
    /// The same, and its last byte is that quote: it is the closing one, or the first of a doubled one.
    Quote(u8),
}

impl Pending {
    /// Whether what is pending goes on with this byte.
    #[inline]
    pub(crate) fn continues(self, byte: u8) -> bool
        ensures { result ≡ continues self byte }
    {
        match self {
            Pending::LineComment => !is_line_feed(byte),
            Pending::Slash => byte == b'*',
            Pending::Colon => byte == b'=',
            Pending::Bare => is_symbol_byte(byte),
            Pending::Quote(quote) => byte == quote,
            Pending::Gap | Pending::BlockComment | Pending::Star | Pending::Quoted(_) => true,
        }
    }

    /// What is pending after this byte, where it ends nothing, begins nothing and makes nothing whole.
    #[inline]
    pub(crate) fn quiet(self, byte: u8) -> Option<Pending>
        ensures value { result ≡ quiet self byte }
        ensures least { IfSome result (λ pending. least_length pending ≡ 0) }
    {
        match self {
            Pending::Gap if is_separator(byte) => Some(Pending::Gap),
            Pending::Bare if is_symbol_byte(byte) => Some(Pending::Bare),
            Pending::LineComment if !is_line_feed(byte) => Some(Pending::LineComment),
            Pending::BlockComment => Some(in_comment(byte)),
            _ => None,
        }
    }
}

/// What is pending after a byte of a comment.
#[inline]
pub(crate) fn in_comment(byte: u8) -> Pending
    ensures value { result ≡ in_comment byte }
    ensures least { least_length result ≡ 0 }
{
    if byte == b'*' {
        Pending::Star
    } else {
        Pending::BlockComment
    }
}

/// What is pending after a byte that stands after `*` in a comment.
#[inline]
pub(crate) fn after_star(byte: u8) -> Pending
    ensures value { result ≡ after_star byte }
    ensures least { least_length result ≡ 0 }
{
    if byte == b'/' {
        Pending::Gap
    } else {
        in_comment(byte)
    }
}
