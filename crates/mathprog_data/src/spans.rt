//! What stands at a span of the text.

ghost use Rattle.std.specs.Prelude.{◌≡◌, ◌+◌, ◌≤◌, length};
ghost use Rattle.mathprog_data.specs.Lexemes.{lexeme_of};
ghost use Rattle.mathprog_data.specs.LexingMachine.{least_span};
ghost use Rattle.mathprog_data.specs.LexingRuns.{lexeme_at, placed_of};
ghost use Rattle.mathprog_data.specs.TokenSlices.{slice_of, slice_at};

use crate::lexeme::Lexeme;
use crate::lexer::{Kind, Span};
use crate::token::Token;

/// The lexeme that stands there.
pub(crate) fn lexeme_at<'a>(text: &'a [u8], span: &Span) -> Lexeme<'a>
    requires order { span.now.from + least_span span.now.kind ≤ span.now.to }
    requires within { span.now.to ≤ length text.now }
    ensures { lexeme_of result ≡ lexeme_at text.now span.now.kind span.now.from span.now.to }
{
    lexeme_between(text, span.kind, span.from as usize, span.to as usize)
}

/// The lexeme of this kind whose bytes are those from the one place up to the other.
#[inline]
pub(crate) fn lexeme_between(text: &[u8], kind: Kind, from: usize, to: usize) -> Lexeme<'_>
    requires order { from + least_span kind ≤ to }
    requires within { to ≤ length text.now }
    ensures { lexeme_of result ≡ lexeme_at text.now kind from to }
{
    match kind {
        Kind::Sign(sign) => Lexeme::Sign(sign),
        Kind::Bare => Lexeme::Bare(&text[from..to]),
        Kind::Quoted(quote) => Lexeme::Quoted {
            quote,
            inner: &text[from + 1..to - 1],
        },
    }
}

/// The token that stands there.
pub(crate) fn token_at<'a>(text: &'a [u8], span: &Span) -> Token<'a>
    requires order { span.now.from ≤ span.now.to }
    requires within { span.now.to ≤ length text.now }
    ensures { slice_of result ≡ slice_at text.now (placed_of text.now span.now) }
{
    let kind = match span.kind {
        Kind::Sign(_) => 1,
        Kind::Bare => 2,
        Kind::Quoted(_) => 3,
    };
    Token {
        kind,
        text: &text[span.from as usize..span.to as usize],
        from: span.from,
        to: span.to,
    }
}
