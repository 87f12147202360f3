//! The closing `end ;`, after which nothing is read.

ghost use Rattle.std.specs.Prelude.{◌≡◌};
ghost use Rattle.mathprog_data.specs.Lexemes.{lexeme_of};
ghost use Rattle.mathprog_data.specs.LexingRuns.{closing_after, closes};

use crate::lexeme::{Lexeme, Sign};

/// What the tokens before the next one say of the closing `end ;`.
#[derive(Clone, Copy, Debug, PartialEq, Eq)]
pub(crate) enum Closing {
    /// A bare `end` here may be the closing one: there are no tokens, or the last is `;`.
    Free,
    /// The last token is such an `end`: a `;` here closes the text.
    End,
    /// Anything else.
    Inside,
}

impl Closing {
    /// Whether this token closes the text.
    #[inline]
    pub(crate) fn closes(self, lexeme: &Lexeme<'_>) -> bool
        ensures { result ≡ closes self (lexeme_of lexeme.now) }
    {
        match (self, lexeme) {
            (Closing::End, Lexeme::Sign(Sign::Semicolon)) => true,
            _ => false,
        }
    }

    /// What the tokens say with this one.
    #[inline]
    pub(crate) fn after(self, lexeme: &Lexeme<'_>) -> Closing
        ensures { result ≡ closing_after self (lexeme_of lexeme.now) }
    {
        match (self, lexeme) {
            (_, Lexeme::Sign(Sign::Semicolon)) => Closing::Free,
            (Closing::Free, Lexeme::Bare(bytes)) if *bytes == b"end".as_slice() => Closing::End,
            _ => Closing::Inside,
        }
    }
}
