//! A token by what it says, without its place.

/// A sign of the data section.
#[derive(Clone, Copy, Debug, PartialEq, Eq)]
pub(crate) enum Sign {
    /// `;`
    Semicolon,
    /// `,`
    Comma,
    /// `:`
    Colon,
    /// `:=`
    Gives,
    /// `[`
    OpenBracket,
    /// `]`
    CloseBracket,
    /// `(`
    OpenParen,
    /// `)`
    CloseParen,
    /// `*`
    Star,
}

/// A token by what it says.
#[derive(Clone, Copy)]
pub(crate) enum Lexeme<'a> {
    Sign(Sign),
    /// A symbol without quotes: its bytes.
    Bare(&'a [u8]),
    /// A symbol in quotes: the quote's byte, and the bytes between the quotes as they stand. A doubled
    /// quote among them stands for one.
    Quoted { quote: u8, inner: &'a [u8] },
}
