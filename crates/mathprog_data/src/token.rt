//! Tokens as slices of the text.

/// A token of a text.
#[derive(Drop)]
pub struct Token<'a> {
    /// 1 for a sign, 2 for a bare symbol, 3 for a quoted symbol.
    pub kind: u8,
    /// The bytes of the text from `from` to `to`, quotes included.
    pub text: &'a [u8],
    /// Where it begins, in bytes from the beginning of the text.
    pub from: u32,
    /// Where the byte after it stands.
    pub to: u32,
}
