//! The bare symbols that are keywords where one may stand.

ghost use Rattle.std.specs.Prelude.{◌≡◌, false};
ghost use Rattle.mathprog_data.specs.declared.words.Word.TheVariants.{Other};
ghost use Rattle.mathprog_data.specs.Words.{word_of};

/// What a bare symbol may be besides a name or a number.
#[derive(Clone, Copy, Debug, PartialEq, Eq)]
pub(crate) enum Word {
    /// `data`
    Data,
    /// `set`
    Set,
    /// `param`
    Param,
    /// `end`
    End,
    /// `default`
    Default,
    /// `tr`
    Tr,
    /// `.`
    Point,
    /// None of them.
    Other,
}

/// What the bare symbol of these bytes is.
pub(crate) fn word_of(bytes: &[u8]) -> Word
    ensures { result ≡ word_of bytes.now }
{
    if !may_be_word(bytes) {
        return Word::Other;
    }
    if bytes == b"data".as_slice() {
        Word::Data
    } else if bytes == b"set".as_slice() {
        Word::Set
    } else if bytes == b"param".as_slice() {
        Word::Param
    } else if bytes == b"end".as_slice() {
        Word::End
    } else if bytes == b"default".as_slice() {
        Word::Default
    } else if bytes == b"tr".as_slice() {
        Word::Tr
    } else if bytes == b".".as_slice() {
        Word::Point
    } else {
        Word::Other
    }
}

/// Whether the first byte is that of a word. Most symbols where a word may stand are numbers, which are told by it.
#[inline]
fn may_be_word(bytes: &[u8]) -> bool
    ensures { result ≡ false → word_of bytes.now ≡ Other }
{
    !bytes.is_empty() && (bytes[0] >= b'a' || bytes[0] == b'.')
}
