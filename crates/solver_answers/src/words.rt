//! The lines of a text, and the words of a line.

ghost use Rattle.std.specs.Prelude.{◌≡◌, ◌≤◌, ◌∷◌, [], MatchOption, length};
ghost use Rattle.std.specs.List.{prefix_len, position_or_len};
ghost use Rattle.mps_meaning.specs.Lines.{ends_line, lines};
ghost use Rattle.solver_answers.specs.Words.{is_blank, says, words};

/// The first line of a text and what follows it, if there is any.
pub(crate) fn split_line(text: &[u8]) -> Option<(&[u8], &[u8])>
    ensures { MatchOption result (lines text.now ≡ []) (λ split. lines text.now ≡ split.0.now ∷ lines split.1.now) }
{
    if text.is_empty() {
        return None;
    }
    let end = line_length(text);
    if end < text.len() {
        Some((&text[..end], &text[end + 1..]))
    } else {
        Some((text, b""))
    }
}

/// The first word of a line and what follows it, if there is a word.
pub(crate) fn split_word(line: &[u8]) -> Option<(&[u8], &[u8])>
    ensures { MatchOption result (words line.now ≡ []) (λ split. words line.now ≡ split.0.now ∷ words split.1.now) }
{
    let (_, begun) = line.split_at(blank_length(line));
    if begun.is_empty() {
        return None;
    }
    Some(begun.split_at(word_length(begun)))
}

/// How many bytes stand before the first line feed.
fn line_length(text: &[u8]) -> usize
    ensures first { result ≡ position_or_len ends_line text.now }
    ensures within { result ≤ length text.now }
{
    for i in 0..text.len() {
        if text[i] == b'\n' {
            return i;
        }
    }
    text.len()
}

/// How many blanks a text begins with.
fn blank_length(text: &[u8]) -> usize
    ensures first { result ≡ prefix_len is_blank text.now }
    ensures within { result ≤ length text.now }
{
    for i in 0..text.len() {
        if !is_blank(text[i]) {
            return i;
        }
    }
    text.len()
}

/// How many bytes stand before the first blank.
fn word_length(text: &[u8]) -> usize
    ensures first { result ≡ position_or_len is_blank text.now }
    ensures within { result ≤ length text.now }
{
    for i in 0..text.len() {
        if is_blank(text[i]) {
            return i;
        }
    }
    text.len()
}

/// Whether a byte is a space, a tab or a carriage return.
fn is_blank(byte: u8) -> bool
    ensures { result ≡ is_blank byte }
{
    byte == b' ' || byte == b'\t' || byte == b'\r'
}

/// Whether a word is this text, without regard to case.
pub(crate) fn says(word: &[u8], text: &[u8]) -> bool
    ensures { result ≡ says word.now text.now }
{
    word.eq_ignore_ascii_case(text)
}
