//! Numbers and places from words.

ghost use Rattle.std.specs.Prelude.{◌≡◌};
ghost use Rattle.solver_answers.specs.Numbers.{is_count, number_in, place_in, whole_in};

use fast_float::{parse, parse_u64};

/// The finite number that a word writes, rounded to the nearest `f64`.
#[tactic(auto, unfolding(crate::specs::Numbers::number_in))]
pub(crate) fn number_in(word: &[u8]) -> Option<f64>
    ensures { result ≡ number_in word.now }
{
    match parse::<f64, _>(word) {
        Ok(x) if x.is_finite() => Some(x),
        _ => None,
    }
}

/// The whole number that the digits of a word write.
pub(crate) fn whole_in(word: &[u8]) -> Option<u64>
    ensures { result ≡ whole_in word.now }
{
    match parse_u64(word) {
        Ok(n) => Some(n),
        Err(_) => None,
    }
}

/// The place, counted from 0, of the one of so many that a word counts from 1.
pub(crate) fn place_in(count: usize, word: &[u8]) -> Option<usize>
    ensures { result ≡ place_in count word.now }
{
    let number = whole_in(word)?;
    if 1 <= number && number <= count as u64 {
        Some(number as usize - 1)
    } else {
        None
    }
}

/// Whether a word is this number.
pub(crate) fn is_count(count: usize, word: &[u8]) -> bool
    ensures { result ≡ is_count count word.now }
{
    match whole_in(word) {
        Some(number) => number == count as u64,
        None => false,
    }
}
