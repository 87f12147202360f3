// The parts of a number's text.
ghost use Rattle.std.specs.Prelude.{◌≡◌, ℕ, Bool, List, ◌∷◌, MatchOption, Option, if◌then◌else◌, ◌==◌, ◌||◌, drop, slice_index, length};
ghost use Rattle.scaled_decimals.specs.Digits.{IsNumeral};
ghost use Rattle.scaled_decimals.specs.NumberText.{NumberText, Exponent, IsExponent, Spells, exponent_bytes, mark};
ghost use Rattle.scaled_decimals.specs.PartsReading.{AreParts, IsPower, digits_in_front, after_digits};

use crate::reading::digits::{following, is_numeral, split_digits};

// The parts of a number: whether it has a minus, the digits before and after the point, and its power of ten, which is without
// digits where there is none.
#[derive(Clone, Copy, Drop)]
pub struct Parts<'a> {
    pub negative: bool,
    pub whole: &'a [u8],
    pub places: &'a [u8],
    pub lowering: bool,
    pub power: &'a [u8],
}

// The parts of a number; none where the text is no number.
pub fn parts_of(text: &[u8]) -> Option<Parts<'_>>
    ensures { MatchOption result ((p : NumberText) → Spells p text.now → ⊥) (λ s. (p : NumberText) × Spells p text.now × AreParts s p) }
{
    let (negative, unsigned) = split_sign(text);
    let (whole, following) = split_digits(unsigned);
    let (places, end) = split_places(following);
    if whole.is_empty() && places.is_empty() {
        return None;
    }
    let (lowering, power) = power_of(end)?;
    Some(Parts {
        negative,
        whole,
        places,
        lowering,
        power,
    })
}

// Whether a minus stands in front, and what follows the sign.
fn split_sign(text: &[u8]) -> (bool, &[u8])
    ensures negative { result.0 ≡ (slice_index text.now 0 == 45) }
    ensures rest { result.1.now ≡ (if (slice_index text.now 0 == 45) || (slice_index text.now 0 == 43) then drop 1 text.now else text.now) }
{
    match text.first() {
        Some(b'-') => (true, &text[1..]),
        Some(b'+') => (false, &text[1..]),
        _ => (false, text),
    }
}

// Whether a minus stands in front, and what follows it.
pub fn split_minus(text: &[u8]) -> (bool, &[u8])
    ensures negative { result.0 ≡ (slice_index text.now 0 == 45) }
    ensures rest { result.1.now ≡ (if slice_index text.now 0 == 45 then drop 1 text.now else text.now) }
{
    match text.first() {
        Some(b'-') => (true, &text[1..]),
        _ => (false, text),
    }
}

// The digits after a point in front, and what follows them.
fn split_places(text: &[u8]) -> (&[u8], &[u8])
    ensures places { result.0.now ≡ (if slice_index text.now 0 == 46 then digits_in_front (drop 1 text.now) else drop (length text.now) text.now) }
    ensures rest { result.1.now ≡ (if slice_index text.now 0 == 46 then after_digits (drop 1 text.now) else text.now) }
{
    match text.first() {
        Some(b'.') => split_digits(&text[1..]),
        _ => (&text[text.len()..], text),
    }
}

// Whether a power of ten has a minus, and its digits; without digits where the text is empty, and none where it is no power of ten.
fn power_of(text: &[u8]) -> Option<(bool, &[u8])>
    ensures { MatchOption result ((e : Option Exponent) → IsExponent e → text.now ≡ exponent_bytes e → ⊥) (λ s. (e : Option Exponent) × IsPower text.now s.0 s.1.now e) }
{
    if text.is_empty() {
        return Some((false, text));
    }
    let (lowering, digits) = split_sign(after_mark(text)?);
    if is_numeral(digits) {
        Some((lowering, digits))
    } else {
        None
    }
}

// What follows `e` or `E`.
fn after_mark(text: &[u8]) -> Option<&[u8]>
    ensures { MatchOption result ((capital : Bool) (rest : List ℕ) → text.now ≡ mark capital ∷ rest → ⊥) (λ rest. (capital : Bool) × (text.now ≡ mark capital ∷ rest.now)) }
{
    match following(text, b'e') {
        Some(rest) => Some(rest),
        None => following(text, b'E'),
    }
}
