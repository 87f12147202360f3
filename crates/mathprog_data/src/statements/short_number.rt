//! Short decimals without a sign and a power of ten, as nearly all numbers of a data section are. Their value is found
//! without the wide arithmetic that other numbers want.

ghost use Rattle.std.specs.Prelude.{◌≡◌, ◌≤◌, ◌*◌, ◌^◌, ℕ, List, Option, Some, false, length, IfSome};
ghost use Rattle.std.specs.Char.{is_ascii_digit};
ghost use Rattle.std.specs.List.{prefix_len};
ghost use Rattle.scaled_decimals.specs.Digits.{AreDigits, continued};
ghost use Rattle.scaled_decimals.specs.NumberText.{fraction_bytes, fraction_digits};
ghost use Rattle.mathprog_data.specs.NumberReading.{reading};

use super::seen::are_digits;

/// A longer text isn't looked at.
const LONGEST: usize = 20;

/// Digits are taken while the number is at most this.
const ENOUGH: u64 = 100_000_000;

/// The number in billionths that these bytes write exactly, where they are a short decimal without a sign and a power of
/// ten. Where they aren't, nothing is known of them.
pub(super) fn short_number(bytes: &[u8]) -> Option<i128>
    ensures { IfSome result (λ number. reading bytes.now ≡ Some (number, false)) }
{
    if bytes.len() > LONGEST {
        return None;
    }
    let (whole, rest) = bytes.split_at(digit_count(bytes));
    if whole.is_empty() {
        return None;
    }
    let places = places_of(rest)?;
    let factor = billionths(places.len())?;
    let number = continued(continued(0, whole)?, places)?;
    Some(i128::from(number * factor))
}

/// How many digits stand in front.
fn digit_count(text: &[u8]) -> usize
    ensures count { result ≡ prefix_len is_ascii_digit text.now }
    ensures within { result ≤ length text.now }
{
    for (i, byte) in text.iter().enumerate() {
        if !byte.is_ascii_digit() {
            return i;
        }
    }
    text.len()
}

/// The digits after the point, where there is a point and nothing but digits follows it; no digits where the text is empty.
fn places_of(rest: &[u8]) -> Option<&[u8]>
    ensures { IfSome result (λ places. (fraction : Option (List ℕ)) × (rest.now ≡ fraction_bytes fraction)
        × (fraction_digits fraction ≡ places.now) × AreDigits places.now) }
{
    if rest.is_empty() {
        return Some(rest);
    }
    if rest[0] != b'.' {
        return None;
    }
    let places = &rest[1..];
    if are_digits(places) {
        Some(places)
    } else {
        None
    }
}

/// The number that the digits write after those of `so_far`, where it is small.
fn continued(so_far: u64, digits: &[u8]) -> Option<u64>
    requires { so_far ≤ 1000000255 }
    ensures { IfSome result (λ number. (number ≡ continued so_far digits.now) × (number ≤ 1000000255)) }
{
    let mut number = so_far;
    for digit in digits {
        if number > ENOUGH {
            return None;
        }
        number = number * 10 + u64::from(digit.saturating_sub(b'0'));
    }
    Some(number)
}

/// How many billionths the last of so many places counts.
fn billionths(places: usize) -> Option<u64>
    ensures { IfSome result (λ factor. (factor * 10 ^ places ≡ 10 ^ 9) × (factor ≤ 10 ^ 9)) }
{
    match places {
        0 => Some(1_000_000_000),
        1 => Some(100_000_000),
        2 => Some(10_000_000),
        3 => Some(1_000_000),
        4 => Some(100_000),
        5 => Some(10_000),
        6 => Some(1_000),
        7 => Some(100),
        8 => Some(10),
        9 => Some(1),
        _ => None,
    }
}
