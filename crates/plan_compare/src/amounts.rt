//! Sums and differences of numbers of millionths, and their texts.

ghost use Rattle.std.specs.Prelude.{◌≡◌, ◌++◌, Some, OnOk};
ghost use Rattle.plan_compare.specs.Amounts.{difference, number_or, size, sum_of_two};

use exact_num::{fits, ratio, total};
use scaled_decimals::push_places;
use std::alloc::AllocError;

/// The greatest size: that of a difference that isn't there.
const GREATEST: u128 = 170_141_183_460_469_231_731_687_303_715_884_105_728;

/// A sum, where both numbers are there and it fits.
pub(crate) fn sum_of_two(a: Option<i128>, b: Option<i128>) -> Option<i128>
    ensures { result ≡ sum_of_two a b }
{
    match (a, b) {
        (Some(a), Some(b)) => match total(a, b) {
            Ok(sum) => Some(sum),
            Err(_) => None,
        },
        _ => None,
    }
}

/// The second number less the first, where both are there and it fits.
pub fn difference(a: Option<i128>, b: Option<i128>) -> Option<i128>
    ensures { result ≡ difference a b }
{
    match (a, b) {
        (Some(a), Some(b)) => match exact_num::difference(b, a) {
            Ok(rest) => Some(rest),
            Err(_) => None,
        },
        _ => None,
    }
}

/// The size of a difference; one that isn't there counts as greater than any other.
pub(crate) fn size(difference: Option<i128>) -> u128
    ensures { result ≡ size difference }
{
    match difference {
        Some(z) => z.unsigned_abs(),
        None => GREATEST,
    }
}

/// Appends the text of a number, or the word where there is none or it doesn't fit.
pub(crate) fn push_number_or(
    out: &mut Vec<u8>,
    word: &[u8],
    number: Option<i128>,
) -> Result<(), AllocError>
    ensures { OnOk result (out.new.items ≡ out.old.items ++ number_or word.now number) }
{
    match number {
        Some(z) => push_fitting_or(out, word, z),
        None => out.extend_from_slice(word),
    }
}

// Appends the text of a number, or the word where it doesn't fit.
fn push_fitting_or(out: &mut Vec<u8>, word: &[u8], z: i128) -> Result<(), AllocError>
    ensures { OnOk result (out.new.items ≡ out.old.items ++ number_or word.now (Some z)) }
{
    if fits(z) {
        push_places(out, ratio(z, 1_000_000))
    } else {
        out.extend_from_slice(word)
    }
}
