//! Values rounded down and up to whole millionths.

ghost use Rattle.std.specs.Prelude.{◌≡◌, ◌+ℤ◌};
ghost use Rattle.exact_num.specs.Value.{value_of};
ghost use Rattle.value_millionths.specs.Outwards.{down, fitting, lowered, raised, up};

use crate::nearest::millionths;
use exact_num::{Frac, cmp_frac, fits, ratio, total};
use std::cmp::Ordering;

/// The greatest whole number of millionths that isn't above a value. `None` where it leaves 128 bits.
pub fn millionths_down(value: Frac) -> Option<i128>
    ensures { result ≡ down (value_of value) }
{
    match millionths(value) {
        Some(nearest) => lowered(value, nearest),
        None => None,
    }
}

/// The least whole number of millionths that isn't below a value. `None` where it leaves 128 bits.
pub fn millionths_up(value: Frac) -> Option<i128>
    ensures { result ≡ up (value_of value) }
{
    match millionths(value) {
        Some(nearest) => raised(value, nearest),
        None => None,
    }
}

// A number of millionths, or one less where it is above the value.
fn lowered(value: Frac, number: i128) -> Option<i128>
    ensures { result ≡ lowered (value_of value) number }
{
    if fits(number) {
        match cmp_frac(ratio(number, 1_000_000), value) {
            Ordering::Greater => moved(number, -1),
            Ordering::Less | Ordering::Equal => Some(number),
        }
    } else {
        None
    }
}

// A number of millionths, or one more where it is below the value.
fn raised(value: Frac, number: i128) -> Option<i128>
    ensures { result ≡ raised (value_of value) number }
{
    if fits(number) {
        match cmp_frac(ratio(number, 1_000_000), value) {
            Ordering::Less => moved(number, 1),
            Ordering::Equal | Ordering::Greater => Some(number),
        }
    } else {
        None
    }
}

// A number and so many more, where that fits.
fn moved(number: i128, by: i128) -> Option<i128>
    ensures { result ≡ fitting (number +ℤ by) }
{
    match total(number, by) {
        Ok(sum) => Some(sum),
        Err(_) => None,
    }
}
