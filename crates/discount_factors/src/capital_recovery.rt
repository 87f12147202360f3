// The recovery factor, which goes by a technology's own rate, and so isn't one of the factors that are kept for a region.
ghost use Rattle.std.specs.Prelude.{◌≡◌, ◌^◌, ◌<◌, ◌≤◌, pos, ◌≤ℤ◌, unsigned_abs};
ghost use Rattle.exact_num.specs.Range.{InRange};
ghost use Rattle.discount_factors.specs.Factors.{unit_of, IsPlaces, recovery_factor};

use crate::values::{WHOLE, discounted_value, part_of, unit_of};

/// The recovery factor of `life` years at a rate of 0 to 10^9 billionths: the part of an investment that is due at the beginning of
/// each year of its life, so that they are worth the whole of it when it begins; at rate 0 it is 1 / `life`. It has 6 decimal places
/// or 9, is rounded down, and takes no memory.
pub fn recovery(rate: i128, life: u16, places: u8) -> i128
    requires least { pos 0 ≤ℤ rate }
    requires most { rate ≤ℤ pos 1000000000 }
    requires begun { 0 < life }
    requires places { IsPlaces places }
    ensures exact { result ≡ pos (recovery_factor places (unsigned_abs rate) life) }
    ensures least { pos 0 ≤ℤ result }
    ensures most { result ≤ℤ pos (unit_of places) }
    ensures fits { InRange result }
{
    i128::from(part_due(rate as u64, life, places))
}

// The same, as a number of 64 bits.
fn part_due(rate: u64, life: u16, places: u8) -> u64
    requires begun { 0 < life }
    requires places { IsPlaces places }
    ensures exact { result ≡ recovery_factor places rate life }
    ensures most { result ≤ unit_of places }
    ensures small { result ≤ 10 ^ 9 }
{
    let unit = unit_of(places);
    if rate == 0 {
        unit / u64::from(life)
    } else {
        part_of(
            unit,
            WHOLE - discounted_value(rate, 1),
            WHOLE - discounted_value(rate, life),
        )
    }
}
