// The numbers from which the factors are made: the scale, the discounted values, and the half-year root. The rate d goes by its
// billionths, and no number that is formed here has more than 110 bits.
ghost use Rattle.std.specs.Prelude.{◌≡◌, ◌+◌, ◌*◌, ◌/◌, ◌^◌, ◌<◌, ◌≤◌, length, IfOk};
ghost use Rattle.discount_factors.specs.Factors.{unit_of, IsPlaces, discounted, half_year_root};
ghost use Rattle.discount_factors.specs.Known.{AreDiscounted};

use std::alloc::{AllocError, Global};

/// The scale of discounted values: 1 is 10^18.
pub(crate) const WHOLE: u64 = 1_000_000_000_000_000_000;

/// The scale of rates: 1 is 10^9.
pub(crate) const BILLION: u128 = 1_000_000_000;

// The square of the half-year root's scale, 10^24, times that of rates.
const SQUARED_SCALE: u128 = 1_000_000_000_000_000_000_000_000_000_000_000;

// The greater number of decimal places, and 1 at either scale of factors.
const NINE_PLACES: u8 = 9;

const NINE_PLACES_UNIT: u64 = 1_000_000_000;

const SIX_PLACES_UNIT: u64 = 1_000_000;

/// What 1 is written as, with so many decimal places.
pub(crate) fn unit_of(places: u8) -> u64
    requires { IsPlaces places }
    ensures { result ≡ unit_of places }
{
    if places == NINE_PLACES {
        NINE_PLACES_UNIT
    } else {
        SIX_PLACES_UNIT
    }
}

/// The value a year later: divided by 1 + d, and rounded down.
fn one_year_later(value: u64, rate: u64) -> u64
    ensures { result ≡ value * 10 ^ 9 / (10 ^ 9 + rate) }
{
    (u128::from(value) * BILLION / (BILLION + u128::from(rate))) as u64
}

/// The discounted values of the years from 0 to `last`, in order. Refuses only where memory runs out.
pub(crate) fn discounted_values(alloc: Global, rate: u64, last: u16) -> Result<Vec<u64>, AllocError>
    ensures count { IfOk result (λ values. length values.items ≡ last + 1) }
    ensures values { IfOk result (λ values. AreDiscounted rate values.items) }
{
    let mut values = Vec::with_capacity(alloc, usize::from(last) + 1)?;
    let mut value = WHOLE;
    values.push(value)?;
    for _ in 0..last {
        value = one_year_later(value, rate);
        values.push(value)?;
    }
    Ok(values)
}

/// The discounted value of one number of years alone.
pub(crate) fn discounted_value(rate: u64, years: u16) -> u64
    ensures { result ≡ discounted rate years }
{
    let mut value = WHOLE;
    for _ in 0..years {
        value = one_year_later(value, rate);
    }
    value
}

/// The square root of 1 / (1 + d) at the scale of 10^12, rounded down.
pub(crate) fn half_year_root(rate: u64) -> u64
    ensures { result ≡ half_year_root rate }
{
    (SQUARED_SCALE / (BILLION + u128::from(rate))).isqrt() as u64
}

/// The part of the whole, at the scale where 1 is `unit`, and rounded down.
pub(crate) fn part_of(unit: u64, part: u64, whole: u64) -> u64
    requires some { 0 < whole }
    requires within { part ≤ whole }
    ensures { result ≡ unit * part / whole }
{
    (u128::from(unit) * u128::from(part) / u128::from(whole)) as u64
}
