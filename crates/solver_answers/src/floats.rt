//! Exact values as floats.

ghost use Rattle.std.specs.Prelude.{◌≡◌};
ghost use Rattle.exact_num.specs.Value.{value_of};
ghost use Rattle.solver_answers.specs.Tables.{float_of, float_of_ratio, float_of_size};

use exact_num::Frac;
use std::num::nearest_u64_to_f64;

/// 2^64.
pub(crate) const TWO_TO_64: f64 = 18446744073709551616.0;

/// A fraction as a float.
pub(crate) fn float_of_frac(value: Frac) -> f64
    ensures { result ≡ float_of_ratio (value_of value) }
{
    float_of(value.num) / float_of(value.den)
}

/// A whole number as a float.
fn float_of(number: i128) -> f64
    ensures { result ≡ float_of number }
{
    let size = float_of_size(number.unsigned_abs());
    if number < 0 { -size } else { size }
}

/// A size as a float: its two halves, each the nearest float, and their sum.
fn float_of_size(size: u128) -> f64
    ensures { result ≡ float_of_size size }
{
    let high = nearest_u64_to_f64((size >> 64) as u64);
    let low = nearest_u64_to_f64((size & 0xffff_ffff_ffff_ffff) as u64);
    high * TWO_TO_64 + low
}
