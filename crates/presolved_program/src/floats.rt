//! Exact numbers, rounded; and rounded numbers as whole ones.

use crate::stop::Stop;
use exact_num::Frac;
use std::num::{nearest_u64_to_f64, saturating_f64_to_i64};

/// 2^64.
const TWO_TO_64: f64 = 18446744073709551616.0;

/// A whole number, rounded.
pub fn float_of(number: i128) -> f64 {
    let size = number.unsigned_abs();
    let high = nearest_u64_to_f64((size >> 64) as u64);
    let low = nearest_u64_to_f64((size & 0xffff_ffff_ffff_ffff) as u64);
    let value = high * TWO_TO_64 + low;
    if number < 0 { -value } else { value }
}

/// A fraction, rounded.
pub fn float_of_frac(value: Frac) -> f64 {
    if value.num == 0 {
        return 0.0;
    }
    if value.den == 1 {
        return float_of(value.num);
    }
    float_of(value.num) / float_of(value.den)
}

/// 2^62.
const TWO_TO_62: f64 = 4611686018427387904.0;

/// 2^124: whole numbers from here on are given up.
const GREATEST: f64 = 21267647932558653966460912964485513216.0;

/// The whole number nearest to a number, in two halves.
pub fn nearest(x: f64) -> Result<i128, Stop> {
    if !(x.abs() < GREATEST) {
        return Err(Stop::GivenUp);
    }
    let whole = x.round();
    let high = (whole / TWO_TO_62).trunc();
    let low = whole - high * TWO_TO_62;
    Ok(joined(saturating_f64_to_i64(high), saturating_f64_to_i64(low)))
}

/// The number of two halves.
fn joined(high: i64, low: i64) -> i128 {
    (high as i128) * 4_611_686_018_427_387_904 + (low as i128)
}
