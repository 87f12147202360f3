//! Values in whole millionths.

ghost use Rattle.std.specs.Prelude.{◌≡◌, ◌+◌, ◌*◌, ◌<◌, ◌≤◌, ◌^◌, Some, None, if◌then◌else◌, nat_lt, pos, neg_ℤ};
ghost use Rattle.exact_num.specs.Value.{value_of};
ghost use Rattle.exact_num.specs.Rational.{signed_by};
ghost use Rattle.scaled_decimals.specs.Rounding.{nearest};
ghost use Rattle.value_millionths.specs.Shown.{shown};

use exact_num::Frac;
use scaled_decimals::round_part;

/// A unit in millionths.
const UNIT: u128 = 1_000_000;

/// The least size that leaves 128 bits with a sign, 2^127.
const TOO_LARGE: u128 = 170_141_183_460_469_231_731_687_303_715_884_105_728;

/// The whole number of millionths nearest to a value, and of two that are as near the one farther from 0: what its six decimal places
/// print. `None` where it leaves 128 bits.
#[tactic(auto, unfolding(scaled_decimals::specs::PrintedPlaces::millionths))]
pub fn millionths(value: Frac) -> Option<i128>
    ensures { result ≡ shown (value_of value) }
{
    match rounded(value.num.unsigned_abs(), value.den.unsigned_abs()) {
        Some(size) => Some(signed(value.num, size)),
        None => None,
    }
}

// A size with the sign of a number.
fn signed(sign: i128, size: u128) -> i128
    requires { size < 2 ^ 127 }
    ensures { result ≡ signed_by sign (pos size) }
{
    if sign < 0 {
        -(size as i128)
    } else {
        size as i128
    }
}

// The whole number of millionths nearest to `num / den`, the greater one of two that are as near, where it is below 2^127.
fn rounded(num: u128, den: u128) -> Option<u128>
    requires positive { 0 < den }
    ensures { result ≡ (if nat_lt (nearest (1000000 * num) den) (2 ^ 127) then Some (nearest (1000000 * num) den) else None) }
{
    fitting(num / den, round_part(num % den, den))
}

// So many units and millionths together, where they are below 2^127.
fn fitting(whole: u128, part: u32) -> Option<u128>
    requires { part ≤ 1000000 }
    ensures { result ≡ (if nat_lt (1000000 * whole + part) (2 ^ 127) then Some (1000000 * whole + part) else None) }
{
    if whole >= TOO_LARGE / UNIT + 1 {
        return None;
    }
    let size = UNIT * whole + u128::from(part);
    if size < TOO_LARGE { Some(size) } else { None }
}
