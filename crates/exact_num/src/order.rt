// The order of fractions.
ghost use Rattle.std.specs.Prelude.{◌≡◌, ◌*◌, ◌<◌};
ghost use Rattle.std.specs.Ordering.{nat_cmp};
ghost use Rattle.exact_num.specs.Rational.{order_of};
ghost use Rattle.exact_num.specs.Value.{value_of};

use crate::divisor::NARROW;
use crate::fraction::Frac;
use std::cmp::Ordering;

/// How the exact value of `a` stands to that of `b`. It goes by whole parts and remainders, so that no product can leave the
/// range.
pub fn cmp_frac(a: Frac, b: Frac) -> Ordering
    ensures { result ≡ order_of (value_of a) (value_of b) }
{
    if a.num < 0 {
        if b.num < 0 {
            // The one further from 0 is less.
            cmp_ratios(
                b.num.unsigned_abs(),
                b.den.unsigned_abs(),
                a.num.unsigned_abs(),
                a.den.unsigned_abs(),
            )
        } else {
            Ordering::Less
        }
    } else if b.num < 0 {
        Ordering::Greater
    } else {
        cmp_ratios(
            a.num.unsigned_abs(),
            a.den.unsigned_abs(),
            b.num.unsigned_abs(),
            b.den.unsigned_abs(),
        )
    }
}

// How `a / b` stands to `c / d`: by whole parts, then by remainders `r / b` and `s / d`, which stand as `d / s` to `b / r`. Once all
// four numbers have 64 bits, by their products.
fn cmp_ratios(a: u128, b: u128, c: u128, d: u128) -> Ordering
    requires left { 0 < b }
    requires right { 0 < d }
    ensures { result ≡ nat_cmp (a * d) (c * b) }
{
    let mut left = a;
    let mut left_den = b;
    let mut right = c;
    let mut right_den = d;
    while left > NARROW || left_den > NARROW || right > NARROW || right_den > NARROW {
        let left_whole = left / left_den;
        let right_whole = right / right_den;
        if left_whole != right_whole {
            return left_whole.cmp(&right_whole);
        }
        let left_rest = left % left_den;
        let right_rest = right % right_den;
        if left_rest == 0 || right_rest == 0 {
            return left_rest.cmp(&right_rest);
        }
        left = right_den;
        right = left_den;
        left_den = right_rest;
        right_den = left_rest;
    }
    (left * right_den).cmp(&(right * left_den))
}
