//! Division of entries of 64 bits by the greatest common divisor of a line. A quotient is guessed by a product, and the guess is
//! tested by another one, which takes far less time than a division.

ghost use Rattle.std.specs.Prelude.{◌≡◌, ◌<◌, ◌≤ℤ◌, ◌<ℤ◌, ◌*ℤ◌, ◌^◌, ◌∷◌, ℕ, true, pos, int_div, unsigned_abs, FitsSigned, IfSome};
ghost use Rattle.std.specs.Int.{w64};
ghost use Rattle.exact_num.specs.Gcd.{gcd_of};
ghost use Rattle.exact_num.specs.Range.{InRange};
ghost use Rattle.row_core.specs.Numbers.{numbers_of};
ghost use Rattle.row_core.specs.Written.{entries_divided, row_divisor};
ghost use Rattle.written_method.specs.Lines.{lowest_line};
ghost use Rattle.int_tableau.specs.Entries.{IsSparse};
ghost use Rattle.int_tableau.specs.LineView.{line_seen};
ghost use Rattle.int_tableau.specs.Narrow.{AreNarrow};

use crate::narrow::is_narrow;
use exact_num::gcd;
use row_core::quotient;

/// A number whose product with an odd number is 1 modulo 2^64. Each round doubles how many bits are right, from 5 on.
fn inverse(odd: i64) -> i64 {
    let mut inverse = odd.wrapping_mul(3) ^ 2;
    for _ in 0..4 {
        inverse = inverse.wrapping_mul(2i64.wrapping_sub(odd.wrapping_mul(inverse)));
    }
    inverse
}

/// A divisor, with how many twos it has and the inverse of what is left without them.
#[derive(Clone, Copy)]
struct Divisor {
    by: i64,
    twos: u32,
    inverse: i64,
    ghost nonnegative: { pos 0 ≤ℤ by },
    ghost narrow: { unsigned_abs by < 2 ^ 63 },
}

impl Divisor {
    fn new(by: i64) -> Divisor
        requires nonnegative { pos 0 ≤ℤ by }
        requires narrow { unsigned_abs by < 2 ^ 63 }
        ensures { result.by ≡ by }
    {
        let twos = by.trailing_zeros();
        Divisor {
            by,
            twos,
            inverse: inverse(by.wrapping_shr(twos)),
        }
    }

    /// `n` over the divisor, if that is a whole number. Else it is any number.
    fn guess(self, n: i64) -> i64
        ensures { FitsSigned w64 result }
    {
        n.wrapping_shr(self.twos).wrapping_mul(self.inverse)
    }

    /// `n` over the divisor, where the guess is right.
    fn guessed(self, n: i64) -> Option<i64>
        requires { unsigned_abs n < 2 ^ 63 }
        ensures value { IfSome result (λ q. q *ℤ self.by ≡ n) }
        ensures range { IfSome result (λ q. FitsSigned w64 q) }
    {
        let guess = self.guess(n);
        if guess as i128 * self.by as i128 == n as i128 {
            Some(guess)
        } else {
            None
        }
    }

    /// The greatest common divisor of the divisor and `n`.
    fn shared(self, n: i64) -> Divisor
        requires { unsigned_abs n < 2 ^ 63 }
        ensures { result.by ≡ pos (gcd_of (unsigned_abs self.by) (unsigned_abs n)) }
    {
        match self.guessed(n) {
            Some(_) => self,
            None => Divisor::new(common(self.by, n)),
        }
    }

    /// `n` over the divisor.
    fn quotient(self, n: i64) -> i64
        requires positive { pos 0 <ℤ self.by }
        requires narrow { unsigned_abs n < 2 ^ 63 }
        ensures { result ≡ int_div n self.by }
    {
        match self.guessed(n) {
            Some(quotient) => quotient,
            None => n / self.by,
        }
    }
}

/// The greatest common divisor of two numbers of 64 bits.
fn common(a: i64, b: i64) -> i64
    requires left { unsigned_abs a < 2 ^ 63 }
    requires right { unsigned_abs b < 2 ^ 63 }
    ensures value { result ≡ pos (gcd_of (unsigned_abs a) (unsigned_abs b)) }
    ensures narrow { unsigned_abs result < 2 ^ 63 }
{
    gcd(a as i128, b as i128) as i64
}

/// The greatest common divisor of a number that isn't negative and the numbers of entries; 1 where all of them are 0.
fn divisor_of(first: i64, entries: &[(usize, i64)]) -> i64
    requires first { unsigned_abs first < 2 ^ 63 }
    requires nonnegative { pos 0 ≤ℤ first }
    requires entries { AreNarrow entries.now }
    ensures value { result ≡ pos (row_divisor (first ∷ numbers_of entries.now)) }
    ensures narrow { unsigned_abs result < 2 ^ 63 }
{
    let mut divisor = Divisor::new(first);
    for entry in entries {
        if divisor.by == 1 {
            return 1;
        }
        divisor = divisor.shared(entry.1);
    }
    if divisor.by > 0 { divisor.by } else { 1 }
}

/// Whether it is sure that a number that isn't negative and the numbers of entries have no common divisor.
pub(crate) fn are_lowest(first: i128, entries: &[(usize, i64)]) -> bool
    requires fits { InRange first }
    requires nonnegative { pos 0 ≤ℤ first }
    requires entries { AreNarrow entries.now }
    ensures { result ≡ true → row_divisor (first ∷ numbers_of entries.now) ≡ 1 }
{
    if !is_narrow(first) {
        return false;
    }
    divisor_of(first as i64, entries) == 1
}

/// Divides each entry.
fn divide_all(entries: &mut Vec<(usize, i64)>, divisor: i64)
    requires positive { pos 0 <ℤ divisor }
    requires narrow { unsigned_abs divisor < 2 ^ 63 }
    requires entries { AreNarrow entries.old.items }
    ensures { entries.new.items ≡ entries_divided (unsigned_abs divisor) entries.old.items }
{
    if divisor == 1 {
        return;
    }
    let divisor = Divisor::new(divisor);
    for entry in entries.iter_mut() {
        entry.1 = divisor.quotient(entry.1);
    }
}

/// Divides a line by the greatest common divisor of its numbers, and gives its right side and own entry; or leaves it, where the
/// divisor of those two has more than 64 bits. The divisor is sought among those two first, and is mostly found to be 1 before many
/// entries are read.
pub(crate) fn divide(
    entries: &mut Vec<(usize, i64)>,
    right: i128,
    own: i128,
) -> Option<(i128, i128)>
    requires narrow { AreNarrow entries.old.items }
    requires right_fits { InRange right }
    requires own_fits { InRange own }
    ensures line { (n : ℕ) → IsSparse 0 n entries.old.items → IfSome result (λ r. line_seen n entries.new.items r.0 r.1 ≡ lowest_line (line_seen n entries.old.items right own)) }
    ensures sparse { (n : ℕ) → IsSparse 0 n entries.old.items → IfSome result (λ r. IsSparse 0 n entries.new.items) }
    ensures narrow { AreNarrow entries.new.items }
    ensures right { IfSome result (λ r. InRange r.0) }
    ensures own { IfSome result (λ r. InRange r.1) }
{
    let first = gcd(right, own);
    if !is_narrow(first) {
        return None;
    }
    let divisor = divisor_of(first as i64, entries);
    divide_all(entries, divisor);
    Some((
        quotient(right, divisor as i128),
        quotient(own, divisor as i128),
    ))
}
