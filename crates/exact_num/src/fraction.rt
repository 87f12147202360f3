// Fractions in lowest terms.
ghost use Rattle.std.specs.Prelude.{◌≡◌, pos, ◌<ℤ◌, unsigned_abs};
ghost use Rattle.exact_num.specs.Gcd.{gcd_of};
ghost use Rattle.exact_num.specs.Range.{InRange};

/// An exact fraction `num / den`: in lowest terms, with a positive denominator, both numbers from `-(2^127 - 1)` to
/// `2^127 - 1`. So equal numbers are equal fractions.
#[derive(Clone, Copy, Debug, PartialEq, Eq)]
pub struct Frac {
    pub num: i128,
    pub den: i128,
    pub ghost num_fits: { InRange num },
    pub ghost den_fits: { InRange den },
    pub ghost positive: { pos 0 <ℤ den },
    pub ghost lowest: { gcd_of (unsigned_abs num) (unsigned_abs den) ≡ 1 },
}
