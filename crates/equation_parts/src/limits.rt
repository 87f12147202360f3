//! Whether a value sets a limit. Each is for a value of the data, of which the fraction is given.

ghost use Rattle.std.specs.Prelude.{◌≡◌, ℤ, pos, ◌^◌};
ghost use Rattle.exact_num.specs.Rational.{lowest};
ghost use Rattle.exact_num.specs.Value.{value_of};
ghost use Rattle.named_equations.specs.Where.{is_limit, is_positive};

use exact_num::Frac;

/// Whether a value that may be any number sets a limit: -1 alone sets none. There the numerator is the negative of the
/// denominator.
pub fn is_limit(value: Frac) -> bool
    ensures { (z : ℤ) → value_of value ≡ lowest z (pos (10 ^ 9)) → result ≡ is_limit z }
{
    value.num != -value.den
}

/// Whether a value is above 0.
pub fn is_positive(value: Frac) -> bool
    ensures { (z : ℤ) → value_of value ≡ lowest z (pos (10 ^ 9)) → result ≡ is_positive z }
{
    value.num > 0
}
