//! What values rounded down and up are worth. The law is proved as the contract of a function that does nothing.

ghost use Rattle.std.specs.Prelude.{◌≡◌, ◌<ℤ◌, ◌≤ℤ◌, ◌*ℤ◌, ℤ, pos, Some};
ghost use Rattle.exact_num.specs.Rational.{Rational};
ghost use Rattle.value_millionths.specs.Outwards.{down, up};

/// A value rounded down isn't above it, and one rounded up isn't below it.
pub fn outward_laws()
    ensures below { (x : Rational) (z : ℤ) → pos 0 <ℤ x.bottom → down x ≡ Some z → (z *ℤ x.bottom) ≤ℤ (pos 1000000 *ℤ x.top) }
    ensures above { (x : Rational) (z : ℤ) → pos 0 <ℤ x.bottom → up x ≡ Some z → (pos 1000000 *ℤ x.top) ≤ℤ (z *ℤ x.bottom) }
{}
