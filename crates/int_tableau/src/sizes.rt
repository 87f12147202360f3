//! Sizes of numbers.

ghost use Rattle.std.specs.Prelude.{◌≡◌, ◌-◌, ◌≤◌, unsigned_abs};
ghost use Rattle.exact_num.specs.Range.{InRange};

/// The absolute value.
pub(crate) fn size_of(number: i128) -> u128
    requires { InRange number }
    ensures { result ≡ unsigned_abs number }
{
    number.unsigned_abs()
}

/// The greater of two sizes.
pub(crate) fn greater(a: u128, b: u128) -> u128
    ensures first { a ≤ result }
    ensures second { b ≤ result }
{
    if a < b { b } else { a }
}

/// The greater of two sizes of 64 bits.
pub(crate) fn greater_short(a: u64, b: u64) -> u64
    ensures first { a ≤ result }
    ensures second { b ≤ result }
{
    if a < b { b } else { a }
}

/// The last of so many positions, or 0.
pub(crate) fn last_position(count: usize) -> usize
    ensures { result ≡ count - 1 }
{
    if count > 0 { count - 1 } else { 0 }
}
