//! The arithmetic of the grid.

ghost use Rattle.std.specs.Prelude.{◌≡◌, ◌≤◌, ◌<◌, unsigned_abs, neg_ℤ, IfOk, IfErr};
ghost use Rattle.exact_num.specs.Range.{InRange};
ghost use Rattle.scaled_decimals.specs.Rounding.{nearest};
ghost use Rattle.decimal_solver.specs.Numbers.{lowered, near, raised, reduced_number, scaled_number};
ghost use Rattle.decimal_solver.specs.Views.{IsNothing};

use certified_answers::NoAnswer;
use exact_num::{difference, product, total};

/// How many stand for 1.
pub(crate) const UNIT: i128 = 1_000_000_000;

/// By how much right sides and costs are set off, so that what the rounding does is on the safe side.
const SHIFT: i128 = 1000;

/// The whole number nearest to `n / d`, of two that are as near the greater one.
fn nearest(n: u128, d: u128) -> u128
    requires { 0 < d }
    ensures value { result ≡ nearest n d }
    ensures small { result ≤ n }
{
    let whole = n / d;
    let rest = n % d;
    if d - rest <= rest { whole + 1 } else { whole }
}

/// `-n`.
pub(crate) fn opposite(n: i128) -> i128
    requires { InRange n }
    ensures value { result ≡ neg_ℤ n }
    ensures range { InRange result }
{
    -n
}

/// The whole number nearest to `a / b`, of two that are as near the one further from 0.
fn near(a: i128, b: u128) -> i128
    requires fits { InRange a }
    requires positive { 0 < b }
    ensures value { result ≡ near a b }
    ensures range { InRange result }
{
    let size = nearest(a.unsigned_abs(), b) as i128;
    if a < 0 { opposite(size) } else { size }
}

/// `near(f * a / d)`.
pub(crate) fn scaled_number(f: i128, a: i128, d: u128) -> Result<i128, NoAnswer>
    ensures value { IfOk result (λ z. scaled_number f a d ≡ Some z) }
    ensures range { IfOk result (λ z. InRange z) }
    ensures nothing { IfErr result (IsNothing (scaled_number f a d)) }
{
    if d == 0 {
        return Err(NoAnswer::Nothing);
    }
    let number = product(f, a)?;
    Ok(near(number, d))
}

/// `a - near(q * r / 10^9)`.
pub(crate) fn reduced_number(q: i128, r: i128, a: i128) -> Result<i128, NoAnswer>
    ensures value { IfOk result (λ z. reduced_number q r a ≡ Some z) }
    ensures range { IfOk result (λ z. InRange z) }
    ensures nothing { IfErr result (IsNothing (reduced_number q r a)) }
{
    let part = scaled_number(q, r, UNIT as u128)?;
    Ok(difference(a, part)?)
}

/// A right side set off.
pub(crate) fn lowered(z: i128) -> Result<i128, NoAnswer>
    ensures value { IfOk result (λ y. lowered z ≡ Some y) }
    ensures range { IfOk result (λ y. InRange y) }
    ensures nothing { IfErr result (IsNothing (lowered z)) }
{
    Ok(difference(z, SHIFT)?)
}

/// A cost set off, as it stands in the line of z.
pub(crate) fn raised(z: i128) -> Result<i128, NoAnswer>
    ensures value { IfOk result (λ y. raised z ≡ Some y) }
    ensures range { IfOk result (λ y. InRange y) }
    ensures nothing { IfErr result (IsNothing (raised z)) }
{
    Ok(total(z, SHIFT)?)
}
