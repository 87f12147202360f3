//! Powers of ten, and short decimals.

ghost use Rattle.std.specs.Prelude.{◌≡◌, pos, ◌<ℤ◌, int_div, int_rem, IfOk};
ghost use Rattle.exact_num.specs.Range.{InRange};
ghost use Rattle.exact_num.specs.Rational.{lowest};
ghost use Rattle.exact_num.specs.Value.{value_of};
ghost use Rattle.presolved_program.specs.Roundings.{IsAtMost};

use crate::entries::{quotient, whole};
use crate::floats::nearest;
use crate::stop::Stop;
use exact_num::{Frac, cmp_frac, fits, mul, ratio, sub};

/// The greatest exponent that is looked at: numbers beyond are given up.
const MOST: u32 = 320;

/// 10^p, exactly.
pub fn power(p: u32) -> Result<i128, Stop>
    ensures positive { IfOk result (λ value. pos 0 <ℤ value) }
    ensures range { IfOk result InRange }
{
    let mut value: i128 = 1;
    for _ in 0..p {
        value = exact_num::product(value, 10)?;
    }
    Ok(value)
}

/// 10^p, rounded.
pub fn float_power(p: i32) -> f64 {
    let mut value = 1.0;
    for _ in 0..p.unsigned_abs().min(MOST) {
        value = value * 10.0;
    }
    if p < 0 { 1.0 / value } else { value }
}

/// The least p with `a <= 10^p`, for `a` above 0.
pub fn digits_before(a: f64) -> Result<i32, Stop> {
    if !(a > 0.0 && a.is_finite()) {
        return Err(Stop::GivenUp);
    }
    let mut p: i32 = 0;
    let mut bound = 1.0;
    for _ in 0..MOST {
        if a <= bound {
            break;
        }
        bound = bound * 10.0;
        p = p.saturating_add(1);
    }
    for _ in 0..MOST {
        if a > bound / 10.0 {
            break;
        }
        bound = bound / 10.0;
        p = p.saturating_sub(1);
    }
    Ok(p)
}

/// `n / 10^p`, also where p is below 0.
pub fn decimal(n: i128, p: i32) -> Result<Frac, Stop> {
    let power = power(p.unsigned_abs())?;
    if p <= 0 {
        return whole(exact_num::product(n, power)?);
    }
    over(n, power)
}

/// A quotient of whole numbers, if they fit and the divisor isn't 0.
pub fn over(n: i128, divisor: i128) -> Result<Frac, Stop>
    ensures { IfOk result (λ value. value_of value ≡ lowest n divisor) }
{
    if divisor == 0 || !fits(n) || !fits(divisor) {
        return Err(Stop::GivenUp);
    }
    Ok(ratio(n, divisor))
}

/// The decimal nearest to a number, with so many places.
pub fn rounded_to(a: f64, places: i32) -> Result<Frac, Stop> {
    decimal(nearest(a * float_power(places))?, places)
}

/// A number with so many significant digits, upwards; 0 for one that isn't above 0.
pub fn short_above(a: f64, digits: i32) -> Result<Frac, Stop> {
    if a <= 0.0 {
        return whole(0);
    }
    let places = digits.saturating_sub(digits_before(a)?);
    let n = nearest(a * float_power(places))?;
    decimal(n.saturating_add(1), places)
}

/// The same downwards.
pub fn short_below(a: f64, digits: i32) -> Result<Frac, Stop> {
    if a <= 0.0 {
        return whole(0);
    }
    let places = digits.saturating_sub(digits_before(a)?);
    let n = nearest(a * float_power(places))?;
    decimal(n.saturating_sub(1).max(0), places)
}

/// The shortest decimal of at most so many places between two bounds, nearest to 0.
pub fn between(least: Option<Frac>, most: Option<Frac>, places: i32) -> Result<Frac, Stop> {
    for shown in 0..places.saturating_add(1) {
        let value = nearest_to_zero(least, most, shown)?;
        let low = least.is_none_or(|bound| cmp_frac(bound, value).is_le());
        let high = most.is_none_or(|bound| cmp_frac(value, bound).is_le());
        if low && high {
            return Ok(value);
        }
    }
    Err(Stop::GivenUp)
}

/// The decimal of so many places that is nearest to 0 and keeps the bound on 0's other side: 0, the least one above the lower
/// bound, or the greatest one below the upper bound.
fn nearest_to_zero(least: Option<Frac>, most: Option<Frac>, places: i32) -> Result<Frac, Stop> {
    if let Some(bound) = least
        && bound.num > 0
    {
        let up = ceiling(scaled(bound, places)?)?;
        return decimal(up, places);
    }
    if let Some(bound) = most
        && bound.num < 0
    {
        // The greatest whole number below is the negation of the least one above the negation.
        let turned = sub(whole(0)?, bound)?;
        let up = ceiling(scaled(turned, places)?)?;
        return decimal(exact_num::difference(0, up)?, places);
    }
    whole(0)
}

/// A fraction times 10^p.
pub fn scaled(value: Frac, p: i32) -> Result<Frac, Stop> {
    Ok(mul(value, whole(power(p.unsigned_abs())?)?)?)
}

/// The least whole number that isn't below a positive fraction.
pub fn ceiling(value: Frac) -> Result<i128, Stop> {
    if value.den <= 0 || value.num <= 0 {
        return Ok(0);
    }
    Ok(exact_num::total((value.num - 1) / value.den, 1)?)
}

/// The least decimal of so many places that isn't below a fraction.
pub fn rounded_up(value: Frac, places: i32) -> Result<Frac, Stop> {
    let turned = sub(whole(0)?, value)?;
    let down = rounded_down(turned, places)?;
    Ok(sub(whole(0)?, down)?)
}

/// The greatest decimal of so many places that isn't above a fraction, also where there are fewer than 0.
pub fn rounded_down(value: Frac, places: i32) -> Result<Frac, Stop>
    ensures { IfOk result (λ short. IsAtMost (value_of short) (value_of value)) }
{
    let unit = unit_of(places.unsigned_abs())?;
    if places < 0 {
        let scaled = quotient(value, unit)?;
        return Ok(mul(floor(scaled)?, unit)?);
    }
    let scaled = mul(value, unit)?;
    quotient(floor(scaled)?, unit)
}

// 10^p as a fraction.
fn unit_of(p: u32) -> Result<Frac, Stop>
    ensures { IfOk result (λ unit. pos 0 <ℤ (value_of unit).top) }
{
    whole(power(p)?)
}

// The greatest whole number that isn't above a fraction.
fn floor(value: Frac) -> Result<Frac, Stop>
    ensures { IfOk result (λ whole. IsAtMost (value_of whole) (value_of value)) }
{
    let part = cut_off(value.num, value.den);
    if rest_of(value.num, value.den) < 0 {
        return whole(exact_num::difference(part, 1)?);
    }
    whole(part)
}

// A quotient, rounded towards 0.
fn cut_off(number: i128, divisor: i128) -> i128
    requires fits { InRange number }
    requires divisor_fits { InRange divisor }
    requires positive { pos 0 <ℤ divisor }
    ensures value { result ≡ int_div number divisor }
    ensures range { InRange result }
{
    number / divisor
}

// What is left of such a quotient; it has the sign of the number.
fn rest_of(number: i128, divisor: i128) -> i128
    requires fits { InRange number }
    requires divisor_fits { InRange divisor }
    requires positive { pos 0 <ℤ divisor }
    ensures value { result ≡ int_rem number divisor }
    ensures range { InRange result }
{
    number % divisor
}
