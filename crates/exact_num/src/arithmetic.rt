// Sums, differences, products and quotients of fractions.
ghost use Rattle.std.specs.Prelude.{◌≡◌, ◌≢◌, IfOk, is_ok, pos, neg_ℤ, ◌<ℤ◌, int_div};
ghost use Rattle.exact_num.specs.Formed.{sum_formed, difference_formed, product_formed, quotient_formed, common};
ghost use Rattle.exact_num.specs.Range.{InRange, all_fit};
ghost use Rattle.exact_num.specs.Rational.{lowest, plus, minus, times, divided, negated, reciprocal, pair, IsLowest};
ghost use Rattle.exact_num.specs.Value.{value_of};

use crate::divisor::gcd;
use crate::fraction::Frac;
use crate::range::{TooWide, product, total};

/// The fraction `num / den` in lowest terms with a positive denominator.
pub fn ratio(num: i128, den: i128) -> Frac
    requires nonzero { den ≢ pos 0 }
    requires num_fits { InRange num }
    requires den_fits { InRange den }
    ensures { value_of result ≡ lowest num den }
{
    if den < 0 {
        positive_ratio(opposite(num), opposite(den))
    } else {
        positive_ratio(num, den)
    }
}

/// `a + b`, or `TooWide` exactly where a number that the sum forms doesn't fit. With `g` the greatest common divisor of the
/// denominators `b` and `d`, `a/b + c/d` forms `a * (d/g)`, `c * (b/g)`, their sum, and `b * (d/g)`.
pub fn add(a: Frac, b: Frac) -> Result<Frac, TooWide>
    ensures refused { is_ok result ≡ all_fit (sum_formed (value_of a) (value_of b)) }
    ensures value { IfOk result (λ sum. value_of sum ≡ plus (value_of a) (value_of b)) }
{
    if a.den == 1 && b.den == 1 {
        whole_sum(a, b)
    } else {
        wide_sum(a, b, shared(a.den, b.den))
    }
}

/// `a - b`, or `TooWide` exactly where a number that the difference forms doesn't fit: those of the sum, with the difference in
/// place of the sum.
pub fn sub(a: Frac, b: Frac) -> Result<Frac, TooWide>
    ensures refused { is_ok result ≡ all_fit (difference_formed (value_of a) (value_of b)) }
    ensures value { IfOk result (λ rest. value_of rest ≡ minus (value_of a) (value_of b)) }
{
    add(a, negative(b))
}

/// `a * b`, or `TooWide` exactly where a number that the product forms doesn't fit. `a/b * c/d` forms the products of the
/// numerators and of the denominators, after the greatest common divisors of `a` and `d` and of `c` and `b` were divided out.
pub fn mul(a: Frac, b: Frac) -> Result<Frac, TooWide>
    ensures refused { is_ok result ≡ all_fit (product_formed (value_of a) (value_of b)) }
    ensures value { IfOk result (λ all. value_of all ≡ times (value_of a) (value_of b)) }
{
    if a.den == 1 && b.den == 1 {
        whole_product(a, b)
    } else {
        wide_product(a, b, shared(a.num, b.den), shared(b.num, a.den))
    }
}

/// `a / b`, or `TooWide` exactly where a number that the product of `a` and `1 / b` forms doesn't fit. The sign of `1 / b` is in
/// its numerator.
pub fn div(a: Frac, b: Frac) -> Result<Frac, TooWide>
    requires { b.num ≢ pos 0 }
    ensures refused { is_ok result ≡ all_fit (quotient_formed (value_of a) (value_of b)) }
    ensures value { IfOk result (λ part. value_of part ≡ divided (value_of a) (value_of b)) }
{
    mul(a, inverse(b))
}

// `num / den` in lowest terms.
fn positive_ratio(num: i128, den: i128) -> Frac
    requires num_fits { InRange num }
    requires den_fits { InRange den }
    requires positive { pos 0 <ℤ den }
    ensures { value_of result ≡ lowest num den }
{
    reduced(num, den, shared(num, den))
}

// `num / den` in lowest terms, from their greatest common divisor.
fn reduced(num: i128, den: i128, divisor: i128) -> Frac
    requires num_fits { InRange num }
    requires den_fits { InRange den }
    requires positive { pos 0 <ℤ den }
    requires divisor_fits { InRange divisor }
    requires greatest { divisor ≡ common num den }
    ensures { value_of result ≡ lowest num den }
{
    lowest_pair(quotient(num, divisor), quotient(den, divisor))
}

// `a + b` at denominators 1.
fn whole_sum(a: Frac, b: Frac) -> Result<Frac, TooWide>
    requires left { a.den ≡ pos 1 }
    requires right { b.den ≡ pos 1 }
    ensures refused { is_ok result ≡ all_fit (sum_formed (value_of a) (value_of b)) }
    ensures value { IfOk result (λ sum. value_of sum ≡ plus (value_of a) (value_of b)) }
{
    Ok(lowest_pair(total(a.num, b.num)?, 1))
}

// `a + b`, with the greatest common divisor of the denominators.
fn wide_sum(a: Frac, b: Frac, divisor: i128) -> Result<Frac, TooWide>
    requires greatest { divisor ≡ common a.den b.den }
    requires range { InRange divisor }
    requires positive { pos 0 <ℤ divisor }
    ensures refused { is_ok result ≡ all_fit (sum_formed (value_of a) (value_of b)) }
    ensures value { IfOk result (λ sum. value_of sum ≡ plus (value_of a) (value_of b)) }
{
    let widening = quotient(b.den, divisor);
    let left = product(a.num, widening)?;
    let right = product(b.num, quotient(a.den, divisor))?;
    let num = total(left, right)?;
    let den = product(a.den, widening)?;
    // What divides the sum and a denominator divides both denominators.
    Ok(reduced(num, den, shared(num, divisor)))
}

// `a * b` at denominators 1.
fn whole_product(a: Frac, b: Frac) -> Result<Frac, TooWide>
    requires left { a.den ≡ pos 1 }
    requires right { b.den ≡ pos 1 }
    ensures refused { is_ok result ≡ all_fit (product_formed (value_of a) (value_of b)) }
    ensures value { IfOk result (λ all. value_of all ≡ times (value_of a) (value_of b)) }
{
    Ok(lowest_pair(product(a.num, b.num)?, 1))
}

// `a * b`, with the greatest common divisors of each numerator and the other denominator.
fn wide_product(a: Frac, b: Frac, first: i128, second: i128) -> Result<Frac, TooWide>
    requires first_greatest { first ≡ common a.num b.den }
    requires second_greatest { second ≡ common b.num a.den }
    requires first_range { InRange first }
    requires second_range { InRange second }
    requires first_positive { pos 0 <ℤ first }
    requires second_positive { pos 0 <ℤ second }
    ensures refused { is_ok result ≡ all_fit (product_formed (value_of a) (value_of b)) }
    ensures value { IfOk result (λ all. value_of all ≡ times (value_of a) (value_of b)) }
{
    let num = product(quotient(a.num, first), quotient(b.num, second))?;
    let den = product(quotient(a.den, second), quotient(b.den, first))?;
    Ok(lowest_pair(num, den))
}

// -a.
fn negative(a: Frac) -> Frac
    ensures { value_of result ≡ negated (value_of a) }
{
    lowest_pair(opposite(a.num), a.den)
}

// `1 / a`.
fn inverse(a: Frac) -> Frac
    requires { a.num ≢ pos 0 }
    ensures { value_of result ≡ reciprocal (value_of a) }
{
    if a.num < 0 {
        lowest_pair(opposite(a.den), opposite(a.num))
    } else {
        lowest_pair(a.den, a.num)
    }
}

// The fraction of two numbers that are in lowest terms.
fn lowest_pair(num: i128, den: i128) -> Frac
    requires num_fits { InRange num }
    requires den_fits { InRange den }
    requires lowest { IsLowest (pair num den) }
    ensures { value_of result ≡ pair num den }
{
    Frac { num, den }
}

// The greatest common divisor of `a` and a denominator `b`.
fn shared(a: i128, b: i128) -> i128
    requires left { InRange a }
    requires right { InRange b }
    requires positive { pos 0 <ℤ b }
    ensures value { result ≡ common a b }
    ensures range { InRange result }
    ensures positive { pos 0 <ℤ result }
{
    if b == 1 { 1 } else { gcd(a, b) }
}

// `n / divisor`. Most divisors are 1.
fn quotient(n: i128, divisor: i128) -> i128
    requires fits { InRange n }
    requires divisor_fits { InRange divisor }
    requires positive { pos 0 <ℤ divisor }
    ensures value { result ≡ int_div n divisor }
    ensures range { InRange result }
{
    if divisor == 1 { n } else { n / divisor }
}

// -n.
fn opposite(n: i128) -> i128
    requires { InRange n }
    ensures value { result ≡ neg_ℤ n }
    ensures range { InRange result }
{
    -n
}
