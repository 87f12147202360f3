//! Fractions of 128-bit whole numbers.

use crate::arguments::{next_number, two_fitting, two_numbers, two_parts};
use exact_num::{
    Frac, TooWide, add, cmp_frac, difference, div, fits, gcd, mul, product, ratio, sub, total,
};
use scaled_decimals::exact_value;
use std::alloc::{AllocError, Global};

/// `ratio|NUM|DEN`: the fraction in lowest terms.
pub fn ratio_told(alloc: Global, text: &str) -> Result<String, AllocError> {
    match two_parts(text) {
        Some((num, den)) => {
            let value = ratio(num, den);
            format!(in alloc; "{}/{}", value.num, value.den)
        }
        None => String::from_str(alloc, "no fraction"),
    }
}

/// `fractions|A|B`: how A compares with B, and their sum, difference, product and quotient.
pub fn fractions_told(alloc: Global, text: &str) -> Result<String, AllocError> {
    let (left, right) = text.split_once('|').unwrap_or((text, ""));
    let (Ok(a), Ok(b)) = (exact_value(left.as_bytes()), exact_value(right.as_bytes())) else {
        return String::from_str(alloc, "no fractions");
    };
    let order = cmp_frac(a, b);
    let sum = outcome(alloc, add(a, b))?;
    let less = outcome(alloc, sub(a, b))?;
    let times = outcome(alloc, mul(a, b))?;
    let quotient = if b.num == 0 {
        String::from_str(alloc, "none")?
    } else {
        outcome(alloc, div(a, b))?
    };
    format!(in alloc; "{order:?} {sum} {less} {times} {quotient}")
}

/// A value, or that a number for it doesn't fit.
fn outcome(alloc: Global, value: Result<Frac, TooWide>) -> Result<String, AllocError> {
    match value {
        Ok(value) => format!(in alloc; "{}/{}", value.num, value.den),
        Err(TooWide) => String::from_str(alloc, "TooWide"),
    }
}

/// `divisor|A|B`: the greatest common divisor of A and B, and of B and A.
pub fn divisor_told(alloc: Global, text: &str) -> Result<String, AllocError> {
    match two_fitting(text) {
        Some((a, b)) => format!(in alloc; "{} {}", gcd(a, b), gcd(b, a)),
        None => String::from_str(alloc, "no such numbers"),
    }
}

/// `range|fits|N`, `range|total|A|B` and so on: whether a number fits, or the sum, difference or product of two.
pub fn range_told(alloc: Global, text: &str) -> Result<String, AllocError> {
    let (call, rest) = text.split_once('|').unwrap_or((text, ""));
    let (Some(first), _) = next_number(rest) else {
        return String::from_str(alloc, "no number");
    };
    if call == "fits" {
        return format!(in alloc; "{}", fits(first));
    }
    let Some((a, b)) = two_numbers(rest) else {
        return String::from_str(alloc, "no numbers");
    };
    if call == "total" {
        whole(alloc, total(a, b))
    } else if call == "difference" {
        whole(alloc, difference(a, b))
    } else {
        whole(alloc, product(a, b))
    }
}

/// A whole number, or that it doesn't fit.
fn whole(alloc: Global, value: Result<i128, TooWide>) -> Result<String, AllocError> {
    match value {
        Ok(value) => format!(in alloc; "{value}"),
        Err(TooWide) => String::from_str(alloc, "TooWide"),
    }
}
