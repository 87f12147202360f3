//! Numbers of cases and of answers.

use exact_num::{Frac, cmp_frac, fits, ratio};
use std::alloc::{AllocError, Global};

/// A fraction of its text, as `-21/2` or `8`; 0 where the text is none, or where a number of it doesn't fit.
pub fn fraction_of(text: &str) -> Frac {
    let (top, bottom) = text.split_once('/').unwrap_or((text, "1"));
    let num = top.parse::<i128>().unwrap_or(0);
    let den = bottom.parse::<i128>().unwrap_or(1);
    if !fits(num) || !fits(den) || den <= 0 {
        return ratio(0, 1);
    }
    ratio(num, den)
}

/// A fraction of a text that may be missing, which is 0.
pub fn next_fraction(text: Option<&str>) -> Frac {
    fraction_of(text.unwrap_or("0"))
}

/// Fractions with blanks between.
pub fn fractions_of(alloc: Global, text: &str) -> Result<Vec<Frac>, AllocError> {
    let mut fractions = Vec::new(alloc);
    for word in text.split_ascii_whitespace() {
        fractions.push(fraction_of(word))?;
    }
    Ok(fractions)
}

/// The number, as a fraction unless it is whole.
pub fn shown(alloc: Global, value: Frac) -> Result<String, AllocError> {
    if value.den == 1 {
        format!(in alloc; "{}", value.num)
    } else {
        format!(in alloc; "{}/{}", value.num, value.den)
    }
}

/// That the value lies from one number to another, or else the value.
pub fn within(alloc: Global, value: Frac, from: &str, to: &str) -> Result<String, AllocError> {
    if cmp_frac(fraction_of(from), value).is_le() && cmp_frac(value, fraction_of(to)).is_le() {
        format!(in alloc; "from {from} to {to}")
    } else {
        shown(alloc, value)
    }
}
