//! Discount, salvage and recovery factors, with 6 decimal places and with 9. Rates are in billionths.

ghost use Rattle.std.specs.Prelude.{◌≤ℤ◌, pos, IfSome};

use crate::arguments::next_number;
use discount_factors::{Factors, recovery};
use std::alloc::{AllocError, Global};

/// The greatest rate, 1.
const GREATEST_RATE: i128 = 1_000_000_000;

/// A rate that factors have, and a number of years.
fn rate_and_years(text: &str) -> Option<(i128, u16)>
    ensures least { IfSome result (λ found. pos 0 ≤ℤ found.0) }
    ensures most { IfSome result (λ found. found.0 ≤ℤ pos 1000000000) }
{
    let (rate, rest) = next_number(text);
    let (years, _) = next_number(rest);
    let rate = rate?;
    let years = u16::try_from(years?).ok()?;
    if 0 <= rate && rate <= GREATEST_RATE {
        Some((rate, years))
    } else {
        None
    }
}

/// `years|RATE|N`: the capital and the operating factor of N years, with 6 places and with 9, and what 1 is written as.
pub fn years_told(alloc: Global, text: &str) -> Result<String, AllocError> {
    let Some((rate, n)) = rate_and_years(text) else {
        return String::from_str(alloc, "no such rate");
    };
    let six = Factors::new(alloc, rate, n, 0, 6)?;
    let nine = Factors::new(alloc, rate, n, 0, 9)?;
    format!(in alloc;
        "{} {} of {}, {} {} of {}",
        six.capital(n),
        six.operating(n),
        six.unit(),
        nine.capital(n),
        nine.operating(n),
        nine.unit()
    )
}

/// `salvage|METHOD|AGE|RATE|LIFE`: what is left after AGE of LIFE years by DepreciationMethod 1 or 2, with 6 places and with 9.
pub fn salvage_told(alloc: Global, text: &str) -> Result<String, AllocError> {
    let (method, rest) = next_number(text);
    let (age, rest) = next_number(rest);
    let (Some(method), Some(age), Some((rate, life))) = (
        method.and_then(|method| u8::try_from(method).ok()),
        age.and_then(|age| u16::try_from(age).ok()),
        rate_and_years(rest),
    ) else {
        return String::from_str(alloc, "no such numbers");
    };
    if method < 1 || method > 2 || age < 1 || age >= life {
        return String::from_str(alloc, "no such age or method");
    }
    let six = Factors::new(alloc, rate, 0, life, 6)?;
    let nine = Factors::new(alloc, rate, 0, life, 9)?;
    format!(in alloc;
        "{} {}",
        six.salvage(method, life, age),
        nine.salvage(method, life, age)
    )
}

/// `spread|RATE|LIFE`: the recovery factor and the annuity of LIFE years, with 6 places and with 9.
pub fn spread_told(alloc: Global, text: &str) -> Result<String, AllocError> {
    let Some((rate, life)) = rate_and_years(text) else {
        return String::from_str(alloc, "no such rate");
    };
    if life < 1 {
        return String::from_str(alloc, "no life");
    }
    let six = Factors::new(alloc, rate, 0, life, 6)?;
    let nine = Factors::new(alloc, rate, 0, life, 9)?;
    format!(in alloc;
        "{} {}, {} {}",
        recovery(rate, life, 6),
        six.annuity(life),
        recovery(rate, life, 9),
        nine.annuity(life)
    )
}
