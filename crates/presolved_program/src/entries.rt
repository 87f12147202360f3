//! Entries of rows and columns.

ghost use Rattle.std.specs.Prelude.{◌≡◌, IfOk};
ghost use Rattle.exact_num.specs.Range.{InRange};
ghost use Rattle.exact_num.specs.Rational.{divided, whole};
ghost use Rattle.exact_num.specs.Value.{value_of};

use crate::stop::Stop;
use exact_num::{Frac, add, fits, mul, sub};
use row_core::fraction;

/// A number in a row, with the place of its column; or in a column, with that of its row. The number isn't 0.
#[derive(Clone, Copy)]
pub struct Entry {
    pub at: usize,
    pub number: i128,
    pub ghost in_range: { InRange number },
}

impl Entry {
    /// The entry with this number, if it fits.
    pub fn new(at: usize, number: i128) -> Result<Entry, Stop>
        ensures place { IfOk result (λ entry. entry.at ≡ at) }
        ensures number { IfOk result (λ entry. entry.number ≡ number) }
    {
        if fits(number) {
            Ok(Entry { at, number })
        } else {
            Err(Stop::GivenUp)
        }
    }

    /// The number as a fraction.
    pub fn value(self) -> Frac
        ensures { value_of result ≡ whole self.number }
    {
        fraction(self.number)
    }
}

/// A whole number as a fraction, if it fits.
pub fn whole(number: i128) -> Result<Frac, Stop>
    ensures { IfOk result (λ value. value_of value ≡ whole number) }
{
    if fits(number) {
        Ok(fraction(number))
    } else {
        Err(Stop::GivenUp)
    }
}

/// A sum and a product.
pub fn plus_product(sum: Frac, a: Frac, b: Frac) -> Result<Frac, Stop> {
    if a.num == 0 || b.num == 0 {
        return Ok(sum);
    }
    let product = mul(a, b)?;
    Ok(add(sum, product)?)
}

/// A sum less a product.
pub fn less_product(sum: Frac, a: Frac, b: Frac) -> Result<Frac, Stop> {
    if a.num == 0 || b.num == 0 {
        return Ok(sum);
    }
    let product = mul(a, b)?;
    Ok(sub(sum, product)?)
}

/// A quotient; by 0 there is none.
pub fn quotient(a: Frac, b: Frac) -> Result<Frac, Stop>
    ensures { IfOk result (λ part. value_of part ≡ divided (value_of a) (value_of b)) }
{
    if b.num == 0 {
        return Err(Stop::GivenUp);
    }
    Ok(exact_num::div(a, b)?)
}
