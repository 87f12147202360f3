// Numbers in whole billionths and exact fractions, read from their texts.
ghost use Rattle.std.specs.Prelude.{◌≡◌, ◌<◌, ◌≤◌, ◌^◌, ℕ, IfOk, min, unsigned_abs};
ghost use Rattle.scaled_decimals.specs.DecimalReading.{Reads, decimal_of};
ghost use Rattle.scaled_decimals.specs.Digits.{AreDigits};
ghost use Rattle.scaled_decimals.specs.FractionReading.{ReadsValue, AgreesWith};
ghost use Rattle.scaled_decimals.specs.FractionText.{FractionText, Form, SpellsValue, IsFormed, above_of, below_of};
ghost use Rattle.scaled_decimals.specs.NumberReading.{decimal_in};
ghost use Rattle.scaled_decimals.specs.NumberText.{NumberText, Spells};
ghost use Rattle.scaled_decimals.specs.PartsReading.{AreParts, form_of};

mod digits;
mod head;
mod laws;
mod parts;
mod scale;
mod shape;

use digits::{capped_number, capped_power};
use exact_num::{Frac, ratio};
use head::{EMPTY, extended};
pub use laws::{rounding_laws, spelling_laws};
use parts::{Parts, parts_of, split_minus};
use scale::{scaled, signed};
use shape::{Shape, shape_of};

/// Why a text gives no number.
#[derive(Clone, Copy, Debug, PartialEq, Eq)]
pub enum DecFault {
    /// The text doesn't have the form of a number, or its denominator is 0.
    NotNumber,
    /// The number is out of the range that the call allows.
    TooLarge,
}

/// The number of `text` in billionths, and whether it was rounded: the nearest whole number of billionths, and of two that are
/// equally near the one farther from 0.
///
/// A number has an optional sign; then digits, or digits `.` digits, or `.` digits, or digits `.`; and then optionally `e` or `E`,
/// an optional sign and digits. `NotNumber` comes exactly where `text` is no such number, and `TooLarge` exactly where its exact
/// absolute value is above 10^15. The form is that of numbers in the data section of GNU MathProg. It takes no memory, and time in
/// proportion to the length of `text`.
pub fn read_decimal(text: &[u8]) -> Result<(i128, bool), DecFault>
    ensures answer { Reads text.now result }
    ensures read { result ≡ decimal_in text.now }
    ensures number { (p : NumberText) → Spells p text.now → result ≡ decimal_of p }
    ensures bound { IfOk result (λ read. unsigned_abs read.0 ≤ 10 ^ 24) }
{
    match parts_of(text) {
        None => Err(DecFault::NotNumber),
        Some(parts) => decimal(parts),
    }
}

/// The exact value of `text`: an optional `-`, and after it digits, or digits `/` digits, or digits `.` digits.
///
/// `NotNumber` comes exactly where `text` has none of these forms or its denominator is 0, and `TooLarge` exactly where it has one and
/// its numerator or denominator as written is above `2^127 - 1`. As written a decimal has its digits without the point over the power
/// of ten of its places. It takes no memory, and time in proportion to the length of `text`.
pub fn exact_value(text: &[u8]) -> Result<Frac, DecFault>
    ensures answer { ReadsValue text.now result }
    ensures value { (f : FractionText) → SpellsValue f text.now → AgreesWith f result }
{
    let (negative, unsigned) = split_minus(text);
    match shape_of(unsigned) {
        None => Err(DecFault::NotNumber),
        Some(shape) => {
            let below = below(shape);
            if below == 0 {
                Err(DecFault::NotNumber)
            } else {
                fraction(negative, above(shape), below)
            }
        }
    }
}

// The number that the parts write, in billionths. An exponent is read as 2^127 at most: from 2^99 on it outweighs the length of any
// text, so that what it gives no longer depends on it.
fn decimal(parts: Parts) -> Result<(i128, bool), DecFault>
    requires whole { AreDigits parts.whole.now }
    requires places { AreDigits parts.places.now }
    ensures { (p : NumberText) → AreParts parts.entry p → result ≡ decimal_of p }
{
    let head = extended(extended(EMPTY, parts.whole), parts.places);
    let power = capped_number(0, parts.power);
    let places = parts.places.len() as u128;
    if parts.lowering {
        scaled(parts.negative, head, 9, places + power)
    } else {
        scaled(parts.negative, head, 9 + power, places)
    }
}

// The numerator as written, or 2^127 where it is larger.
fn above(shape: Shape) -> u128
    ensures { result ≡ min (above_of (form_of shape.entry)) (2 ^ 127) }
{
    match shape {
        Shape::Whole(digits) => capped_number(0, digits),
        Shape::Quotient(above, _) => capped_number(0, above),
        Shape::Decimal(whole, places) => capped_number(capped_number(0, whole), places),
    }
}

// The denominator as written, or 2^127 where it is larger.
fn below(shape: Shape) -> u128
    ensures { result ≡ min (below_of (form_of shape.entry)) (2 ^ 127) }
{
    match shape {
        Shape::Whole(_) => 1,
        Shape::Quotient(_, below) => capped_number(0, below),
        Shape::Decimal(_, places) => capped_power(places.len()),
    }
}

// `above / below` with the sign, or `TooLarge` where one of them is 2^127.
fn fraction(negative: bool, above: u128, below: u128) -> Result<Frac, DecFault>
    requires { 0 < below }
    ensures { (f : FractionText) → f.negative ≡ negative → above ≡ min (above_of f.form) (2 ^ 127) → below ≡ min (below_of f.form) (2 ^ 127) → AgreesWith f result }
{
    if above >= digits::CAP || below >= digits::CAP {
        Err(DecFault::TooLarge)
    } else {
        Ok(ratio(signed(negative, above), below as i128))
    }
}
