// The printed forms of fractions: as a fraction, and rounded to six decimal places.
ghost use Rattle.std.specs.Prelude.{◌≡◌, ◌+◌, ◌*◌, ◌%◌, ◌<◌, ◌≤◌, ◌++◌, length, codes, pos, OnOk, OnErr};
ghost use Rattle.exact_num.specs.Rational.{signed_by};
ghost use Rattle.exact_num.specs.Value.{value_of};
ghost use Rattle.scaled_decimals.specs.PrintedFraction.{fraction_text};
ghost use Rattle.scaled_decimals.specs.PrintedPlaces.{places_text, sign_of, six_digits};
ghost use Rattle.scaled_decimals.specs.Rounding.{nearest};

use exact_num::Frac;
use itoa::Buffer;
use std::alloc::AllocError;

mod laws;

pub use laws::{fraction_laws, places_laws};

// A number of millionths, as its whole part and the millionths beyond it.
#[derive(Clone, Copy)]
struct Rounded {
    whole: u128,
    millionths: u32,
}

/// Appends `v` as `n` where its denominator is 1, else as `n/d`, in decimal digits and with `-` before a negative numerator.
/// Where memory runs out, `out` stays as it was.
pub fn push_frac(out: &mut Vec<u8>, v: Frac) -> Result<(), AllocError>
    ensures text { OnOk result (out.new.items ≡ out.old.items ++ fraction_text (value_of v)) }
    ensures unchanged { OnErr result (out.new.items ≡ out.old.items) }
{
    let mut num = Buffer::new();
    let mut den = Buffer::new();
    if v.den == 1 {
        out.extend_from_slice(num.format(v.num).as_bytes())
    } else {
        push_pieces(
            out,
            num.format(v.num).as_bytes(),
            b"/",
            den.format(v.den).as_bytes(),
        )
    }
}

/// Appends `v` rounded to six decimal places, ties away from zero, as `150.165050`. There is a `-` only where the rounded value
/// is below 0. Where memory runs out, `out` stays as it was.
pub fn push_places(out: &mut Vec<u8>, v: Frac) -> Result<(), AllocError>
    ensures text { OnOk result (out.new.items ≡ out.old.items ++ places_text (value_of v)) }
    ensures unchanged { OnErr result (out.new.items ≡ out.old.items) }
{
    let rounded = round(v.num.unsigned_abs(), v.den.unsigned_abs());
    let mut whole = Buffer::new();
    push_pieces(
        out,
        sign(v.num, rounded),
        whole.format(rounded.whole).as_bytes(),
        &point_and_digits(rounded.millionths),
    )
}

// Appends the three pieces, or leaves `out` as it was.
fn push_pieces(
    out: &mut Vec<u8>,
    first: &[u8],
    second: &[u8],
    third: &[u8],
) -> Result<(), AllocError>
    requires first_short { length first.now ≤ 40 }
    requires second_short { length second.now ≤ 40 }
    requires third_short { length third.now ≤ 40 }
    ensures text { OnOk result (out.new.items ≡ out.old.items ++ (first.now ++ second.now ++ third.now)) }
    ensures unchanged { OnErr result (out.new.items ≡ out.old.items) }
{
    out.reserve(first.len() + second.len() + third.len())?;
    out.extend_from_slice(first)?;
    out.extend_from_slice(second)?;
    out.extend_from_slice(third)
}

// The whole number of millionths nearest to `num / den`, the greater one of two that are as near.
fn round(num: u128, den: u128) -> Rounded
    requires positive { 0 < den }
    ensures value { 1000000 * result.whole + result.millionths ≡ nearest (1000000 * num) den }
    ensures below { result.millionths < 1000000 }
{
    let whole = num / den;
    let millionths = round_part(num % den, den);
    if millionths == 1_000_000 {
        Rounded {
            whole: whole + 1,
            millionths: 0,
        }
    } else {
        Rounded { whole, millionths }
    }
}

/// The whole number of millionths nearest to `part / den`, a number below 1, and the greater one of two that are as near. It may be
/// a million.
pub fn round_part(part: u128, den: u128) -> u32
    requires { part < den }
    ensures value { result ≡ nearest (1000000 * part) den }
    ensures most { result ≤ 1000000 }
{
    let mut count = 0;
    let mut rest = part;
    for _place in 0..6u32 {
        let (digit, left) = next_digit(rest, den);
        count = 10 * count + digit;
        rest = left;
    }
    if den - rest <= rest { count + 1 } else { count }
}

// How often `den` goes into ten times `rest`, and what is left. Ten times `rest` may have more than 128 bits, so it is made by
// doubling and adding.
fn next_digit(rest: u128, den: u128) -> (u32, u128)
    requires { rest < den }
    ensures value { result.0 * den + result.1 ≡ 10 * rest }
    ensures below { result.1 < den }
    ensures digit { result.0 < 10 }
{
    let (carry_two, two) = sum(rest, rest, den);
    let (carry_four, four) = sum(two, two, den);
    let (carry_five, five) = sum(four, rest, den);
    let (carry_ten, ten) = sum(five, five, den);
    (
        2 * (2 * carry_two + carry_four + carry_five) + carry_ten,
        ten,
    )
}

// How often `den` goes into `a + b`, and what is left.
fn sum(a: u128, b: u128, den: u128) -> (u32, u128)
    requires a_below { a < den }
    requires b_below { b < den }
    ensures value { result.0 * den + result.1 ≡ a + b }
    ensures below { result.1 < den }
    ensures once { result.0 ≤ 1 }
{
    let room = den - b;
    if a < room { (0, a + b) } else { (1, a - room) }
}

// `-` where `num` is negative and the rounded number isn't 0, else nothing.
fn sign(num: i128, rounded: Rounded) -> &'static [u8]
    ensures value { result.now ≡ sign_of (signed_by num (pos (1000000 * rounded.whole + rounded.millionths))) }
    ensures short { length result.now ≤ 1 }
{
    if num < 0 && (rounded.whole != 0 || rounded.millionths != 0) {
        b"-"
    } else {
        b""
    }
}

// A point and six digits.
fn point_and_digits(millionths: u32) -> [u8; 7]
    ensures { result ≡ codes "." ++ six_digits millionths }
{
    [
        b'.',
        last_digit(millionths / 100_000),
        last_digit(millionths / 10_000),
        last_digit(millionths / 1_000),
        last_digit(millionths / 100),
        last_digit(millionths / 10),
        last_digit(millionths),
    ]
}

// The last decimal digit of `n`.
fn last_digit(n: u32) -> u8
    ensures { result ≡ 48 + n % 10 }
{
    b'0' + (n % 10) as u8
}
