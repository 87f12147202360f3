//! What a case gives to a call.

ghost use Rattle.std.specs.Prelude.{◌≢◌, ◌<◌, pos, IfSome};
ghost use Rattle.exact_num.specs.Range.{InRange};

use exact_num::fits;
use std::alloc::{AllocError, Global};

/// The bytes of a text in which `\t`, `\n`, `\r` and `\\` stand for these bytes, `\s` for a space, and `\x` for the byte of the two
/// hexadecimal digits after it.
pub fn unescaped(alloc: Global, text: &str) -> Result<Vec<u8>, AllocError> {
    let mut bytes = Vec::new(alloc);
    let mut rest = text.as_bytes();
    for _ in 0..text.len() {
        let (byte, after) = next_byte(rest);
        match byte {
            Some(byte) => bytes.push(byte)?,
            None => return Ok(bytes),
        }
        rest = after;
    }
    Ok(bytes)
}

/// The first byte that stands there, and the text after what stands for it.
fn next_byte(text: &[u8]) -> (Option<u8>, &[u8]) {
    match text {
        [b'\\', b'x', high, low, after @ ..] => (Some(digit(*high) << 4 | digit(*low)), after),
        [b'\\', b't', after @ ..] => (Some(b'\t'), after),
        [b'\\', b'n', after @ ..] => (Some(b'\n'), after),
        [b'\\', b'r', after @ ..] => (Some(b'\r'), after),
        [b'\\', b's', after @ ..] => (Some(b' '), after),
        [b'\\', b'\\', after @ ..] => (Some(b'\\'), after),
        [byte, after @ ..] => (Some(*byte), after),
        [] => (None, text),
    }
}

/// The value of a hexadecimal digit, 0 of any other byte.
fn digit(byte: u8) -> u8 {
    match byte {
        b'0'..=b'9' => byte - b'0',
        b'a'..=b'f' => byte - b'a' + 10,
        b'A'..=b'F' => byte - b'A' + 10,
        _ => 0,
    }
}

/// The number before the first `|`, and the text after it.
pub fn next_number(text: &str) -> (Option<i128>, &str) {
    let (number, rest) = text.split_once('|').unwrap_or((text, ""));
    (number.parse::<i128>().ok(), rest)
}

/// Two numbers with `|` between.
pub fn two_numbers(text: &str) -> Option<(i128, i128)> {
    let (first, rest) = next_number(text);
    let (second, _) = next_number(rest);
    Some((first?, second?))
}

/// The numbers of a fraction: both fit, and the second isn't 0.
pub fn two_parts(text: &str) -> Option<(i128, i128)>
    ensures num { IfSome result (λ parts. InRange parts.0) }
    ensures den { IfSome result (λ parts. InRange parts.1) }
    ensures nonzero { IfSome result (λ parts. parts.1 ≢ pos 0) }
{
    let (num, den) = two_numbers(text)?;
    if fits(num) && fits(den) && den != 0 {
        Some((num, den))
    } else {
        None
    }
}

/// Two numbers of which each fits.
pub fn two_fitting(text: &str) -> Option<(i128, i128)>
    ensures first { IfSome result (λ parts. InRange parts.0) }
    ensures second { IfSome result (λ parts. InRange parts.1) }
{
    let (first, second) = two_numbers(text)?;
    if fits(first) && fits(second) {
        Some((first, second))
    } else {
        None
    }
}
