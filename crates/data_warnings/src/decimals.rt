//! Numbers of billionths as exact decimals.

ghost use Rattle.std.specs.Prelude.{◌≡◌, ◌++◌, ◌<◌, OnOk};
ghost use Rattle.data_warnings.specs.Decimals.{after_first, billion, decimal_text, first_digit, part_digits, part_text, sign_text, size_text};

use itoa::Buffer;
use std::alloc::AllocError;

/// One, in billionths.
const BILLION: u128 = 1_000_000_000;

/// How many decimal places there are.
const PLACES: u8 = 9;

/// Appends a number of billionths as a decimal, without zeros at the end.
#[tactic(auto, unfolding(crate::specs::Decimals::decimal_text))]
pub(crate) fn push_decimal(out: &mut Vec<u8>, value: i128) -> Result<(), AllocError>
    ensures { OnOk result (out.new.items ≡ out.old.items ++ decimal_text value) }
{
    out.extend_from_slice(sign_text(value))?;
    push_size(out, value.unsigned_abs())
}

// `-` before a number below 0.
fn sign_text(value: i128) -> &'static [u8]
    ensures { result.now ≡ sign_text value }
{
    if value < 0 { b"-" } else { b"" }
}

// Appends a number without its sign.
fn push_size(out: &mut Vec<u8>, size: u128) -> Result<(), AllocError>
    ensures { OnOk result (out.new.items ≡ out.old.items ++ size_text size) }
{
    let mut whole = Buffer::new();
    out.extend_from_slice(whole.format(size / BILLION).as_bytes())?;
    push_part(out, (size % BILLION) as u32)
}

// Appends a part of one after the point, or nothing.
fn push_part(out: &mut Vec<u8>, part: u32) -> Result<(), AllocError>
    requires { part < billion }
    ensures { OnOk result (out.new.items ≡ out.old.items ++ part_text part) }
{
    if part == 0 {
        return Ok(());
    }
    out.extend_from_slice(b".")?;
    push_digits(out, part)
}

// Appends the digits of a part until nothing is left.
fn push_digits(out: &mut Vec<u8>, part: u32) -> Result<(), AllocError>
    requires { part < billion }
    ensures { OnOk result (out.new.items ≡ out.old.items ++ part_digits 9 part) }
{
    let mut left = u64::from(part);
    for place in 0..PLACES {
        if left == 0 {
            return Ok(());
        }
        out.push(first_digit(left))?;
        left = after_first(left);
    }
    Ok(())
}

// The first digit after the point.
fn first_digit(part: u64) -> u8
    requires { part < billion }
    ensures { result ≡ first_digit part }
{
    b'0' + (part * 10 / 1_000_000_000) as u8
}

// Ten times the part, without that digit.
fn after_first(part: u64) -> u64
    requires { part < billion }
    ensures left { result ≡ after_first part }
    ensures below { result < billion }
{
    part * 10 % 1_000_000_000
}
