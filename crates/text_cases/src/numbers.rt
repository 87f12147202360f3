//! Numbers read and printed.

use crate::arguments::two_parts;
use exact_num::ratio;
use scaled_decimals::{exact_value, push_frac, push_places, read_decimal};
use std::alloc::{AllocError, Global};

/// `number|TEXT`: the number that a data file's text is, in billionths, and whether that is rounded.
pub fn number_told(alloc: Global, text: &[u8]) -> Result<String, AllocError> {
    match read_decimal(text) {
        Ok((value, true)) => format!(in alloc; "{value} rounded"),
        Ok((value, false)) => format!(in alloc; "{value}"),
        Err(fault) => format!(in alloc; "{fault:?}"),
    }
}

/// `value|TEXT`: the value that a text of a plan's file is.
pub fn value_told(alloc: Global, text: &[u8]) -> Result<String, AllocError> {
    match exact_value(text) {
        Ok(value) => format!(in alloc; "{}/{}", value.num, value.den),
        Err(fault) => format!(in alloc; "{fault:?}"),
    }
}

/// `printed|NUM|DEN`: the fraction as it is printed, and with six decimal places.
pub fn printed_told(alloc: Global, text: &str) -> Result<String, AllocError> {
    let Some((num, den)) = two_parts(text) else {
        return String::from_str(alloc, "no fraction");
    };
    let value = ratio(num, den);
    let mut out = Vec::new(alloc);
    push_frac(&mut out, value)?;
    out.push(b' ')?;
    push_places(&mut out, value)?;
    String::from_str(
        alloc,
        std::str::from_utf8(out.as_slice()).unwrap_or("not UTF-8"),
    )
}
