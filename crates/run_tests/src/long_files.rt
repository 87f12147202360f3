//! Files of 64 MiB, and of a byte more.

use crate::calls::{MPS, SETS, assert_ends, call};
use feed_tests::{base_text, section};
use std::test::Fail;

/// 64 MiB.
const MOST: usize = 67_108_864;

#[test]
fn a_file_of_64_mib_is_read_and_one_byte_more_is_too_long(rt: HostRuntime) -> Result<(), Fail> {
    let base = section(rt.alloc(), SETS, "")?;
    let mut text = Vec::from_slice(rt.alloc(), base.as_bytes())?;
    text.resize(MOST, b' ')?;
    let ending = call(rt.alloc(), MPS, text.as_slice())?;
    assert_ends(&rt, &ending, 0, &base_text(rt.alloc())?);
    text.push(b' ')?;
    let ending = call(rt.alloc(), MPS, text.as_slice())?;
    assert_ends(&rt, &ending, 4, "refused too long file 1\n");
    Ok(())
}
