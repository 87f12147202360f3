//! Long texts of numbers.

use exact_num::Frac;
use scaled_decimals::DecFault::TooLarge;
use scaled_decimals::{exact_value, read_decimal};
use std::test::Fail;

#[test]
fn long_texts_are_read_in_one_pass(rt: HostRuntime) -> Result<(), Fail> {
    // A digit, a million zeros after it, and the power of ten that takes them away.
    let zeros = vec![in rt.alloc(); b'0'; 1_000_000]?;
    let mut text = b"3".to_vec(rt.alloc())?;
    text.extend_from_slice(zeros.as_slice())?;
    assert_eq!(rt; read_decimal(text.as_slice()), Err(TooLarge));
    assert_eq!(rt;
        exact_value(text.as_slice()).map(|v: Frac| (v.num, v.den)),
        Err(TooLarge)
    );
    text.extend_from_slice(b"e-1000000")?;
    assert_eq!(rt; read_decimal(text.as_slice()), Ok((3_000_000_000, false)));
    Ok(())
}
