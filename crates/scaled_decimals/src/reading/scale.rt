// A number times a power of ten, as the nearest whole number.
ghost use Rattle.std.specs.Prelude.{◌≡◌, ◌+◌, ◌*◌, ◌^◌, ◌<◌, ◌≤◌, ℕ, not, nat_lt, ◌==◌, ◌&&◌, ◌||◌};
ghost use Rattle.exact_num.specs.Range.{InRange};
ghost use Rattle.scaled_decimals.specs.DecimalReading.{read_ratio, with_sign};
ghost use Rattle.scaled_decimals.specs.PartsReading.{IsHead, IsKept};

use crate::reading::DecFault;
use crate::reading::digits::power_of_ten;
use crate::reading::head::Head;

// The greatest number of billionths, 10^24.
const LIMIT: u128 = 1_000_000_000_000_000_000_000_000;

// The number times 10^up and over 10^down.
pub fn scaled(negative: bool, head: Head, up: u128, down: u128) -> Result<(i128, bool), DecFault>
    requires small { head.value < 10 ^ 37 }
    requires few { head.dropped < 2 ^ 66 }
    requires up { up < 2 ^ 127 + 2 ^ 66 }
    requires down { down < 2 ^ 127 + 2 ^ 66 }
    requires one_long { 2 ^ 66 ≤ up → down < 2 ^ 66 }
    ensures { (m a b : ℕ) → IsHead head m → IsKept (2 ^ 99) a up → IsKept (2 ^ 99) b down → result ≡ read_ratio negative (m * 10 ^ a) (10 ^ b) }
{
    let up = up + head.dropped;
    if up >= down {
        raised(negative, head, up - down)
    } else {
        lowered(negative, head, down - up)
    }
}

// The first digits times 10^up: where digits were left out they are above every limit already.
fn raised(negative: bool, head: Head, up: u128) -> Result<(i128, bool), DecFault>
    requires small { head.value < 10 ^ 37 }
    ensures { (m a : ℕ) → IsHead head m → IsKept 40 a up → result ≡ read_ratio negative (m * 10 ^ a) (10 ^ head.dropped) }
{
    if head.value == 0 {
        Ok((0, false))
    } else if up > 24 {
        Err(DecFault::TooLarge)
    } else if head.value > power_of_ten(24 - up) {
        Err(DecFault::TooLarge)
    } else {
        Ok((signed(negative, head.value * power_of_ten(up)), false))
    }
}

// The first digits over 10^down. They are below 10^37, so that over 10^39 they are below one half.
fn lowered(negative: bool, head: Head, down: u128) -> Result<(i128, bool), DecFault>
    requires small { head.value < 10 ^ 37 }
    requires positive { 0 < down }
    ensures { (m b : ℕ) → IsHead head m → IsKept 40 b down → result ≡ read_ratio negative m (10 ^ head.dropped * 10 ^ b) }
{
    if down > 38 {
        Ok((0, head.value != 0 || head.rest))
    } else {
        divided(negative, head, power_of_ten(down))
    }
}

// The first digits over an even number. What was left out is below 1, so that it decides no half.
fn divided(negative: bool, head: Head, divisor: u128) -> Result<(i128, bool), DecFault>
    requires small { head.value < 10 ^ 37 }
    requires divisor { divisor ≤ 10 ^ 38 }
    requires positive { 0 < divisor }
    ensures { (m half : ℕ) → IsHead head m → divisor ≡ 2 * half → result ≡ read_ratio negative m (10 ^ head.dropped * divisor) }
{
    let quotient = head.value / divisor;
    let remainder = head.value % divisor;
    let exact = is_zero(remainder, head.rest);
    if is_above(quotient, exact) {
        Err(DecFault::TooLarge)
    } else if 2 * remainder >= divisor {
        Ok((signed(negative, quotient + 1), !exact))
    } else {
        Ok((signed(negative, quotient), !exact))
    }
}

// Whether nothing is left: no remainder, and no rest after it.
fn is_zero(remainder: u128, rest: bool) -> bool
    ensures { result ≡ ((remainder == 0) && not rest) }
{
    remainder == 0 && !rest
}

// Whether a number with this whole part is above the limit.
fn is_above(whole: u128, exact: bool) -> bool
    ensures { result ≡ (nat_lt (10 ^ 24) whole || ((whole == 10 ^ 24) && not exact)) }
{
    whole > LIMIT || (whole == LIMIT && !exact)
}

// `n`, or `-n`.
pub fn signed(negative: bool, n: u128) -> i128
    requires { n < 2 ^ 127 }
    ensures value { result ≡ with_sign negative n }
    ensures range { InRange result }
{
    if negative { -(n as i128) } else { n as i128 }
}
