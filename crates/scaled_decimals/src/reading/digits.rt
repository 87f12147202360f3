// Runs of decimal digits, and the numbers that they write.
ghost use Rattle.std.specs.Prelude.{◌≡◌, ℕ, List, ◌∷◌, MatchOption, ◌+◌, ◌-◌, ◌*◌, ◌^◌, ◌≤◌, ◌↔◌, IsTrue, min, length};
ghost use Rattle.std.specs.Char.{is_ascii_digit};
ghost use Rattle.std.specs.List.{prefix_len};
ghost use Rattle.scaled_decimals.specs.Digits.{IsNumeral, continued};
ghost use Rattle.scaled_decimals.specs.PartsReading.{digits_in_front, after_digits};

// The first number that doesn't fit.
pub const CAP: u128 = 1 << 127;

// How many digits stand in front.
pub fn digit_count(text: &[u8]) -> usize
    ensures { result ≡ prefix_len is_ascii_digit text.now }
{
    for (i, byte) in text.iter().enumerate() {
        if !byte.is_ascii_digit() {
            return i;
        }
    }
    text.len()
}

// The digits in front, and what follows them.
pub fn split_digits(text: &[u8]) -> (&[u8], &[u8])
    ensures digits { result.0.now ≡ digits_in_front text.now }
    ensures rest { result.1.now ≡ after_digits text.now }
{
    text.split_at(digit_count(text))
}

// What follows this byte; none where another stands in front.
pub fn following(text: &[u8], byte: u8) -> Option<&[u8]>
    ensures { MatchOption result ((rest : List ℕ) → text.now ≡ byte ∷ rest → ⊥) (λ rest. text.now ≡ byte ∷ rest.now) }
{
    if text.is_empty() {
        return None;
    }
    if text[0] == byte {
        Some(&text[1..])
    } else {
        None
    }
}

// The digits that follow this byte; none where anything else stands there.
pub fn numeral_after(text: &[u8], byte: u8) -> Option<&[u8]>
    ensures { MatchOption result ((ds : List ℕ) → IsNumeral ds → text.now ≡ byte ∷ ds → ⊥) (λ ds. IsNumeral ds.now × (text.now ≡ byte ∷ ds.now)) }
{
    let digits = following(text, byte)?;
    if is_numeral(digits) {
        Some(digits)
    } else {
        None
    }
}

// Whether the text is one digit or more, and nothing else.
pub fn is_numeral(text: &[u8]) -> bool
    ensures { IsTrue result ↔ IsNumeral text.now }
{
    !text.is_empty() && digit_count(text) == text.len()
}

// The number that the digits write after those of `so_far`, or 2^127 where it is larger.
pub fn capped_number(so_far: u128, digits: &[u8]) -> u128
    requires { so_far ≤ 2 ^ 127 }
    ensures { result ≡ min (continued so_far digits.now) (2 ^ 127) }
{
    let mut number = so_far;
    for digit in digits {
        number = with_digit(number, *digit);
    }
    number
}

// The number that the digit writes after those of `number`, or 2^127 where it is larger.
fn with_digit(number: u128, digit: u8) -> u128
    requires { number ≤ 2 ^ 127 }
    ensures { result ≡ min (number * 10 + (digit - 48)) (2 ^ 127) }
{
    if number > CAP / 10 {
        CAP
    } else {
        (number * 10 + u128::from(digit.saturating_sub(b'0'))).min(CAP)
    }
}

// 10 to this power, or 2^127 where that is larger.
pub fn capped_power(power: usize) -> u128
    ensures { result ≡ min (10 ^ power) (2 ^ 127) }
{
    if power > 38 {
        CAP
    } else {
        power_of_ten(power as u128)
    }
}

// 10 to this power.
pub fn power_of_ten(power: u128) -> u128
    requires { power ≤ 38 }
    ensures { result ≡ 10 ^ power }
{
    10u128.pow(power as u32)
}
