// The first digits of a number, as many as fit, and what is left of it.
ghost use Rattle.std.specs.Prelude.{◌≡◌, ◌+◌, ◌-◌, ◌*◌, ◌^◌, ◌<◌, ◌≤◌, ℕ, length};
ghost use Rattle.scaled_decimals.specs.Digits.{AreDigits, continued};
ghost use Rattle.scaled_decimals.specs.PartsReading.{IsHead};

// The first digits of a number, how many digits are left out after them, and whether one of those isn't 0.
#[derive(Clone, Copy, Drop)]
pub struct Head {
    pub value: u128,
    pub dropped: u128,
    pub rest: bool,
}

// Digits are kept while the number that they write is below 10^36.
const ENOUGH: u128 = 1_000_000_000_000_000_000_000_000_000_000_000_000;

// No digits.
pub const EMPTY: Head = Head {
    value: 0,
    dropped: 0,
    rest: false,
};

// The first digits with further digits after them.
pub fn extended(head: Head, digits: &[u8]) -> Head
    requires small { head.value < 10 ^ 37 }
    requires few { head.dropped < 2 ^ 65 }
    requires digits { AreDigits digits.now }
    ensures head { (m : ℕ) → IsHead head m → IsHead result (continued m digits.now) }
    ensures small { result.value < 10 ^ 37 }
    ensures few { result.dropped ≤ head.dropped + length digits.now }
{
    let mut longer = head;
    for digit in digits {
        longer = with_digit(longer, *digit - b'0');
    }
    longer
}

// The first digits with one digit after them.
fn with_digit(head: Head, digit: u8) -> Head
    requires small { head.value < 10 ^ 37 }
    requires few { head.dropped < 2 ^ 100 }
    requires digit { digit < 10 }
    ensures head { (m : ℕ) → IsHead head m → IsHead result (m * 10 + digit) }
    ensures small { result.value < 10 ^ 37 }
    ensures few { result.dropped ≤ head.dropped + 1 }
{
    if head.dropped == 0 && head.value < ENOUGH {
        Head {
            value: head.value * 10 + u128::from(digit),
            dropped: 0,
            rest: false,
        }
    } else {
        Head {
            value: head.value,
            dropped: head.dropped + 1,
            rest: head.rest || digit != 0,
        }
    }
}
