//! Years: whole numbers from 1 to 9999, written without sign and without leading zeros.

ghost use Rattle.std.specs.Prelude.{◌≡◌, ◌≤◌, ◌&&◌, None, Some, nat_le, if◌then◌else◌, IfSome};
ghost use Rattle.std.specs.Char.{is_ascii_digit};
ghost use Rattle.std.specs.List.{list_all};
ghost use Rattle.model_sets.specs.Years.{IsYear, is_year, number_of};

/// The number that the digits write, unless it is above 9999.
fn number_of_digits(digits: &[u8]) -> Option<u16>
    ensures { result ≡ (if list_all is_ascii_digit digits.now && nat_le (number_of digits.now) 9999 then Some (number_of digits.now) else None) }
{
    let mut number = 0u32;
    for byte in digits {
        if !byte.is_ascii_digit() {
            return None;
        }
        number = number * 10 + u32::from(*byte - b'0');
        if number > 9999 {
            return None;
        }
    }
    Some(number as u16)
}

/// The year that the name spells.
pub(crate) fn year_of(name: &[u8]) -> Option<u16>
    ensures value { result ≡ (if is_year name.now then Some (number_of name.now) else None) }
    ensures year { IfSome result (λ n. IsYear name.now n) }
{
    if name.is_empty() || name[0] == b'0' {
        return None;
    }
    number_of_digits(name)
}
