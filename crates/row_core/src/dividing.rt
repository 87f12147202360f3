//! Division by the greatest common divisor of entries and a right side, whatever the entries are keyed by.

ghost use Rattle.std.specs.Prelude.{◌≡◌, pos, ◌<ℤ◌, true, ◌∷◌, int_div, unsigned_abs};
ghost use Rattle.exact_num.specs.Range.{InRange, all_fit};
ghost use Rattle.row_core.specs.Numbers.{numbers_of};
ghost use Rattle.row_core.specs.Written.{entries_divided, row_divisor};

use exact_num::gcd;

/// The greatest common divisor of a right side and the numbers of entries; 1 where all of them are 0.
pub fn divisor_of<K: Copy>(right: i128, entries: &[(K, i128)]) -> i128
    requires right_fits { InRange right }
    requires entries_fit { all_fit (numbers_of entries.now) ≡ true }
    ensures value { result ≡ pos (row_divisor (right ∷ numbers_of entries.now)) }
    ensures range { InRange result }
{
    let mut divisor = gcd(right, 0);
    for entry in entries {
        if divisor == 1 {
            return 1;
        }
        divisor = gcd(divisor, entry.1);
    }
    if divisor > 0 { divisor } else { 1 }
}

/// Divides each entry.
pub fn divide_all<K: Copy>(entries: &mut Vec<(K, i128)>, divisor: i128)
    requires fits { all_fit (numbers_of entries.old.items) ≡ true }
    requires range { InRange divisor }
    requires positive { pos 0 <ℤ divisor }
    ensures { entries.new.items ≡ entries_divided (unsigned_abs divisor) entries.old.items }
{
    if divisor == 1 {
        return;
    }
    for entry in entries.iter_mut() {
        entry.1 = quotient(entry.1, divisor);
    }
}

/// `n / divisor`. Most divisors are 1.
pub fn quotient(n: i128, divisor: i128) -> i128
    requires fits { InRange n }
    requires divisor_fits { InRange divisor }
    requires positive { pos 0 <ℤ divisor }
    ensures value { result ≡ int_div n divisor }
    ensures range { InRange result }
{
    if divisor == 1 { n } else { n / divisor }
}
