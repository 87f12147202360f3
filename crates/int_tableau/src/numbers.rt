//! What is done to the numbers of a line.

ghost use Rattle.std.specs.Prelude.{◌≡◌, ◌≢◌, ℕ, true, pos, neg_ℤ};
ghost use Rattle.exact_num.specs.Range.{InRange, all_fit};
ghost use Rattle.row_core.specs.Numbers.{numbers_of};
ghost use Rattle.written_method.specs.Lines.{factor_of, lowest_line};
ghost use Rattle.int_tableau.specs.Entries.{IsSparse, entries_negated};
ghost use Rattle.int_tableau.specs.LineView.{line_seen};

use exact_num::gcd;
use row_core::{divide_all, divisor_of, quotient};

/// `p` and `q` without their greatest common divisor.
pub(crate) fn factors(p: i128, q: i128) -> (i128, i128)
    requires fits { InRange p }
    requires other_fits { InRange q }
    requires other_nonzero { q ≢ pos 0 }
    ensures first { result.0 ≡ factor_of p q }
    ensures second { result.1 ≡ factor_of q p }
    ensures first_range { InRange result.0 }
    ensures second_range { InRange result.1 }
{
    let divisor = gcd(p, q);
    (quotient(p, divisor), quotient(q, divisor))
}

/// Multiplies each entry by -1.
pub(crate) fn negate_all(entries: &mut Vec<(usize, i128)>)
    requires { all_fit (numbers_of entries.old.items) ≡ true }
    ensures { entries.new.items ≡ entries_negated entries.old.items }
{
    for entry in entries.iter_mut() {
        entry.1 = opposite(entry.1);
    }
}

/// `-n`.
pub(crate) fn opposite(n: i128) -> i128
    requires { InRange n }
    ensures value { result ≡ neg_ℤ n }
    ensures range { InRange result }
{
    -n
}

/// Divides a line by the greatest common divisor of its numbers, and gives its right side and own entry. The divisor is
/// sought among those two first, and is mostly found to be 1 before many entries are read.
pub(crate) fn divide(entries: &mut Vec<(usize, i128)>, right: i128, own: i128) -> (i128, i128)
    requires fits { all_fit (numbers_of entries.old.items) ≡ true }
    requires right_fits { InRange right }
    requires own_fits { InRange own }
    ensures line { (n : ℕ) → IsSparse 0 n entries.old.items → line_seen n entries.new.items result.0 result.1 ≡ lowest_line (line_seen n entries.old.items right own) }
    ensures sparse { (n : ℕ) → IsSparse 0 n entries.old.items → IsSparse 0 n entries.new.items }
    ensures right { InRange result.0 }
    ensures own { InRange result.1 }
{
    let divisor = divisor_of(gcd(right, own), entries);
    divide_all(entries, divisor);
    (quotient(right, divisor), quotient(own, divisor))
}
