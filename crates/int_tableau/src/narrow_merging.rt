//! Two lists of entries of 64 bits side by side, and their difference.

ghost use Rattle.std.specs.Prelude.{◌≡◌, ◌<◌, ◌+◌, ◌*◌, ◌^◌, ℕ, true, OnOk, IfSome, vec_len, vec_capacity, unsigned_abs};
ghost use Rattle.exact_num.specs.Range.{InRange, all_fit};
ghost use Rattle.written_method.specs.Lines.{less, less_formed};
ghost use Rattle.int_tableau.specs.Entries.{at, IsSparse};
ghost use Rattle.int_tableau.specs.Narrow.{AreNarrow};
ghost use Rattle.int_tableau.specs.Pushes.{IsPushed};
ghost use Rattle.int_tableau.specs.Sizes.{AreSure};

use crate::merging::column_at;
use crate::narrow::{is_narrow, is_short};
use crate::refused::Refused;

/// `a * x - b * y`, if both products and the difference are numbers of 64 bits.
pub fn short_difference(a: i64, b: i64, x: i64, y: i64) -> Option<i64>
    requires a { unsigned_abs a < 2 ^ 63 }
    requires b { unsigned_abs b < 2 ^ 63 }
    requires x { unsigned_abs x < 2 ^ 63 }
    requires y { unsigned_abs y < 2 ^ 63 }
    ensures value { IfSome result (λ z. z ≡ less a b x y) }
    ensures narrow { IfSome result (λ z. unsigned_abs z < 2 ^ 63) }
{
    let first = a.checked_mul(x)?;
    let second = b.checked_mul(y)?;
    let rest = first.checked_sub(second)?;
    if is_short(rest) { Some(rest) } else { None }
}

/// `a * x - b * y`, where neither the products nor the difference can have more than 64 bits.
fn sure_difference(a: i64, b: i64, x: i64, y: i64) -> i64
    requires { (unsigned_abs a * unsigned_abs x) + (unsigned_abs b * unsigned_abs y) < 2 ^ 63 }
    ensures value { result ≡ less a b x y }
    ensures narrow { unsigned_abs result < 2 ^ 63 }
    ensures fits { all_fit (less_formed a b x y) ≡ true }
{
    a * x - b * y
}

/// Appends an entry, unless its number is 0. There is room for it.
fn push_unless_zero(out: &mut Vec<(usize, i64)>, column: usize, number: i64)
    requires room { vec_len out.old < vec_capacity out.old }
    requires number { unsigned_abs number < 2 ^ 63 }
    ensures pushed { IsPushed column number out.old.items out.new.items }
    ensures narrow { AreNarrow out.old.items → AreNarrow out.new.items }
    ensures capacity { vec_capacity out.new ≡ vec_capacity out.old }
{
    if number != 0 {
        out.push_reserved((column, number));
    }
}

/// Appends `a * x - b * y` as an entry, unless it is 0. Neither the products nor the difference can have more than 64 bits.
fn push_difference(out: &mut Vec<(usize, i64)>, column: usize, a: i64, b: i64, x: i64, y: i64)
    requires room { vec_len out.old < vec_capacity out.old }
    requires sure { (unsigned_abs a * unsigned_abs x) + (unsigned_abs b * unsigned_abs y) < 2 ^ 63 }
    ensures pushed { IsPushed column (less a b x y) out.old.items out.new.items }
    ensures narrow { AreNarrow out.old.items → AreNarrow out.new.items }
    ensures capacity { vec_capacity out.new ≡ vec_capacity out.old }
    ensures fits { all_fit (less_formed a b x y) ≡ true }
{
    push_unless_zero(out, column, sure_difference(a, b, x, y));
}

/// Whether it is sure that all of `a * x - b * y` can be done in 64 bits, where no absolute value of x is above `size` and none of y
/// above `other_size`.
pub(crate) fn is_sure(a: i128, b: i128, size: u128, other_size: u128) -> bool
    requires a { InRange a }
    requires b { InRange b }
    ensures sure { result ≡ true → (unsigned_abs a * size) + (unsigned_abs b * other_size) < 2 ^ 63 }
    ensures a { result ≡ true → unsigned_abs a < 2 ^ 63 }
    ensures b { result ≡ true → unsigned_abs b < 2 ^ 63 }
{
    if !is_narrow(a) || !is_narrow(b) || size >= 1 << 63 || other_size >= 1 << 63 {
        return false;
    }
    a.unsigned_abs() * size + b.unsigned_abs() * other_size < 1 << 63
}

/// Writes `a` times the entries of a line less `b` times those of another over what stood in `out`. None of the numbers that are
/// formed can have more than 64 bits.
pub(crate) fn combine(
    out: &mut Vec<(usize, i64)>,
    a: i64,
    b: i64,
    line: &[(usize, i64)],
    other: &[(usize, i64)],
    columns: usize,
) -> Result<(), Refused>
    requires a { unsigned_abs a < 2 ^ 63 }
    requires b { unsigned_abs b < 2 ^ 63 }
    requires line { IsSparse 0 columns line.now }
    requires other { IsSparse 0 columns other.now }
    requires line_narrow { AreNarrow line.now }
    requires other_narrow { AreNarrow other.now }
    requires sure { AreSure a b line.now other.now }
    ensures sparse { OnOk result (IsSparse 0 columns out.new.items) }
    ensures narrow { OnOk result (AreNarrow out.new.items) }
    ensures value { OnOk result ((c : ℕ) → at out.new.items c ≡ less a b (at line.now c) (at other.now c)) }
    ensures fits { OnOk result ((c : ℕ) → all_fit (less_formed a b (at line.now c) (at other.now c)) ≡ true) }
{
    out.clear();
    out.reserve(columns)?;
    let mut left = 0;
    let mut right = 0;
    let mut first = column_at(line, 0, columns);
    let mut second = column_at(other, 0, columns);
    while first < columns || second < columns {
        if first < second {
            push_difference(out, first, a, b, line[left].1, 0);
            left += 1;
            first = column_at(line, left, columns);
        } else if second < first {
            push_difference(out, second, a, b, 0, other[right].1);
            right += 1;
            second = column_at(other, right, columns);
        } else {
            push_difference(out, first, a, b, line[left].1, other[right].1);
            left += 1;
            right += 1;
            first = column_at(line, left, columns);
            second = column_at(other, right, columns);
        }
    }
    Ok(())
}
