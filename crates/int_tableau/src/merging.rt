//! Two lists of entries side by side, and their difference.

ghost use Rattle.std.specs.Prelude.{◌≡◌, ◌<◌, ◌≤◌, ◌^◌, ℕ, true, drop, IfErr, IfOk, IsTrue, OnOk, is_ok, unsigned_abs};
ghost use Rattle.exact_num.specs.Range.{InRange, all_fit};
ghost use Rattle.written_method.specs.Lines.{less, less_formed};
ghost use Rattle.int_tableau.specs.Entries.{at, IsSparse, head_column, taken_rest};
ghost use Rattle.int_tableau.specs.Stops.{IsWideInSome};
ghost use Rattle.int_tableau.specs.declared.refused.Refused.TheVariants.{Memory};
ghost use Rattle.int_tableau.specs.Pushes.{IsPushed};

use crate::entries::number_at;
use crate::narrow::is_narrow;
use crate::refused::Refused;
use exact_num::TooWide;
use row_core::less;

/// `a * x - b * y` where none of the numbers that are formed can leave 128 bits.
pub(crate) fn narrow_less(a: i128, b: i128, x: i128, y: i128) -> i128
    requires a { unsigned_abs a < 2 ^ 63 }
    requires b { unsigned_abs b < 2 ^ 63 }
    requires x { unsigned_abs x < 2 ^ 63 }
    requires y { unsigned_abs y < 2 ^ 63 }
    ensures value { result ≡ less a b x y }
    ensures fits { all_fit (less_formed a b x y) ≡ true }
    ensures range { InRange result }
{
    a * x - b * y
}

/// `a * x - b * y`, or `TooWide` where a number that this forms leaves 128 bits. `narrow` says that `a` and `b` are below 2^63, which
/// needn't be asked for each entry.
pub fn difference(narrow: bool, a: i128, b: i128, x: i128, y: i128) -> Result<i128, TooWide>
    requires narrow { IsTrue narrow → (unsigned_abs a < 2 ^ 63) × (unsigned_abs b < 2 ^ 63) }
    requires a { InRange a }
    requires b { InRange b }
    requires x { InRange x }
    requires y { InRange y }
    ensures refused { is_ok result ≡ all_fit (less_formed a b x y) }
    ensures value { IfOk result (λ z. z ≡ less a b x y) }
    ensures range { IfOk result (λ z. InRange z) }
{
    if narrow && is_narrow(x) && is_narrow(y) {
        Ok(narrow_less(a, b, x, y))
    } else {
        less(a, b, x, y)
    }
}

/// The column of the entry at this position, or `columns` after the last.
pub(crate) fn column_at<N: Copy>(entries: &[(usize, N)], position: usize, columns: usize) -> usize
    ensures { result ≡ head_column columns (drop position entries.now) }
{
    if position < entries.len() {
        entries[position].0
    } else {
        columns
    }
}

/// The position after that entry.
fn position_after(entries: &[(usize, i128)], position: usize, column: usize) -> usize
    ensures { drop result entries.now ≡ taken_rest column (drop position entries.now) }
{
    if position < entries.len() && entries[position].0 == column {
        position + 1
    } else {
        position
    }
}

/// The next column in which one of the two lists has an entry, or `columns`.
fn next_column(
    line: &[(usize, i128)],
    left: usize,
    other: &[(usize, i128)],
    right: usize,
    columns: usize,
) -> usize
    ensures left { result ≤ head_column columns (drop left line.now) }
    ensures right { result ≤ head_column columns (drop right other.now) }
    ensures least { (low : ℕ) → low ≤ head_column columns (drop left line.now) → low ≤ head_column columns (drop right other.now) → low ≤ result }
{
    let first = column_at(line, left, columns);
    let second = column_at(other, right, columns);
    if first < second { first } else { second }
}

/// Appends an entry, unless its number is 0.
fn push_unless_zero(
    out: &mut Vec<(usize, i128)>,
    column: usize,
    number: i128,
) -> Result<(), Refused>
    requires { InRange number }
    ensures pushed { OnOk result (IsPushed column number out.old.items out.new.items) }
    ensures memory { IfErr result (λ e. e ≡ Memory) }
{
    if number != 0 {
        out.push((column, number))?;
    }
    Ok(())
}

/// Writes `a` times the entries of a line less `b` times those of another over what stood in `out`.
pub(crate) fn combine(
    out: &mut Vec<(usize, i128)>,
    a: i128,
    b: i128,
    line: &[(usize, i128)],
    other: &[(usize, i128)],
    columns: usize,
) -> Result<(), Refused>
    requires a { InRange a }
    requires b { InRange b }
    requires line { IsSparse 0 columns line.now }
    requires other { IsSparse 0 columns other.now }
    ensures sparse { OnOk result (IsSparse 0 columns out.new.items) }
    ensures value { OnOk result ((c : ℕ) → at out.new.items c ≡ less a b (at line.now c) (at other.now c)) }
    ensures fits { OnOk result ((c : ℕ) → all_fit (less_formed a b (at line.now c) (at other.now c)) ≡ true) }
    ensures stopped { IfErr result (IsWideInSome columns a b line.now other.now) }
{
    out.clear();
    let narrow = is_narrow(a) && is_narrow(b);
    let mut left = 0;
    let mut right = 0;
    let mut column = next_column(line, 0, other, 0, columns);
    while column < columns {
        let entry = number_at(line, left, column);
        let number = number_at(other, right, column);
        let Ok(rest) = difference(narrow, a, b, entry, number) else {
            return Err(Refused::TooWide);
        };
        push_unless_zero(out, column, rest)?;
        left = position_after(line, left, column);
        right = position_after(other, right, column);
        column = next_column(line, left, other, right, columns);
    }
    Ok(())
}
