//! Whether all numbers fit that the method's next pivot forms.

ghost use Rattle.std.specs.Prelude.{◌≡◌, ◌<◌, ◌≤◌, ◌+◌, ◌*◌, ◌^◌, true, length, unsigned_abs, IfSome};
ghost use Rattle.simplex_core.specs.Widths.{late_size};
ghost use Rattle.written_method.specs.Tableaus.{rows_of};
ghost use Rattle.simplex_core.specs.KeptViews.{AreSpread, FitsPivot, IsHome, IsLineNarrow, kept_state, size_in, x0_in};

use crate::home::Home;
use crate::kept_choice::{Spread, rough_entry, seen};
use int_tableau::Tableau;

/// `a * b`, if it fits into 128 bits.
fn product(a: u128, b: u128) -> Option<u128>
    ensures { IfSome result (λ n. n ≡ a * b) }
{
    a.checked_mul(b)
}

/// `a * x + b * y`, if it fits into 128 bits.
fn two_products(a: u128, x: u128, b: u128, y: u128) -> Option<u128>
    ensures { IfSome result (λ n. n ≡ (a * x) + (b * y)) }
{
    let p = product(a, x)?;
    let q = product(b, y)?;
    p.checked_add(q)
}

/// A bound of the absolute values in the method's line.
fn bound(tableau: &Tableau, home: Home, row: usize) -> Option<u128>
    requires home { IsHome tableau.now.tableau home }
    requires row { row < length tableau.now.tableau.lines }
    ensures { IfSome result (λ n. late_size (kept_state tableau.now.tableau home.row (x0_in tableau.now.tableau) 0 0) (size_in tableau.now.tableau) row ≤ n) }
{
    let at_home = tableau.size(home.row);
    if row == home.row {
        return Some(at_home);
    }
    two_products(
        home.at_x0.unsigned_abs(),
        tableau.size(row),
        tableau.last_entry(row).unsigned_abs(),
        at_home,
    )
}

/// Whether the two products of a line and the sum of their absolute values fit.
fn line_fits(tableau: &Tableau, home: Home, row: usize, line: usize) -> bool
    requires home { IsHome tableau.now.tableau home }
    requires row { row < length tableau.now.tableau.lines }
    requires line { line < length tableau.now.tableau.lines }
    ensures { result ≡ true → IsLineNarrow tableau.now.tableau home.row (x0_in tableau.now.tableau) row home.column line }
{
    let Some(pivot_bound) = bound(tableau, home, row) else {
        return false;
    };
    let Ok(pivot_entry) = rough_entry(tableau, home, row) else {
        return false;
    };
    let Some(line_bound) = bound(tableau, home, line) else {
        return false;
    };
    let Ok(entry) = rough_entry(tableau, home, line) else {
        return false;
    };
    let Some(sum) = two_products(
        pivot_entry.unsigned_abs(),
        line_bound,
        entry.unsigned_abs(),
        pivot_bound,
    ) else {
        return false;
    };
    sum < 170141183460469231731687303715884105728
}

/// Whether it is sure that all numbers of a pivot fit, line by line.
fn each_fits(tableau: &Tableau, home: Home, row: usize) -> bool
    requires home { IsHome tableau.now.tableau home }
    requires row { row < rows_of tableau.now.tableau }
    ensures { result ≡ true → FitsPivot tableau.now.tableau home.row (x0_in tableau.now.tableau) row home.column }
{
    for line in 0..tableau.lines() {
        if line != row && !line_fits(tableau, home, row, line) {
            return false;
        }
    }
    true
}

/// Whether it is sure that all numbers of a pivot fit, by the greatest sizes of all lines: a product of their bounds is below 2^126.
fn all_fit_at_once(tableau: &Tableau, home: Home, spread: Spread, row: usize) -> bool
    requires home { IsHome tableau.now.tableau home }
    requires row { row < rows_of tableau.now.tableau }
    requires spread { AreSpread tableau.now.tableau home.row home.column (length tableau.now.tableau.lines) spread }
    ensures { result ≡ true → FitsPivot tableau.now.tableau home.row (x0_in tableau.now.tableau) row home.column }
{
    let Some(size) = two_products(
        home.at_x0.unsigned_abs(),
        spread.size,
        spread.at_x0,
        tableau.size(home.row),
    ) else {
        return false;
    };
    let Some(whole) = product(spread.entry, size) else {
        return false;
    };
    whole < 85070591730234615865843651857942052864
}

/// The greatest sizes of all rows with those of the rows of z and w.
fn with_last(tableau: &Tableau, home: Home, spread: Spread) -> Option<Spread>
    requires home { IsHome tableau.now.tableau home }
    requires before { AreSpread tableau.now.tableau home.row home.column (rows_of tableau.now.tableau) spread }
    ensures { IfSome result (λ s. AreSpread tableau.now.tableau home.row home.column (length tableau.now.tableau.lines) s) }
{
    let rows = tableau.rows();
    let Ok(at_z) = rough_entry(tableau, home, rows) else {
        return None;
    };
    let Ok(at_w) = rough_entry(tableau, home, rows + 1) else {
        return None;
    };
    let spread = seen(tableau, home, spread, rows, at_z);
    Some(seen(tableau, home, spread, rows + 1, at_w))
}

/// Whether it is sure that all numbers of a pivot fit: first for all lines at once, then line by line.
pub(crate) fn fits(tableau: &Tableau, home: Home, row: usize, spread: Spread) -> bool
    requires home { IsHome tableau.now.tableau home }
    requires row { row < rows_of tableau.now.tableau }
    requires before { AreSpread tableau.now.tableau home.row home.column (rows_of tableau.now.tableau) spread }
    ensures { result ≡ true → FitsPivot tableau.now.tableau home.row (x0_in tableau.now.tableau) row home.column }
{
    let Some(spread) = with_last(tableau, home, spread) else {
        return false;
    };
    if all_fit_at_once(tableau, home, spread, row) {
        return true;
    }
    each_fits(tableau, home, row)
}
