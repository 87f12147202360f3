//! Which column enters and which row leaves, by the kept rows.

ghost use Rattle.std.specs.Prelude.{◌≡◌, ◌<◌, ◌≤◌, ◌+◌, ◌-◌, unsigned_abs, None, Some, pos, length, int_lt, nat_lt, IfOk, IfSome, slice_set, slice_index_or, if◌then◌else◌};
ghost use Rattle.exact_num.specs.Range.{InRange};
ghost use Rattle.written_method.specs.Choices.{first_positive_from, greatest_from, rank_of};
ghost use Rattle.written_method.specs.Lines.{entry_of, less};
ghost use Rattle.written_method.specs.Tableaus.{line_of, rows_of};
ghost use Rattle.simplex_core.specs.Kept.{IsKept};
ghost use Rattle.simplex_core.specs.KeptRounds.{kept_entering, kept_leaving};
ghost use Rattle.simplex_core.specs.KeptViews.{AreSpread, IsHome, candidate_of, kept_basics, kept_state, rough_of, x0_in};
ghost use Rattle.simplex_core.specs.Views.{chosen_seen};

use crate::candidate::Candidate;
use crate::choice::{PATIENCE, better_of, rank as rank_at};
use crate::home::Home;
use crate::short_choice;
use exact_num::TooWide;
use int_tableau::{Tableau, difference, is_narrow};

/// The greatest sizes of some lines: of their multiplied entries in the column that enters, of those at x0, and of all their numbers.
#[derive(Clone, Copy)]
pub(crate) struct Spread {
    pub(crate) entry: u128,
    pub(crate) at_x0: u128,
    pub(crate) size: u128,
}

/// The row that leaves, if one may, and the greatest sizes of all rows.
#[derive(Clone, Copy)]
pub(crate) struct LeavingRow {
    pub(crate) chosen: Option<Candidate>,
    pub(crate) spread: Spread,
}

/// `a * x - b * y`.
fn less(a: i128, b: i128, x: i128, y: i128) -> Result<i128, TooWide>
    requires a { InRange a }
    requires b { InRange b }
    requires x { InRange x }
    requires y { InRange y }
    ensures value { IfOk result (λ z. z ≡ less a b x y) }
    ensures range { IfOk result (λ z. InRange z) }
{
    let narrow = is_narrow(a) && is_narrow(b);
    difference(narrow, a, b, x, y)
}

/// A positive multiple of the method's entry of a line in the column that enters.
pub(crate) fn rough_entry(tableau: &Tableau, home: Home, row: usize) -> Result<i128, TooWide>
    requires home { IsHome tableau.now.tableau home }
    requires row { row < length tableau.now.tableau.lines }
    ensures value { IfOk result (λ z. z ≡ entry_of (rough_of tableau.now.tableau home.row (x0_in tableau.now.tableau) row) home.column) }
    ensures range { IfOk result (λ z. InRange z) }
{
    if row == home.row {
        return Ok(home.entry);
    }
    less(
        home.at_x0,
        tableau.last_entry(row),
        tableau.entry(row, home.column),
        home.entry,
    )
}

/// The same multiple of its right side.
fn rough_right(tableau: &Tableau, home: Home, row: usize) -> Result<i128, TooWide>
    requires home { IsHome tableau.now.tableau home }
    requires row { row < length tableau.now.tableau.basics }
    ensures value { IfOk result (λ z. z ≡ (rough_of tableau.now.tableau home.row (x0_in tableau.now.tableau) row).right) }
    ensures range { IfOk result (λ z. InRange z) }
{
    if row == home.row {
        return Ok(home.right);
    }
    less(
        home.at_x0,
        tableau.last_entry(row),
        tableau.rhs(row),
        home.right,
    )
}

/// The place of a row among those of the same quotient: x0's is the first.
pub(crate) fn rank(tableau: &Tableau, home: Home, row: usize) -> usize
    requires home { IsHome tableau.now.tableau home }
    requires row { row < length tableau.now.tableau.basics }
    ensures { result ≡ rank_of (Some (x0_in tableau.now.tableau)) (slice_index_or (kept_basics tableau.now.tableau home.row (x0_in tableau.now.tableau)) row 0) }
{
    if row == home.row {
        0
    } else {
        rank_at(Some(tableau.columns() - 1), tableau.basic(row))
    }
}

/// A row as one that may leave, if it may.
fn candidate(
    tableau: &Tableau,
    home: Home,
    row: usize,
    entry: i128,
) -> Result<Option<Candidate>, TooWide>
    requires home { IsHome tableau.now.tableau home }
    requires row { row < length tableau.now.tableau.basics }
    requires entry { entry ≡ entry_of (rough_of tableau.now.tableau home.row (x0_in tableau.now.tableau) row) home.column }
    requires range { InRange entry }
    ensures { IfOk result (λ o. chosen_seen o ≡ (if int_lt (pos 0) (entry_of (rough_of tableau.now.tableau home.row (x0_in tableau.now.tableau) row) home.column) then Some (candidate_of tableau.now.tableau home.row (x0_in tableau.now.tableau) home.column row) else None)) }
{
    if entry <= 0 {
        return Ok(None);
    }
    let right = rough_right(tableau, home, row)?;
    Ok(Some(Candidate {
        row,
        right,
        entry,
        rank: rank(tableau, home, row),
    }))
}

/// The greater of two sizes.
fn larger(a: u128, b: u128) -> u128
    ensures first { a ≤ result }
    ensures second { b ≤ result }
{
    if a < b { b } else { a }
}

/// The greater of a size and of an absolute value.
fn greater(size: u128, number: i128) -> u128
    requires { InRange number }
    ensures before { size ≤ result }
    ensures number { unsigned_abs number ≤ result }
{
    larger(size, number.unsigned_abs())
}

/// The greatest sizes with those of one line more, by its multiplied entry and its entry at x0.
pub(crate) fn seen_by(
    tableau: &Tableau,
    home: Home,
    spread: Spread,
    row: usize,
    at_x0: i128,
    entry: i128,
) -> Spread
    requires home { IsHome tableau.now.tableau home }
    requires row { row < length tableau.now.tableau.lines }
    requires at_x0 { at_x0 ≡ entry_of (line_of tableau.now.tableau row) (x0_in tableau.now.tableau) }
    requires at_x0_fits { InRange at_x0 }
    requires entry { entry ≡ entry_of (rough_of tableau.now.tableau home.row (x0_in tableau.now.tableau) row) home.column }
    requires range { InRange entry }
    requires before { AreSpread tableau.now.tableau home.row home.column row spread }
    ensures { AreSpread tableau.now.tableau home.row home.column (row + 1) result }
{
    Spread {
        entry: greater(spread.entry, entry),
        at_x0: greater(spread.at_x0, at_x0),
        size: larger(spread.size, tableau.size(row)),
    }
}

/// The greatest sizes with those of one line more.
pub(crate) fn seen(tableau: &Tableau, home: Home, spread: Spread, row: usize, entry: i128) -> Spread
    requires home { IsHome tableau.now.tableau home }
    requires row { row < length tableau.now.tableau.lines }
    requires entry { entry ≡ entry_of (rough_of tableau.now.tableau home.row (x0_in tableau.now.tableau) row) home.column }
    requires range { InRange entry }
    requires before { AreSpread tableau.now.tableau home.row home.column row spread }
    ensures { AreSpread tableau.now.tableau home.row home.column (row + 1) result }
{
    seen_by(tableau, home, spread, row, tableau.last_entry(row), entry)
}

/// The row that leaves for the column that enters, in 128 bits.
fn wide_leaving(tableau: &Tableau, home: Home) -> Result<LeavingRow, TooWide>
    requires { IsHome tableau.now.tableau home }
    ensures chosen { IfOk result (λ l. chosen_seen l.chosen ≡ kept_leaving (kept_state tableau.now.tableau home.row (x0_in tableau.now.tableau) 0 0) home.column) }
    ensures spread { IfOk result (λ l. AreSpread tableau.now.tableau home.row home.column (rows_of tableau.now.tableau) l.spread) }
{
    let mut chosen = None;
    let mut spread = Spread {
        entry: 0,
        at_x0: 0,
        size: 0,
    };
    for row in 0..tableau.rows() {
        let entry = rough_entry(tableau, home, row)?;
        spread = seen(tableau, home, spread, row, entry);
        if let Some(a) = candidate(tableau, home, row, entry)? {
            chosen = Some(better_of(chosen, a));
        }
    }
    Ok(LeavingRow { chosen, spread })
}

/// The row that leaves for the column that enters. It is sought in 64 bits first.
pub(crate) fn leaving(tableau: &Tableau, home: Home) -> Result<LeavingRow, TooWide>
    requires { IsHome tableau.now.tableau home }
    ensures chosen { IfOk result (λ l. chosen_seen l.chosen ≡ kept_leaving (kept_state tableau.now.tableau home.row (x0_in tableau.now.tableau) 0 0) home.column) }
    ensures spread { IfOk result (λ l. AreSpread tableau.now.tableau home.row home.column (rows_of tableau.now.tableau) l.spread) }
{
    match short_choice::leaving(tableau, home) {
        Some(leaving) => Ok(leaving),
        None => wide_leaving(tableau, home),
    }
}

/// The column with the greatest positive entry in x0's row but that at x0, the first of those.
fn greatest(tableau: &Tableau, home: usize, x0: usize) -> Option<usize>
    requires kept { IsKept home x0 tableau.now.tableau }
    ensures chosen { result ≡ greatest_from 0 (pos 0) None (slice_set (line_of tableau.now.tableau home).entries x0 (pos 0)) }
    ensures column { IfSome result (λ c. c < tableau.now.tableau.columns) }
{
    let mut best = 0;
    let mut chosen = None;
    let mut from = 0;
    while let Some((column, entry)) = tableau.next_entry(home, from) {
        if column == x0 {
            return chosen;
        }
        if entry > best {
            best = entry;
            chosen = Some(column);
        }
        from = column + 1;
    }
    chosen
}

/// The first column with a positive entry in x0's row but that at x0.
fn first_positive(tableau: &Tableau, home: usize, x0: usize) -> Option<usize>
    requires kept { IsKept home x0 tableau.now.tableau }
    ensures chosen { result ≡ first_positive_from 0 (slice_set (line_of tableau.now.tableau home).entries x0 (pos 0)) }
    ensures column { IfSome result (λ c. c < tableau.now.tableau.columns) }
{
    let mut from = 0;
    while let Some((column, entry)) = tableau.next_entry(home, from) {
        if column == x0 {
            return None;
        }
        if entry > 0 {
            return Some(column);
        }
        from = column + 1;
    }
    None
}

/// The column that enters.
pub(crate) fn entering(tableau: &Tableau, home: usize, x0: usize, degenerate: u64) -> Option<usize>
    requires kept { IsKept home x0 tableau.now.tableau }
    requires last { x0 ≡ x0_in tableau.now.tableau }
    ensures chosen { result ≡ kept_entering (kept_state tableau.now.tableau home x0 0 degenerate) }
    ensures column { IfSome result (λ c. c < tableau.now.tableau.columns) }
{
    if degenerate < PATIENCE {
        greatest(tableau, home, x0)
    } else {
        first_positive(tableau, home, x0)
    }
}
