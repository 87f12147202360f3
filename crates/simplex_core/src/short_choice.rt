//! Which row leaves by the kept rows, where all numbers that this takes have 64 bits.

ghost use Rattle.std.specs.Prelude.{◌≡◌, ◌<◌, ◌+◌, ◌^◌, ◌*ℤ◌, int_lt, unsigned_abs, None, Some, pos, length, IfSome, if◌then◌else◌};
ghost use Rattle.exact_num.specs.Range.{InRange};
ghost use Rattle.exact_num.specs.Rational.{lowest, order_of};
ghost use Rattle.written_method.specs.Choices.{better, leaves_before};
ghost use Rattle.written_method.specs.Lines.{entry_of};
ghost use Rattle.written_method.specs.Tableaus.{line_of, rows_of};
ghost use Rattle.int_tableau.specs.Shorts.{AreOf};
ghost use Rattle.simplex_core.specs.KeptRounds.{kept_leaving};
ghost use Rattle.simplex_core.specs.KeptViews.{AreSpread, IsHome, candidate_of, kept_state, rough_of, x0_in};
ghost use Rattle.simplex_core.specs.ShortViews.{AreRough, short_candidate_seen, short_chosen_seen};
ghost use Rattle.simplex_core.specs.Views.{chosen_seen};

use crate::candidate::{Candidate, ShortCandidate};
use crate::home::Home;
use crate::kept_choice::{LeavingRow, Spread, rank, seen_by};
use int_tableau::{ShortNumbers, Tableau, short_difference};
use std::cmp::Ordering;

/// The product of two numbers of 64 bits.
fn product(a: i64, b: i64) -> i128
    requires left { unsigned_abs a < 2 ^ 63 }
    requires right { unsigned_abs b < 2 ^ 63 }
    ensures value { result ≡ a *ℤ b }
    ensures range { InRange result }
{
    a as i128 * b as i128
}

/// How the quotients of right side and entry of two rows stand to each other.
fn order_of_quotients(a: ShortCandidate, b: ShortCandidate) -> Ordering
    ensures { result ≡ order_of (lowest a.right a.entry) (lowest b.right b.entry) }
{
    product(a.right, b.entry).cmp(&product(b.right, a.entry))
}

/// Whether a row leaves before another.
fn is_before(a: ShortCandidate, b: ShortCandidate) -> bool
    ensures { result ≡ leaves_before (short_candidate_seen a) (short_candidate_seen b) }
{
    match order_of_quotients(a, b) {
        Ordering::Less => true,
        Ordering::Equal => a.rank < b.rank,
        Ordering::Greater => false,
    }
}

/// The better of the row that was chosen so far and one more.
fn better_of(chosen: Option<ShortCandidate>, a: ShortCandidate) -> ShortCandidate
    ensures { short_candidate_seen result ≡ better (short_chosen_seen chosen) (short_candidate_seen a) }
{
    match chosen {
        None => a,
        Some(b) => { if is_before(a, b) { a } else { b } }
    }
}

/// The same row in 128 bits.
fn widened(a: ShortCandidate) -> Candidate
    ensures row { result.row ≡ a.row }
    ensures right { result.right ≡ a.right }
    ensures entry { result.entry ≡ a.entry }
    ensures rank { result.rank ≡ a.rank }
{
    Candidate {
        row: a.row,
        right: a.right as i128,
        entry: a.entry as i128,
        rank: a.rank,
    }
}

/// The same row in 128 bits, if there is one.
fn chosen_widened(chosen: Option<ShortCandidate>) -> Option<Candidate>
    ensures { chosen_seen result ≡ short_chosen_seen chosen }
{
    match chosen {
        None => None,
        Some(a) => Some(widened(a)),
    }
}

/// The multiplied entry and right side of the method's line, with the entry of the line at x0.
fn rough_numbers(
    tableau: &Tableau,
    home: Home,
    at_home: ShortNumbers,
    row: usize,
) -> Option<ShortNumbers>
    requires home { IsHome tableau.now.tableau home }
    requires row { row < length tableau.now.tableau.lines }
    requires at_home { AreOf (line_of tableau.now.tableau home.row) home.column at_home }
    ensures { IfSome result (AreRough tableau.now.tableau home row) }
{
    if row == home.row {
        return Some(at_home);
    }
    let Some(own) = tableau.short_numbers(row, home.column) else {
        return None;
    };
    let Some(entry) = short_difference(at_home.last, own.last, own.entry, at_home.entry) else {
        return None;
    };
    let Some(right) = short_difference(at_home.last, own.last, own.right, at_home.right) else {
        return None;
    };
    Some(ShortNumbers {
        entry,
        last: own.last,
        right,
    })
}

/// The greatest sizes with those of one row more.
fn short_seen(
    tableau: &Tableau,
    home: Home,
    spread: Spread,
    row: usize,
    numbers: ShortNumbers,
) -> Spread
    requires home { IsHome tableau.now.tableau home }
    requires row { row < length tableau.now.tableau.lines }
    requires numbers { AreRough tableau.now.tableau home row numbers }
    requires before { AreSpread tableau.now.tableau home.row home.column row spread }
    ensures { AreSpread tableau.now.tableau home.row home.column (row + 1) result }
{
    seen_by(
        tableau,
        home,
        spread,
        row,
        numbers.last as i128,
        numbers.entry as i128,
    )
}

/// A row as one that may leave, if it may.
fn candidate(
    tableau: &Tableau,
    home: Home,
    row: usize,
    numbers: ShortNumbers,
) -> Option<ShortCandidate>
    requires home { IsHome tableau.now.tableau home }
    requires row { row < length tableau.now.tableau.basics }
    requires numbers { AreRough tableau.now.tableau home row numbers }
    ensures { short_chosen_seen result ≡ (if int_lt (pos 0) (entry_of (rough_of tableau.now.tableau home.row (x0_in tableau.now.tableau) row) home.column) then Some (candidate_of tableau.now.tableau home.row (x0_in tableau.now.tableau) home.column row) else None) }
{
    if numbers.entry <= 0 {
        return None;
    }
    Some(ShortCandidate {
        row,
        right: numbers.right,
        entry: numbers.entry,
        rank: rank(tableau, home, row),
    })
}

/// The row that leaves for the column that enters, where all numbers that are formed have 64 bits.
pub(crate) fn leaving(tableau: &Tableau, home: Home) -> Option<LeavingRow>
    requires { IsHome tableau.now.tableau home }
    ensures chosen { IfSome result (λ l. chosen_seen l.chosen ≡ kept_leaving (kept_state tableau.now.tableau home.row (x0_in tableau.now.tableau) 0 0) home.column) }
    ensures spread { IfSome result (λ l. AreSpread tableau.now.tableau home.row home.column (rows_of tableau.now.tableau) l.spread) }
{
    let Some(at_home) = tableau.short_numbers(home.row, home.column) else {
        return None;
    };
    let mut chosen = None;
    let mut spread = Spread {
        entry: 0,
        at_x0: 0,
        size: 0,
    };
    for row in 0..tableau.rows() {
        let Some(numbers) = rough_numbers(tableau, home, at_home, row) else {
            return None;
        };
        spread = short_seen(tableau, home, spread, row, numbers);
        if let Some(a) = candidate(tableau, home, row, numbers) {
            chosen = Some(better_of(chosen, a));
        }
    }
    Some(LeavingRow {
        chosen: chosen_widened(chosen),
        spread,
    })
}
