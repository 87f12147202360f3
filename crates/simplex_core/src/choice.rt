//! Which column enters, and which row leaves.

ghost use Rattle.std.specs.Prelude.{◌≡◌, ◌<◌, ◌≤◌, ◌+◌, ◌^◌, ◌*ℤ◌, unsigned_abs, None, pos, length, IfSome, if◌then◌else◌, nat_lt};
ghost use Rattle.exact_num.specs.Range.{InRange};
ghost use Rattle.exact_num.specs.Rational.{lowest, order_of};
ghost use Rattle.written_method.specs.Choices.{better, first_positive_from, greatest_from, least_right_from, leaves_before, leaving_from, rank_of};
ghost use Rattle.written_method.specs.Rounds.{right_sides};
ghost use Rattle.written_method.specs.Tableaus.{line_of};
ghost use Rattle.simplex_core.specs.Views.{candidate_seen, chosen_seen, row_of_candidate};

use crate::candidate::Candidate;
use exact_num::{cmp_frac, ratio};
use int_tableau::{Tableau, is_narrow};
use std::cmp::Ordering;

/// How many degenerate pivots may follow one another before the first column that can enter is taken.
pub(crate) const PATIENCE: u64 = 50;

/// The column with the greatest positive entry in a row, the first of those.
fn greatest(tableau: &Tableau, row: usize) -> Option<usize>
    requires { row < length tableau.now.tableau.lines }
    ensures chosen { result ≡ greatest_from 0 (pos 0) None (line_of tableau.now.tableau row).entries }
    ensures column { IfSome result (λ c. c < tableau.now.tableau.columns) }
{
    let mut best = 0;
    let mut chosen = None;
    let mut from = 0;
    let mut seen = 0;
    while let Some((column, entry)) = tableau.next_entry_near(row, from, seen) {
        if entry > best {
            best = entry;
            chosen = Some(column);
        }
        from = column + 1;
        seen += 1;
    }
    chosen
}

/// The first column with a positive entry in a row.
fn first_positive(tableau: &Tableau, row: usize) -> Option<usize>
    requires { row < length tableau.now.tableau.lines }
    ensures chosen { result ≡ first_positive_from 0 (line_of tableau.now.tableau row).entries }
    ensures column { IfSome result (λ c. c < tableau.now.tableau.columns) }
{
    let mut from = 0;
    while let Some((column, entry)) = tableau.next_entry(row, from) {
        if entry > 0 {
            return Some(column);
        }
        from = column + 1;
    }
    None
}

/// The column that enters, by the entries of a row.
pub(crate) fn entering(tableau: &Tableau, row: usize, degenerate: u64) -> Option<usize>
    requires { row < length tableau.now.tableau.lines }
    ensures chosen { result ≡ (if nat_lt degenerate 50 then greatest_from 0 (pos 0) None (line_of tableau.now.tableau row).entries else first_positive_from 0 (line_of tableau.now.tableau row).entries) }
    ensures column { IfSome result (λ c. c < tableau.now.tableau.columns) }
{
    if degenerate < PATIENCE {
        greatest(tableau, row)
    } else {
        first_positive(tableau, row)
    }
}

/// The product of two numbers of 64 bits.
fn product(a: i128, b: i128) -> i128
    requires left { unsigned_abs a < 2 ^ 63 }
    requires right { unsigned_abs b < 2 ^ 63 }
    ensures value { result ≡ a *ℤ b }
    ensures range { InRange result }
{
    a * b
}

/// How the quotients of right side and entry of two rows stand to each other. Where all four numbers have 64 bits, their products
/// say it sooner than fractions in lowest terms do.
fn order_of_quotients(a: Candidate, b: Candidate) -> Ordering
    ensures { result ≡ order_of (lowest a.right a.entry) (lowest b.right b.entry) }
{
    if is_narrow(a.right) && is_narrow(a.entry) && is_narrow(b.right) && is_narrow(b.entry) {
        product(a.right, b.entry).cmp(&product(b.right, a.entry))
    } else {
        cmp_frac(ratio(a.right, a.entry), ratio(b.right, b.entry))
    }
}

/// Whether a row leaves before another.
fn is_before(a: Candidate, b: Candidate) -> bool
    ensures { result ≡ leaves_before (candidate_seen a) (candidate_seen b) }
{
    match order_of_quotients(a, b) {
        Ordering::Less => true,
        Ordering::Equal => a.rank < b.rank,
        Ordering::Greater => false,
    }
}

/// The better of the row that was chosen so far and one more.
pub(crate) fn better_of(chosen: Option<Candidate>, a: Candidate) -> Candidate
    ensures { candidate_seen result ≡ better (chosen_seen chosen) (candidate_seen a) }
{
    match chosen {
        None => a,
        Some(b) => { if is_before(a, b) { a } else { b } }
    }
}

/// A row's place at a tie: x0, whose column is the last, leaves first, then the row with the least basic column.
pub(crate) fn rank(x0: Option<usize>, basic: usize) -> usize
    requires { IfSome x0 (λ last. basic ≤ last) }
    ensures { result ≡ rank_of x0 basic }
{
    match x0 {
        None => basic,
        Some(column) => { if basic == column { 0 } else { basic + 1 } }
    }
}

/// The row that leaves for a column, if one can.
pub(crate) fn leaving(tableau: &Tableau, x0: Option<usize>, column: usize) -> Option<usize>
    requires last { IfSome x0 (λ last. tableau.now.tableau.columns ≡ last + 1) }
    requires column { column < tableau.now.tableau.columns }
    ensures { result ≡ row_of_candidate (leaving_from x0 column 0 None tableau.now.tableau.lines tableau.now.tableau.basics) }
{
    let mut chosen = None;
    for row in 0..tableau.rows() {
        let entry = tableau.entry(row, column);
        if entry > 0 {
            chosen = Some(better_of(
                chosen,
                Candidate {
                    row,
                    right: tableau.rhs(row),
                    entry,
                    rank: rank(x0, tableau.basic(row)),
                },
            ));
        }
    }
    match chosen {
        None => None,
        Some(candidate) => Some(candidate.row),
    }
}

/// The row with the least right side, the first of those.
pub(crate) fn least_right(tableau: &Tableau) -> usize
    ensures { result ≡ least_right_from 0 0 (pos 0) (right_sides tableau.now.tableau) }
{
    let mut best = 0;
    let mut chosen = 0;
    for row in 0..tableau.rows() {
        let right = tableau.rhs(row);
        if right < best {
            best = right;
            chosen = row;
        }
    }
    chosen
}
