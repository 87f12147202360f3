//! Which column enters, and which row leaves.

ghost use Rattle.std.specs.Prelude.{◌≡◌, ◌&&◌, ◌||◌, None, int_lt, is_none, nat_lt, pos};
ghost use Rattle.row_problem.specs.Prelude.{InRange, rank_of};
ghost use Rattle.decimal_solver.specs.Rounds.{better, chosen_with, clipped, due, entering, entering_from, least_right, leaves_before, leaving, leaving_from};
ghost use Rattle.decimal_solver.specs.Views.{candidate_seen, chosen_seen, due_seen, entries_seen, line_seen, row_seen, rows_seen, state_seen};

use crate::lines::entry_in;
use crate::states::{Due, Entry, GridRow, Line, Phase, State};
use exact_num::{Frac, cmp_frac, ratio};
use std::cmp::Ordering;

/// A column can enter where its entry is above this.
const LEAST_ENTERING: i128 = 10;

/// A row can leave where its entry is above this.
const LEAST_LEAVING: i128 = 1000;

/// How many degenerate pivots may follow one another before the first column that can enter is taken.
const PATIENCE: u64 = 50;

/// Whether an entry's column can enter, and before what was chosen so far.
fn enters(greedy: bool, limit: usize, best: i128, chosen: Option<usize>, entry: Entry) -> bool
    ensures { result ≡ (nat_lt entry.column limit && (int_lt best entry.number && (greedy || is_none chosen))) }
{
    entry.column < limit && entry.number > best && (greedy || chosen.is_none())
}

/// The column with the greatest entry that can enter, the first of those; or, not greedily, the first that can.
#[tactic(auto, unfolding(crate::specs::Rounds::entering_from))]
fn entering_from(greedy: bool, limit: usize, entries: &[Entry]) -> Option<usize>
    ensures { result ≡ entering_from greedy limit (pos 10) None (entries_seen entries.now) }
{
    let mut best = LEAST_ENTERING;
    let mut chosen = None;
    for entry in entries {
        if enters(greedy, limit, best, chosen, *entry) {
            best = entry.number;
            chosen = Some(entry.column);
        }
    }
    chosen
}

/// The column that enters by the entries of a line.
fn entering(degenerate: u64, limit: usize, line: &Line) -> Option<usize>
    ensures { result ≡ entering degenerate limit (line_seen line.now) }
{
    entering_from(degenerate < PATIENCE, limit, &line.entries)
}

/// A row that may leave.
#[derive(Clone, Copy)]
struct Candidate {
    row: usize,
    quotient: Frac,
    rank: u128,
}

/// Whether a row leaves before another.
fn is_before(a: Candidate, b: Candidate) -> bool
    ensures { result ≡ leaves_before (candidate_seen a) (candidate_seen b) }
{
    match cmp_frac(a.quotient, b.quotient) {
        Ordering::Less => true,
        Ordering::Equal => a.rank < b.rank,
        Ordering::Greater => false,
    }
}

/// The better of the row that was chosen so far and one more.
fn better_of(chosen: Option<Candidate>, a: Candidate) -> Candidate
    ensures { candidate_seen result ≡ better (chosen_seen chosen) (candidate_seen a) }
{
    match chosen {
        None => a,
        Some(b) => { if is_before(a, b) { a } else { b } }
    }
}

/// A row's place at a tie: x0 leaves first, then the row with the least basic column.
fn rank(x0: Option<usize>, basic: usize) -> u128
    ensures { result ≡ rank_of x0 basic }
{
    match x0 {
        None => basic as u128,
        Some(column) => {
            if basic == column {
                0
            } else {
                basic as u128 + 1
            }
        }
    }
}

/// A right side, of which one below 0 counts as 0.
pub(crate) fn clipped(right: i128) -> i128
    ensures value { result ≡ clipped right }
    ensures range { InRange result }
{
    if right < 0 { 0 } else { right }
}

/// What was chosen so far or a row, where that can leave before it.
fn with_row(
    x0: Option<usize>,
    column: usize,
    row: usize,
    chosen: Option<Candidate>,
    tested: &GridRow,
) -> Option<Candidate>
    ensures { chosen_seen result ≡ chosen_with x0 column row (chosen_seen chosen) (row_seen tested.now) }
{
    let entry = entry_in(column, &tested.line.entries);
    if entry <= LEAST_LEAVING {
        return chosen;
    }
    let candidate = Candidate {
        row,
        quotient: ratio(clipped(tested.line.right), entry),
        rank: rank(x0, tested.basic),
    };
    Some(better_of(chosen, candidate))
}

/// The row that leaves for a column, if one can.
#[tactic(auto, unfolding(crate::specs::Rounds::leaving_from))]
fn leaving_from(x0: Option<usize>, column: usize, rows: &[GridRow]) -> Option<Candidate>
    ensures { chosen_seen result ≡ leaving_from x0 column 0 None (rows_seen rows.now) }
{
    let mut chosen = None;
    for (row, tested) in rows.iter().enumerate() {
        chosen = with_row(x0, column, row, chosen, tested);
    }
    chosen
}

/// The pivot in a column, in the row that leaves.
fn leaving(x0: Option<usize>, column: usize, rows: &[GridRow]) -> Due
    ensures { due_seen result ≡ leaving x0 column (rows_seen rows.now) }
{
    match leaving_from(x0, column, rows) {
        None => Due::Stuck,
        Some(candidate) => Due::Pivot(candidate.row, column),
    }
}

/// The row with the least right side below 0, the first of those.
#[tactic(auto, unfolding(crate::specs::Rounds::least_right))]
pub(crate) fn least_right(rows: &[GridRow]) -> Option<usize>
    ensures { result ≡ least_right 0 (pos 0) None (rows_seen rows.now) }
{
    let mut best = 0;
    let mut chosen = None;
    for (row, tested) in rows.iter().enumerate() {
        if tested.line.right < best {
            best = tested.line.right;
            chosen = Some(row);
        }
    }
    chosen
}

/// What is due.
pub(crate) fn due(state: &State) -> Due
    ensures { due_seen result ≡ due (state_seen state.now) }
{
    let last = state.columns.saturating_sub(1);
    match state.phase {
        Phase::Start => match least_right(&state.rows) {
            None => Due::Stuck,
            Some(row) => Due::Pivot(row, last),
        },
        Phase::One => match entering(state.degenerate, state.columns, &state.artificial) {
            None => Due::Stuck,
            Some(column) => leaving(Some(last), column, &state.rows),
        },
        Phase::Two => match entering(state.degenerate, state.columns, &state.cost) {
            None => Due::Optimal,
            Some(column) => leaving(None, column, &state.rows),
        },
    }
}
