//! A line after a pivot.

ghost use Rattle.std.specs.Prelude.{[], ◌≡◌, Some, OnOk, IfOk, IfErr};
ghost use Rattle.decimal_solver.specs.Lines.{cleared, merged, pivot_line, scaled_entries};
ghost use Rattle.decimal_solver.specs.Views.{IsMerging, IsNoMerge, IsNothing, entries_seen, line_seen};

use crate::lines::{entry_at, entry_in, push_entry};
use crate::numbers::{reduced_number, scaled_number};
use crate::states::{Entry, Line, Merging};
use certified_answers::NoAnswer;
use std::alloc::Global;

/// `near(f * a / d)` for each entry `a` in the columns before `limit`.
#[tactic(auto, unfolding(crate::specs::Lines::scaled_entries))]
fn scaled_entries(
    alloc: Global,
    f: i128,
    d: u128,
    limit: usize,
    entries: &[Entry],
) -> Result<Vec<Entry>, NoAnswer>
    ensures value { IfOk result (λ made. scaled_entries f d limit [] (entries_seen entries.now) ≡ Some (entries_seen made.items)) }
    ensures nothing { IfErr result (IsNothing (scaled_entries f d limit [] (entries_seen entries.now))) }
{
    let mut made = Vec::with_capacity(alloc, entries.len())?;
    for entry in entries {
        if entry.column < limit {
            let number = scaled_number(f, entry.number, d)?;
            push_entry(&mut made, entry.column, number)?;
        }
    }
    Ok(made)
}

/// The pivot row's new line: its entry in the column becomes 1.
pub(crate) fn pivot_line(
    alloc: Global,
    f: i128,
    column: usize,
    limit: usize,
    line: &Line,
) -> Result<Line, NoAnswer>
    ensures value { IfOk result (λ made. pivot_line f column limit (line_seen line.now) ≡ Some (line_seen made)) }
    ensures nothing { IfErr result (IsNothing (pivot_line f column limit (line_seen line.now))) }
{
    let p = entry_in(column, &line.entries).unsigned_abs();
    let entries = scaled_entries(alloc, f, p, limit, &line.entries)?;
    let right = scaled_number(f, line.right, p)?;
    Ok(Line { entries, right })
}

/// The next entry of a line less a multiple of the pivot row's, if one is left.
fn next_merged(
    q: i128,
    line: &[Entry],
    left: usize,
    pivot: &[Entry],
    right: usize,
) -> Result<Option<Merging>, NoAnswer>
    ensures next { IfOk result (IsMerging q line.now left pivot.now right) }
    ensures nothing { IfErr result (IsNoMerge q line.now left pivot.now right) }
{
    match entry_at(line, left) {
        None => match entry_at(pivot, right) {
            None => Ok(None),
            Some(r) => Ok(Some(Merging {
                column: r.column,
                number: reduced_number(q, r.number, 0)?,
                left,
                right: right + 1,
            })),
        },
        Some(a) => match entry_at(pivot, right) {
            None => Ok(Some(Merging {
                column: a.column,
                number: a.number,
                left: left + 1,
                right,
            })),
            Some(r) => {
                if r.column < a.column {
                    Ok(Some(Merging {
                        column: r.column,
                        number: reduced_number(q, r.number, 0)?,
                        left,
                        right: right + 1,
                    }))
                } else if r.column == a.column {
                    Ok(Some(Merging {
                        column: r.column,
                        number: reduced_number(q, r.number, a.number)?,
                        left: left + 1,
                        right: right + 1,
                    }))
                } else {
                    Ok(Some(Merging {
                        column: a.column,
                        number: a.number,
                        left: left + 1,
                        right,
                    }))
                }
            }
        },
    }
}

/// The entries of a line less `q` times those of the pivot row.
fn merged(alloc: Global, q: i128, line: &[Entry], pivot: &[Entry]) -> Result<Vec<Entry>, NoAnswer>
    ensures value { IfOk result (λ made. merged q [] (entries_seen line.now) (entries_seen pivot.now) ≡ Some (entries_seen made.items)) }
    ensures nothing { IfErr result (IsNothing (merged q [] (entries_seen line.now) (entries_seen pivot.now))) }
{
    let mut made = Vec::with_capacity(alloc, line.len())?;
    let mut left = 0;
    let mut right = 0;
    while let Some(next) = next_merged(q, line, left, pivot, right)? {
        push_entry(&mut made, next.column, next.number)?;
        left = next.left;
        right = next.right;
    }
    Ok(made)
}

/// Takes from a line its entry in the column, by the pivot row's new line. A line without an entry there stays.
pub(crate) fn clear(
    alloc: Global,
    column: usize,
    pivot: &Line,
    line: &mut Line,
) -> Result<(), NoAnswer>
    ensures value { OnOk result (cleared column (line_seen pivot.now) (line_seen line.old) ≡ Some (line_seen line.new)) }
    ensures nothing { IfErr result (IsNothing (cleared column (line_seen pivot.now) (line_seen line.old))) }
{
    let q = entry_in(column, &line.entries);
    if q == 0 {
        return Ok(());
    }
    let entries = merged(alloc, q, &line.entries, &pivot.entries)?;
    let right = reduced_number(q, pivot.right, line.right)?;
    *line = Line { entries, right };
    Ok(())
}
