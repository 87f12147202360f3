//! Rows as they are left by presolve, and combinations of them.

use crate::access::{at, item};
use crate::entries::{Entry, whole};
use crate::inequalities::Inequalities;
use crate::stop::Stop;
use exact_num::{Frac, div, product, total};
use std::alloc::Global;

/// A row `a x <= b`: one of those that presolve left, or a combination of two lines.
#[derive(Drop)]
pub struct Line {
    /// Ascending by column.
    pub entries: Vec<Entry>,
    pub right: Frac,
    /// A multiplier that is a short decimal times this is one for the named row.
    pub unit: Frac,
    /// The row that it is, where it isn't a combination.
    pub origin: Option<usize>,
}

/// The lines of the rows and columns that are still there.
pub fn lines_of(alloc: Global, all: &Inequalities) -> Result<Vec<Line>, Stop> {
    let mut lines = Vec::new(alloc);
    for row in 0..all.rows.len() {
        if at(&all.row_on, row)? {
            lines.push(line_of(alloc, all, row)?)?;
        }
    }
    Ok(lines)
}

/// The line of a row.
fn line_of(alloc: Global, all: &Inequalities, row: usize) -> Result<Line, Stop> {
    let mut entries = Vec::new(alloc);
    for entry in item(&all.rows, row)? {
        if at(&all.column_on, entry.at)? {
            entries.push(*entry)?;
        }
    }
    let scale = at(&all.scales, row)?;
    if scale.num == 0 {
        return Err(Stop::GivenUp);
    }
    Ok(Line {
        entries,
        right: at(&all.right, row)?,
        unit: div(whole(1)?, scale)?,
        origin: Some(row),
    })
}

/// The number of a line at a column, by binary search; 0 where it has none.
pub fn number_in(line: &Line, column: usize) -> i128 {
    match line.entries.binary_search_by_key(&column, |entry| entry.at) {
        Ok(place) => line.entries[place].number,
        Err(_) => 0,
    }
}

/// The sum of two lists, each times a number, without zeros.
pub(crate) fn combined(
    alloc: Global,
    a: &[Entry],
    a_times: i128,
    b: &[Entry],
    b_times: i128,
) -> Result<Vec<Entry>, Stop> {
    let mut made = Vec::with_capacity(alloc, a.len())?;
    let mut first: usize = 0;
    let mut second: usize = 0;
    for _ in 0..a.len().saturating_add(b.len()) {
        let left = a.get(first).copied();
        let right = b.get(second).copied();
        let column = column_of(left).min(column_of(right));
        let sum = total(
            product(number_of(left, column), a_times)?,
            product(number_of(right, column), b_times)?,
        )?;
        if sum != 0 {
            made.push(Entry::new(column, sum)?)?;
        }
        first = first.saturating_add(is_at(left, column));
        second = second.saturating_add(is_at(right, column));
    }
    Ok(made)
}

/// The column of an entry; past all columns where there is none.
fn column_of(entry: Option<Entry>) -> usize {
    match entry {
        Some(found) => found.at,
        None => usize::MAX,
    }
}

/// The number of an entry, where it is of this column; else 0.
fn number_of(entry: Option<Entry>, column: usize) -> i128 {
    match entry {
        Some(found) if found.at == column => found.number,
        _ => 0,
    }
}

/// 1 where the entry is of this column, else 0.
fn is_at(entry: Option<Entry>, column: usize) -> usize {
    match entry {
        Some(found) if found.at == column => 1,
        _ => 0,
    }
}
