//! Pivots that need no elimination: columns with one row left, and rows with one column left.

use crate::arrays::{at, count_up, put};
use crate::entries::Entry;
use crate::lists::Lists;
use crate::waiting::{Found, Waiting};
use std::alloc::{AllocError, Global};

/// A pivot of less than this is none.
pub(crate) const LEAST_PIVOT: f64 = 1e-9;

/// How large a row's only entry has to be beside the greatest of its column.
const LEAST_PART: f64 = 0.01;

/// Takes pivots in columns with one row left, until there are none.
pub(crate) fn take_columns(
    alloc: Global,
    matrix: &Lists,
    waiting: &mut Waiting,
    found: &mut Found,
) -> Result<(), AllocError> {
    let mut queue = Vec::new(alloc);
    for place in 0..waiting.columns.len() {
        if at(&waiting.open, place, 0) == 1 {
            queue.push(place)?;
        }
    }
    for turn in 0..waiting.columns.len() {
        if turn >= queue.len() {
            break;
        }
        let place = queue[turn];
        if !waiting.is_done(place) && at(&waiting.open, place, 0) == 1 {
            take_column(matrix, place, waiting, found, &mut queue)?;
        }
    }
    Ok(())
}

/// Takes the pivot in a column's last row, if it is large enough.
fn take_column(
    matrix: &Lists,
    place: usize,
    waiting: &mut Waiting,
    found: &mut Found,
    queue: &mut Vec<usize>,
) -> Result<(), AllocError> {
    let column = waiting.column(place);
    let Some(pivot) = last_open(matrix.list(column), found) else {
        return Ok(());
    };
    if pivot.value.abs() < LEAST_PIVOT {
        return Ok(());
    }
    for entry in matrix.list(column) {
        if found.is_done(entry.at) {
            found.upper.push(entry.at, entry.value)?;
        }
    }
    found.finish(column, pivot.at, pivot.value)?;
    put(&mut waiting.done, place, true);
    for entry in waiting.by_row.list(pivot.at) {
        let other = entry.at;
        if !at(&waiting.done, other, true) {
            let left = at(&waiting.open, other, 0).saturating_sub(1);
            put(&mut waiting.open, other, left);
            if left == 1 {
                queue.push(other)?;
            }
        }
    }
    Ok(())
}

/// The last entry in a row without a pivot.
fn last_open(column: &[Entry], found: &Found) -> Option<Entry> {
    let mut last = None;
    for entry in column {
        if !found.is_done(entry.at) {
            last = Some(*entry);
        }
    }
    last
}

/// Takes pivots in rows with one column left, until there are none.
pub(crate) fn take_rows(
    alloc: Global,
    matrix: &Lists,
    waiting: &mut Waiting,
    found: &mut Found,
) -> Result<(), AllocError> {
    count_rows(matrix, waiting, found);
    let rows = waiting.counts.len();
    let mut queue = Vec::new(alloc);
    for row in 0..rows {
        if !found.is_done(row) && at(&waiting.counts, row, 0) == 1 {
            queue.push(row)?;
        }
    }
    for turn in 0..rows {
        if turn >= queue.len() {
            break;
        }
        let row = queue[turn];
        if !found.is_done(row) && at(&waiting.counts, row, 0) == 1 {
            take_row(matrix, row, waiting, found, &mut queue)?;
        }
    }
    Ok(())
}

/// Counts the columns without a pivot in each row.
fn count_rows(matrix: &Lists, waiting: &mut Waiting, found: &Found) {
    for place in 0..waiting.columns.len() {
        if !waiting.is_done(place) {
            for entry in matrix.list(waiting.column(place)) {
                if !found.is_done(entry.at) {
                    count_up(&mut waiting.counts, entry.at);
                }
            }
        }
    }
}

/// Takes the pivot in a row's last column, if it is large enough beside the column's other entries.
fn take_row(
    matrix: &Lists,
    row: usize,
    waiting: &mut Waiting,
    found: &mut Found,
    queue: &mut Vec<usize>,
) -> Result<(), AllocError> {
    let mut place = usize::MAX;
    for entry in waiting.by_row.list(row) {
        if !waiting.is_done(entry.at) {
            place = entry.at;
        }
    }
    let column = waiting.column(place);
    let pivot = pivot_in(matrix.list(column), row, found);
    if pivot == 0.0 {
        return Ok(());
    }
    for entry in matrix.list(column) {
        if entry.at != row {
            found.add(entry.at, entry.value, pivot)?;
            if !found.is_done(entry.at) {
                let left = at(&waiting.counts, entry.at, 0).saturating_sub(1);
                put(&mut waiting.counts, entry.at, left);
                if left == 1 {
                    queue.push(entry.at)?;
                }
            }
        }
    }
    found.finish(column, row, pivot)?;
    put(&mut waiting.done, place, true);
    Ok(())
}

/// A column's entry in a row, or 0 where it is small beside the greatest entry in rows without a pivot.
fn pivot_in(column: &[Entry], row: usize, found: &Found) -> f64 {
    let mut pivot = 0.0;
    let mut most = 0.0;
    for entry in column {
        if !found.is_done(entry.at) {
            if entry.at == row {
                pivot = entry.value;
            }
            if entry.value.abs() > most {
                most = entry.value.abs();
            }
        }
    }
    if pivot.abs() < LEAST_PART * most {
        0.0
    } else {
        pivot
    }
}
