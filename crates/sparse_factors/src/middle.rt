//! The columns that are left: each is eliminated by the pivots before it, and then gets its own.

use crate::arrays::{at, filled, put};
use crate::entries::{Entry, is_large};
use crate::lists::Lists;
use crate::marks::Marks;
use crate::singles::LEAST_PIVOT;
use crate::waiting::{Found, Waiting};
use std::alloc::{AllocError, Global};

/// How large a pivot has to be beside the greatest entry of its column.
const LEAST_PART: f64 = 0.1;

/// One column while it is eliminated.
#[derive(Drop)]
struct Column {
    /// Its numbers, by row.
    values: Vec<f64>,
    seen: Vec<bool>,
    /// The rows that were seen, in that order.
    rows: Vec<usize>,
    /// The pivots that have still to be applied, by slot.
    pending: Marks,
}

/// Takes a pivot in each column that is left; false where a column had none.
pub(crate) fn take_rest(
    alloc: Global,
    matrix: &Lists,
    waiting: &Waiting,
    found: &mut Found,
) -> Result<bool, AllocError> {
    let mut room = Column::new(alloc, waiting.counts.len())?;
    let order = order(alloc, matrix, waiting, found)?;
    take_in_order(matrix, waiting, found, &order, &mut room)
}

/// Takes a pivot in each of these columns; false where one had none.
fn take_in_order(
    matrix: &Lists,
    waiting: &Waiting,
    found: &mut Found,
    order: &[(usize, usize)],
    room: &mut Column,
) -> Result<bool, AllocError> {
    let mut whole = true;
    for (_, place) in order.iter() {
        let column = waiting.column(*place);
        room.fill(matrix.list(column), found)?;
        room.eliminate(found)?;
        match room.pivot_row(&waiting.counts, found) {
            Some(row) => room.store(column, row, found)?,
            None => whole = false,
        }
        room.clear();
    }
    Ok(whole)
}

/// The columns that are left, by how many rows without a pivot they have.
fn order(
    alloc: Global,
    matrix: &Lists,
    waiting: &Waiting,
    found: &Found,
) -> Result<Vec<(usize, usize)>, AllocError> {
    let mut order = Vec::new(alloc);
    for place in 0..waiting.columns.len() {
        if !waiting.is_done(place) {
            let mut open: usize = 0;
            for entry in matrix.list(waiting.column(place)) {
                if !found.is_done(entry.at) {
                    open = open.saturating_add(1);
                }
            }
            order.push((open, place))?;
        }
    }
    order.sort()?;
    Ok(order)
}

impl Column {
    /// A column of zeros.
    fn new(alloc: Global, rows: usize) -> Result<Column, AllocError> {
        Ok(Column {
            values: filled(alloc, 0.0, rows)?,
            seen: filled(alloc, false, rows)?,
            rows: Vec::new(alloc),
            pending: Marks::none(alloc, rows)?,
        })
    }

    /// Takes the numbers of a column of the matrix.
    fn fill(&mut self, column: &[Entry], found: &Found) -> Result<(), AllocError> {
        for entry in column {
            put(&mut self.values, entry.at, entry.value);
            self.see(entry.at, found)?;
        }
        Ok(())
    }

    /// Notes a row that is met for the first time, and its pivot, if this has anything to apply.
    fn see(&mut self, row: usize, found: &Found) -> Result<(), AllocError> {
        put(&mut self.seen, row, true);
        self.rows.push(row)?;
        let slot = at(&found.slots, row, usize::MAX);
        if !found.lower.list(slot).is_empty() {
            self.pending.insert(slot);
        }
        Ok(())
    }

    /// Applies the pivots before it, in their order.
    fn eliminate(&mut self, found: &Found) -> Result<(), AllocError> {
        let mut from = 0;
        for _ in 0..self.values.len() {
            let Some(slot) = self.pending.next(from) else {
                break;
            };
            from = slot.saturating_add(1);
            self.pending.remove(slot);
            let row = at(&found.pivot_rows, slot, usize::MAX);
            let factor = at(&self.values, row, 0.0);
            if is_large(factor) {
                self.apply(found.lower.list(slot), factor, found)?;
            }
        }
        Ok(())
    }

    /// Takes `factor` times a column of L away.
    fn apply(&mut self, lower: &[Entry], factor: f64, found: &Found) -> Result<(), AllocError> {
        for entry in lower {
            if !at(&self.seen, entry.at, true) {
                self.see(entry.at, found)?;
            }
            let value = at(&self.values, entry.at, 0.0);
            put(&mut self.values, entry.at, value - factor * entry.value);
        }
        Ok(())
    }

    /// The row of least count among those whose number is large enough; none where all numbers are nearly 0.
    fn pivot_row(&self, counts: &[usize], found: &Found) -> Option<usize> {
        let most = self.greatest(found);
        if most < LEAST_PIVOT {
            return None;
        }
        let mut best = None;
        let mut best_key = (usize::MAX, usize::MAX);
        for row in self.rows.iter() {
            let value = at(&self.values, *row, 0.0);
            if !found.is_done(*row) && value.abs() >= LEAST_PART * most {
                let key = (at(counts, *row, usize::MAX), *row);
                if best.is_none() || key < best_key {
                    best = Some(*row);
                    best_key = key;
                }
            }
        }
        best
    }

    /// The greatest size of a number in a row without a pivot.
    fn greatest(&self, found: &Found) -> f64 {
        let mut most = 0.0;
        for row in self.rows.iter() {
            let size = at(&self.values, *row, 0.0).abs();
            if !found.is_done(*row) && size > most {
                most = size;
            }
        }
        most
    }

    /// Puts the numbers into L and U, with the pivot in `pivot_row`.
    fn store(&self, column: usize, pivot_row: usize, found: &mut Found) -> Result<(), AllocError> {
        let pivot = at(&self.values, pivot_row, 0.0);
        for row in self.rows.iter() {
            let value = at(&self.values, *row, 0.0);
            if *row != pivot_row && is_large(value) {
                found.add(*row, value, pivot)?;
            }
        }
        found.finish(column, pivot_row, pivot)
    }

    /// Makes all numbers 0.
    fn clear(&mut self) {
        for row in self.rows.iter() {
            put(&mut self.values, *row, 0.0);
            put(&mut self.seen, *row, false);
        }
        self.rows.clear();
    }
}
