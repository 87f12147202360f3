//! The columns that wait for a pivot, and the pivots that were found.

use crate::arrays::{at, filled, put};
use crate::basis::Basis;
use crate::entries::Entry;
use crate::lists::Lists;
use std::alloc::{AllocError, Global};

/// The pivots that were found, and the factors that they give, in rows of the matrix.
#[derive(Drop)]
pub(crate) struct Found {
    pub(crate) done: Vec<bool>,
    /// The variable of each row that has a pivot.
    pub(crate) variables: Vec<Option<usize>>,
    /// The row of each pivot.
    pub(crate) pivot_rows: Vec<usize>,
    /// The number of each row's pivot.
    pub(crate) slots: Vec<usize>,
    pub(crate) diagonal: Vec<f64>,
    pub(crate) lower: Lists,
    pub(crate) upper: Lists,
}

impl Found {
    /// No pivot yet.
    pub(crate) fn new(alloc: Global, rows: usize) -> Result<Found, AllocError> {
        Ok(Found {
            done: filled(alloc, false, rows)?,
            variables: filled(alloc, None, rows)?,
            pivot_rows: Vec::new(alloc),
            slots: filled(alloc, usize::MAX, rows)?,
            diagonal: Vec::new(alloc),
            lower: Lists::none(alloc)?,
            upper: Lists::none(alloc)?,
        })
    }

    /// Whether a row has its pivot. One that isn't there has.
    #[inline]
    pub(crate) fn is_done(&self, row: usize) -> bool {
        at(&self.done, row, true)
    }

    /// Ends a column: its pivot is `value` in `row`.
    pub(crate) fn finish(
        &mut self,
        variable: usize,
        row: usize,
        value: f64,
    ) -> Result<(), AllocError> {
        put(&mut self.slots, row, self.pivot_rows.len());
        put(&mut self.done, row, true);
        put(&mut self.variables, row, Some(variable));
        self.pivot_rows.push(row)?;
        self.diagonal.push(value)?;
        self.upper.close()?;
        self.lower.close()
    }

    /// Adds an entry to U where the row has its pivot, and else, divided by the pivot, to L.
    #[inline]
    pub(crate) fn add(&mut self, row: usize, value: f64, pivot: f64) -> Result<(), AllocError> {
        if self.is_done(row) {
            self.upper.push(row, value)
        } else {
            self.lower.push(row, value / pivot)
        }
    }
}

/// The basic columns that have no pivot yet.
#[derive(Drop)]
pub(crate) struct Waiting {
    /// The basic columns, ascending. What follows goes by the place in this list.
    pub(crate) columns: Vec<usize>,
    pub(crate) done: Vec<bool>,
    /// How many rows without a pivot a column has.
    pub(crate) open: Vec<usize>,
    /// By row: the places of the columns that have it.
    pub(crate) by_row: Lists,
    /// How many columns without a pivot a row has.
    pub(crate) counts: Vec<usize>,
}

impl Waiting {
    /// All basic columns.
    pub(crate) fn new(
        alloc: Global,
        matrix: &Lists,
        basis: &Basis,
        found: &Found,
    ) -> Result<Waiting, AllocError> {
        let mut waiting = Waiting {
            columns: Vec::new(alloc),
            done: Vec::new(alloc),
            open: Vec::new(alloc),
            by_row: Lists::unmade(alloc),
            counts: filled(alloc, 0, basis.rows())?,
        };
        waiting.fill(alloc, matrix, basis, found)?;
        Ok(waiting)
    }

    /// Takes all basic columns.
    fn fill(
        &mut self,
        alloc: Global,
        matrix: &Lists,
        basis: &Basis,
        found: &Found,
    ) -> Result<(), AllocError> {
        let mut lists = Lists::none(alloc)?;
        for column in 0..basis.columns() {
            if basis.is_basic(column) {
                self.columns.push(column)?;
                let open = add_open(&mut lists, matrix.list(column), found)?;
                self.open.push(open)?;
            }
        }
        self.done = filled(alloc, false, self.columns.len())?;
        self.by_row = lists.transposed(alloc, basis.rows())?;
        Ok(())
    }

    /// The matrix column at a place.
    #[inline]
    pub(crate) fn column(&self, place: usize) -> usize {
        at(&self.columns, place, usize::MAX)
    }

    /// Whether the column at a place has its pivot.
    #[inline]
    pub(crate) fn is_done(&self, place: usize) -> bool {
        at(&self.done, place, true)
    }
}

/// Ends a list of the entries in rows without a pivot, and answers how many they are.
fn add_open(lists: &mut Lists, column: &[Entry], found: &Found) -> Result<usize, AllocError> {
    let before = lists.size();
    for entry in column {
        if !found.is_done(entry.at) {
            lists.push(entry.at, entry.value)?;
        }
    }
    lists.close()?;
    Ok(lists.size().saturating_sub(before))
}
