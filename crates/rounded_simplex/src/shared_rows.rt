//! The rows of the program, of which a row of the tableau is made, with what many of them have in common kept once.
//!
//! New capacity stands in each row that it limits until it is retired: the rows of a plant and a year, one for each timeslice, have
//! the same long list of new capacities, times the capacity factor of the timeslice. Where such rows come
//! together, their numbers are added up first, and the list is added once.

use sparse_factors::{Basis, Entry, Lists, SparseVector, at, put};
use std::alloc::{AllocError, Global};

/// A column with so many entries is a long one.
const LONG: usize = 24;
/// So many long columns are worth a list of their own.
const LEAST_SHARED: usize = 2;
/// Numbers that differ by less than this part of them are alike.
const LIKE: f64 = 1e-12;

/// A shared list, and what its numbers are multiplied by.
#[derive(Clone, Copy)]
struct Share {
    list: usize,
    factor: f64,
}

/// The rows of a program, each in two parts.
#[derive(Drop)]
pub(crate) struct SharedRows {
    /// What each row has for itself.
    own: Lists,
    /// What each row shares with others, if anything.
    shares: Vec<Option<Share>>,
    shared: Lists,
    /// By shared list: what it is multiplied by in the row of the tableau.
    sums: SparseVector,
}

impl SharedRows {
    /// The rows of a program by its columns.
    pub(crate) fn new(
        alloc: Global,
        by_column: &Lists,
        rows: usize,
        columns: usize,
    ) -> Result<SharedRows, AllocError> {
        let by_row = by_column.transposed(alloc, rows)?;
        let is_long = long_columns(alloc, by_column, columns)?;
        let mut shares = Vec::with_capacity(alloc, rows)?;
        for _ in 0..rows {
            shares.push(None)?;
        }
        let shared = shared_lists(alloc, &by_row, &is_long, &mut shares)?;
        Ok(SharedRows {
            own: own_parts(alloc, &by_row, &is_long, &shares)?,
            sums: SparseVector::zeros(alloc, shared.count())?,
            shares,
            shared,
        })
    }

    /// Adds to `row` the rows times their numbers in a row of the inverse, which goes by slots, with their slacks.
    pub(crate) fn add_product(
        &mut self,
        inverse_row: &SparseVector,
        basis: &Basis,
        row: &mut SparseVector,
    ) -> Result<(), AllocError> {
        self.sums.clear();
        for slot in inverse_row.listed() {
            let number = inverse_row.value(*slot);
            let line = basis.row_of_slot(*slot);
            row.set(basis.slack(line), number);
            row.subtract(self.own.list(line), -number);
            if let Some(share) = at(&self.shares, line, None) {
                let sum = self.sums.value(share.list) + number * share.factor;
                self.sums.set(share.list, sum);
            }
        }
        self.sums.gather()?;
        for list in self.sums.listed() {
            row.subtract(self.shared.list(*list), -self.sums.value(*list));
        }
        Ok(())
    }
}

/// Which columns are long.
fn long_columns(alloc: Global, by_column: &Lists, columns: usize) -> Result<Vec<bool>, AllocError> {
    let mut is_long = Vec::with_capacity(alloc, columns)?;
    for column in 0..columns {
        is_long.push(by_column.list(column).len() >= LONG)?;
    }
    Ok(is_long)
}

/// Whether an entry may be shared.
#[inline]
fn is_shareable(entry: Entry, is_long: &[bool]) -> bool {
    entry.value < 0.0 && at(is_long, entry.at, false)
}

/// Makes the shared lists, and notes which row has which.
fn shared_lists(
    alloc: Global,
    by_row: &Lists,
    is_long: &[bool],
    shares: &mut [Option<Share>],
) -> Result<Lists, AllocError> {
    let mut shared = Lists::none(alloc)?;
    let mut first = Vec::new(alloc);
    let mut other = Vec::new(alloc);
    let mut first_row = usize::MAX;
    let mut number = None;
    for (_, row) in marked_rows(alloc, by_row, is_long)?.iter() {
        take_shareable(by_row.list(*row), is_long, &mut other)?;
        match proportion(&first, &other) {
            Some(factor) => {
                let list = match number {
                    Some(list) => list,
                    None => {
                        let list = add_list(&mut shared, &first)?;
                        put(shares, first_row, Some(Share { list, factor: 1.0 }));
                        list
                    }
                };
                number = Some(list);
                put(shares, *row, Some(Share { list, factor }));
            }
            None => {
                take_shareable(by_row.list(*row), is_long, &mut first)?;
                first_row = *row;
                number = None;
            }
        }
    }
    Ok(shared)
}

/// Adds a list, and answers its number.
fn add_list(lists: &mut Lists, entries: &[Entry]) -> Result<usize, AllocError> {
    let number = lists.count();
    for entry in entries {
        lists.push(entry.at, entry.value)?;
    }
    lists.close()?;
    Ok(number)
}

/// The rows that have something to share, those with the same columns one after the other.
fn marked_rows(
    alloc: Global,
    by_row: &Lists,
    is_long: &[bool],
) -> Result<Vec<(u64, usize)>, AllocError> {
    let mut marked = Vec::new(alloc);
    for row in 0..by_row.count() {
        let mut mark = 0;
        let mut count: usize = 0;
        for entry in by_row.list(row) {
            if is_shareable(*entry, is_long) {
                mark = mixed(mark, entry.at);
                count = count.saturating_add(1);
            }
        }
        if count >= LEAST_SHARED {
            marked.push((mark, row))?;
        }
    }
    marked.sort()?;
    Ok(marked)
}

/// A mark that differs, but for chance, where any of the columns so far do.
fn mixed(mark: u64, column: usize) -> u64 {
    (mark ^ column as u64)
        .wrapping_mul(0x9e37_79b9_7f4a_7c15)
        .rotate_left(29)
}

/// Takes the entries of a row that may be shared.
fn take_shareable(
    entries: &[Entry],
    is_long: &[bool],
    taken: &mut Vec<Entry>,
) -> Result<(), AllocError> {
    taken.clear();
    for entry in entries {
        if is_shareable(*entry, is_long) {
            taken.push(*entry)?;
        }
    }
    Ok(())
}

/// By what the first list is to be multiplied to become the other one; none where they aren't in proportion, or there is nothing.
fn proportion(first: &[Entry], other: &[Entry]) -> Option<f64> {
    if first.is_empty() || first.len() != other.len() {
        return None;
    }
    let factor = other.first()?.value / first.first()?.value;
    for (one, two) in first.iter().zip(other.iter()) {
        let difference = two.value - factor * one.value;
        if one.at != two.at || difference.abs() > LIKE * two.value.abs() {
            return None;
        }
    }
    Some(factor)
}

/// The rows without what they share.
fn own_parts(
    alloc: Global,
    by_row: &Lists,
    is_long: &[bool],
    shares: &[Option<Share>],
) -> Result<Lists, AllocError> {
    let mut own = Lists::none(alloc)?;
    for (row, share) in shares.iter().enumerate() {
        for entry in by_row.list(row) {
            if share.is_none() || !is_shareable(*entry, is_long) {
                own.push(entry.at, entry.value)?;
            }
        }
        own.close()?;
    }
    Ok(own)
}
