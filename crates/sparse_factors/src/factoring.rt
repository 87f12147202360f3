//! The factors of a basis, made from nothing.

use crate::arrays::at;
use crate::basis::Basis;
use crate::factors::Factors;
use crate::lists::Lists;
use crate::waiting::{Found, Waiting};
use crate::{middle, singles};
use std::alloc::{AllocError, Global};
use std::mem::swap;

/// Factors the basis: first the slacks, then columns with one row, rows with one column, and the rest.
///
/// `matrix` has the columns of the linear program. The slots of the basis are given anew. Where the basis is singular, or has fewer
/// variables than there are rows, there are no factors, and slacks take the rows without a pivot.
pub fn factor(
    alloc: Global,
    matrix: &Lists,
    basis: &mut Basis,
) -> Result<Option<Factors>, AllocError> {
    let mut found = Found::new(alloc, basis.rows())?;
    match find(alloc, matrix, basis, &mut found)? {
        Some(first) => factors_of(alloc, basis, first, &mut found),
        None => {
            repair(basis, &found);
            Ok(None)
        }
    }
}

/// Finds the pivots, and answers how many of the first are those of slacks; None where a row has none.
// (What is owned is made in one function and filled in another: each `?` of a function drops all that it owns, and each drop is proved.)
fn find(
    alloc: Global,
    matrix: &Lists,
    basis: &Basis,
    found: &mut Found,
) -> Result<Option<usize>, AllocError> {
    take_slacks(basis, found)?;
    let first = found.pivot_rows.len();
    let mut waiting = Waiting::new(alloc, matrix, basis, found)?;
    let whole = take_others(alloc, matrix, &mut waiting, found)?;
    if whole && found.pivot_rows.len() >= basis.rows() {
        Ok(Some(first))
    } else {
        Ok(None)
    }
}

/// Takes the pivots of the columns that wait: first those that need no elimination. False where a column had none.
fn take_others(
    alloc: Global,
    matrix: &Lists,
    waiting: &mut Waiting,
    found: &mut Found,
) -> Result<bool, AllocError> {
    singles::take_columns(alloc, matrix, waiting, found)?;
    singles::take_rows(alloc, matrix, waiting, found)?;
    middle::take_rest(alloc, matrix, waiting, found)
}

/// Takes the pivots of the basic slacks.
fn take_slacks(basis: &Basis, found: &mut Found) -> Result<(), AllocError> {
    for row in 0..basis.rows() {
        let slack = basis.slack(row);
        if basis.is_basic(slack) {
            found.finish(slack, row, 1.0)?;
        }
    }
    Ok(())
}

/// Gives the slots in the order of the pivots.
fn place_all(basis: &mut Basis, found: &Found) {
    basis.clear();
    for (slot, row) in found.pivot_rows.iter().enumerate() {
        if let Some(variable) = at(&found.variables, *row, None) {
            basis.place(slot, variable);
        }
        basis.pair(slot, *row);
    }
}

/// Puts slacks into the rows that found no pivot.
fn repair(basis: &mut Basis, found: &Found) {
    basis.clear();
    for row in 0..basis.rows() {
        let variable = match at(&found.variables, row, None) {
            Some(variable) => variable,
            None => basis.slack(row),
        };
        basis.place(row, variable);
    }
}

/// Gives the slots, and makes the factors by them.
fn factors_of(
    alloc: Global,
    basis: &mut Basis,
    first: usize,
    found: &mut Found,
) -> Result<Option<Factors>, AllocError> {
    place_all(basis, found);
    let mut factors = Factors::none(alloc, basis.rows(), first, basis.room())?;
    fill(alloc, &mut factors, found, basis.room())?;
    Ok(Some(factors))
}

/// Moves what was found into the factors, by slots.
fn fill(
    alloc: Global,
    factors: &mut Factors,
    found: &mut Found,
    room: usize,
) -> Result<(), AllocError> {
    found.lower.rename(&found.slots);
    found.upper.rename(&found.slots);
    for _ in factors.rows..room {
        found.diagonal.push(1.0)?;
    }
    factors.lower_rows = found.lower.transposed(alloc, factors.rows)?;
    factors.upper_rows = found.upper.transposed(alloc, factors.rows)?;
    swap(&mut factors.lower, &mut found.lower);
    swap(&mut factors.upper, &mut found.upper);
    swap(&mut factors.diagonal, &mut found.diagonal);
    Ok(())
}
