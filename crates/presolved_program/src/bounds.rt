//! Columns that rows of one entry bound from both sides by the same value.

use crate::access::{at, filled, item, put};
use crate::entries::{Entry, less_product, quotient};
use crate::inequalities::Inequalities;
use crate::steps::Step;
use crate::stop::Stop;
use exact_num::{Frac, cmp_frac};
use std::alloc::Global;

/// What a row of one entry says of its column.
#[derive(Clone, Copy)]
struct Bound {
    value: Frac,
    row: usize,
}

/// The narrowest bounds of each column.
#[derive(Drop)]
struct Bounds {
    above: Vec<Option<Bound>>,
    below: Vec<Option<Bound>>,
}

/// A column with equal bounds has that value: it goes, with the two rows, and the right sides take it. Whether there was one.
pub(crate) fn fix_columns(
    alloc: Global,
    all: &mut Inequalities,
    steps: &mut Vec<Step>,
) -> Result<bool, Stop> {
    let bounds = bounds_of(alloc, all)?;
    let mut found = false;
    for column in 0..all.columns.len() {
        if let Some(above) = at(&bounds.above, column)?
            && let Some(below) = at(&bounds.below, column)?
            && above.value == below.value
            && at(&all.column_on, column)?
        {
            put(&mut all.row_on, above.row, false)?;
            put(&mut all.row_on, below.row, false)?;
            put(&mut all.column_on, column, false)?;
            take_value(all, column, above.value)?;
            steps.push(Step::Equal {
                column,
                value: above.value,
                below: below.row,
                above: above.row,
            })?;
            found = true;
        }
    }
    Ok(found)
}

/// The bounds that rows of one entry give.
fn bounds_of(alloc: Global, all: &Inequalities) -> Result<Bounds, Stop> {
    let count = all.columns.len();
    let mut bounds = Bounds {
        above: filled(alloc, None, count)?,
        below: filled(alloc, None, count)?,
    };
    for row in 0..all.rows.len() {
        if at(&all.row_on, row)?
            && let Some(entry) = only_entry(all, row)?
            && !at(&all.free, entry.at)?
        {
            let value = quotient(at(&all.right, row)?, entry.value())?;
            let new = Bound { value, row };
            if entry.number > 0 {
                narrow(&mut bounds.above, entry.at, new, true)?;
            } else {
                narrow(&mut bounds.below, entry.at, new, false)?;
            }
        }
    }
    Ok(bounds)
}

/// The entry of a row that has one.
fn only_entry(all: &Inequalities, row: usize) -> Result<Option<Entry>, Stop> {
    let mut only = None;
    for entry in item(&all.rows, row)? {
        if at(&all.column_on, entry.at)? {
            if only.is_some() {
                return Ok(None);
            }
            only = Some(*entry);
        }
    }
    Ok(only)
}

/// Keeps the narrower bound.
fn narrow(
    bounds: &mut [Option<Bound>],
    column: usize,
    new: Bound,
    above: bool,
) -> Result<(), Stop> {
    let narrower = match at(bounds, column)? {
        None => true,
        Some(old) if above => cmp_frac(new.value, old.value).is_lt(),
        Some(old) => cmp_frac(old.value, new.value).is_lt(),
    };
    if narrower {
        put(bounds, column, Some(new))?;
    }
    Ok(())
}

/// Takes the value of a column from the right sides.
fn take_value(all: &mut Inequalities, column: usize, value: Frac) -> Result<(), Stop> {
    for entry in item(&all.columns, column)? {
        let right = at(&all.right, entry.at)?;
        put(
            &mut all.right,
            entry.at,
            less_product(right, entry.value(), value)?,
        )?;
    }
    Ok(())
}
