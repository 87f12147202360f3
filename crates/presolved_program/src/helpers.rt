//! Columns that want to go one way.

use crate::access::{at, item, put};
use crate::inequalities::Inequalities;
use crate::steps::Step;
use crate::stop::Stop;
use std::alloc::Global;

/// What the entries of a column are in rows that are still there.
#[derive(Clone, Copy)]
struct Signs {
    positive: bool,
    negative: bool,
}

/// A column that isn't free, costs at least 0 and has positive entries alone is 0. One that costs nothing and has negative entries
/// alone can be made large enough: its rows go. Whether there was one.
pub(crate) fn drop_columns(
    alloc: Global,
    all: &mut Inequalities,
    steps: &mut Vec<Step>,
) -> Result<bool, Stop> {
    let mut found = false;
    for column in 0..all.columns.len() {
        if !at(&all.column_on, column)? || at(&all.free, column)? {
            continue;
        }
        let signs = signs_of(all, column)?;
        let cost = at(&all.costs, column)?;
        if cost >= 0.0 && !signs.negative {
            put(&mut all.column_on, column, false)?;
            found = true;
        } else if cost == 0.0 && !signs.positive {
            steps.push(helper(alloc, all, column)?)?;
            found = true;
        }
    }
    Ok(found)
}

/// The signs of a column's entries in rows that are still there.
fn signs_of(all: &Inequalities, column: usize) -> Result<Signs, Stop> {
    let mut signs = Signs {
        positive: false,
        negative: false,
    };
    for entry in item(&all.columns, column)? {
        if at(&all.row_on, entry.at)? {
            if entry.number > 0 {
                signs.positive = true;
            } else {
                signs.negative = true;
            }
        }
    }
    Ok(signs)
}

/// Switches a column and its rows off.
fn helper(alloc: Global, all: &mut Inequalities, column: usize) -> Result<Step, Stop> {
    put(&mut all.column_on, column, false)?;
    let mut rows = Vec::new(alloc);
    for entry in item(&all.columns, column)? {
        if at(&all.row_on, entry.at)? {
            rows.push(entry.at)?;
            put(&mut all.row_on, entry.at, false)?;
        }
    }
    Ok(Step::Helper { column, rows })
}
