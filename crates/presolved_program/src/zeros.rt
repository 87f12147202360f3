//! Rows that are true of anything or of nothing, and rows that leave their columns nothing but 0.

use crate::access::{at, item, put};
use crate::inequalities::Inequalities;
use crate::presolve::Round;
use crate::steps::Step;
use crate::stop::Stop;
use std::alloc::Global;

/// What the columns of a row are that are still there.
#[derive(Clone, Copy)]
struct Look {
    count: usize,
    free: bool,
    negative: bool,
}

/// A row of positive entries alone, none at a free column, is false where its right side is below 0, and makes its columns 0 where that is 0.
/// Rows without entries go, or one of them is false.
pub(crate) fn drop_rows(
    alloc: Global,
    all: &mut Inequalities,
    steps: &mut Vec<Step>,
) -> Result<Round, Stop> {
    let mut round = Round::Same;
    for row in 0..all.rows.len() {
        if !at(&all.row_on, row)? {
            continue;
        }
        let look = look_at(all, row)?;
        let right = at(&all.right, row)?;
        let upward = !look.free && !look.negative;
        if upward && right.num < 0 {
            return Ok(Round::False(row));
        }
        if look.count == 0 {
            put(&mut all.row_on, row, false)?;
            round = Round::Changed;
        } else if upward && right.num == 0 {
            steps.push(zero(alloc, all, row)?)?;
            round = Round::Changed;
        }
    }
    Ok(round)
}

/// A look at the entries of a row whose columns are still there.
fn look_at(all: &Inequalities, row: usize) -> Result<Look, Stop> {
    let mut look = Look {
        count: 0,
        free: false,
        negative: false,
    };
    for entry in item(&all.rows, row)? {
        if at(&all.column_on, entry.at)? {
            look.count = look.count.saturating_add(1);
            look.free = look.free || at(&all.free, entry.at)?;
            look.negative = look.negative || entry.number < 0;
        }
    }
    Ok(look)
}

/// Switches a row and its columns off.
fn zero(alloc: Global, all: &mut Inequalities, row: usize) -> Result<Step, Stop> {
    put(&mut all.row_on, row, false)?;
    let mut columns = Vec::new(alloc);
    for entry in item(&all.rows, row)? {
        if at(&all.column_on, entry.at)? {
            columns.push(entry.at)?;
            put(&mut all.column_on, entry.at, false)?;
        }
    }
    Ok(Step::Zero { row, columns })
}
