//! Exact presolve: what can't move goes, until nothing changes.

use crate::annual::drop_implied;
use crate::bounds::fix_columns;
use crate::helpers::drop_columns;
use crate::inequalities::Inequalities;
use crate::steps::Step;
use crate::stop::Stop;
use crate::zeros::drop_rows;
use std::alloc::Global;

/// At most so many rounds are made.
const ROUNDS: usize = 1000;

/// What a round did.
#[derive(Clone, Copy, PartialEq, Eq)]
pub(crate) enum Round {
    Same,
    Changed,
    /// This row is false whatever its columns are.
    False(usize),
}

/// Switches rows and columns off, round by round, and notes the steps. A row that is false, where there is one.
pub(crate) fn presolve(
    alloc: Global,
    all: &mut Inequalities,
    steps: &mut Vec<Step>,
) -> Result<Option<usize>, Stop> {
    drop_implied(alloc, all)?;
    for _ in 0..ROUNDS {
        match one_round(alloc, all, steps)? {
            Round::Changed => {}
            Round::Same => break,
            Round::False(row) => return Ok(Some(row)),
        }
    }
    Ok(None)
}

/// One round: rows, then columns with equal bounds, then columns that want one direction.
fn one_round(alloc: Global, all: &mut Inequalities, steps: &mut Vec<Step>) -> Result<Round, Stop> {
    let rows = drop_rows(alloc, all, steps)?;
    if let Round::False(_) = rows {
        return Ok(rows);
    }
    let fixed = fix_columns(alloc, all, steps)?;
    let dropped = drop_columns(alloc, all, steps)?;
    if fixed || dropped {
        return Ok(Round::Changed);
    }
    Ok(rows)
}
