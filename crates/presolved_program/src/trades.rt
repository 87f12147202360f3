//! Free columns, removed by Fourier-Motzkin: each line that bounds one from above is combined with each that bounds it from below.

use crate::access::{at, empty_lists, filled, item, push_at, put};
use crate::entries::{Entry, plus_product, whole};
use crate::inequalities::Inequalities;
use crate::lines::{Line, combined, lines_of, number_in};
use crate::stop::Stop;
use exact_num::{Frac, difference, gcd, mul};
use std::alloc::Global;

/// More combinations at one column aren't made.
const MOST: usize = 100;

/// A combination of two lines, each times the least whole number that removes the column.
#[derive(Clone, Copy)]
pub struct Made {
    /// The line with a positive number at the column, and the one with a negative number.
    pub above: usize,
    pub below: usize,
    pub above_times: Frac,
    pub below_times: Frac,
    /// The combination.
    pub line: usize,
}

/// A free column, and the lines that bounded it.
#[derive(Drop)]
pub struct Merge {
    pub column: usize,
    pub above: Vec<usize>,
    pub below: Vec<usize>,
    pub made: Vec<Made>,
}

/// All lines, which of them are there still, and what was done.
#[derive(Drop)]
pub(crate) struct Trades {
    pub(crate) lines: Vec<Line>,
    pub(crate) on: Vec<bool>,
    pub(crate) merges: Vec<Merge>,
}

/// Removes the free columns, in ascending order.
pub(crate) fn without_trades(alloc: Global, all: &Inequalities) -> Result<Trades, Stop> {
    let lines = lines_of(alloc, all)?;
    let on = filled(alloc, true, lines.len())?;
    let mut trades = Trades {
        lines,
        on,
        merges: Vec::new(alloc),
    };
    let mut users = users_of(alloc, all, &trades.lines)?;
    for column in 0..all.free.len() {
        if at(&all.column_on, column)? && at(&all.free, column)? {
            remove(alloc, all, &mut trades, &mut users, column)?;
        }
    }
    Ok(trades)
}

/// For each free column the lines that have it.
fn users_of(alloc: Global, all: &Inequalities, lines: &[Line]) -> Result<Vec<Vec<usize>>, Stop> {
    let mut users = empty_lists(alloc, all.free.len())?;
    for (place, line) in lines.iter().enumerate() {
        add_users(all, &mut users, &line.entries, place)?;
    }
    Ok(users)
}

/// Notes a line at its free columns.
fn add_users(
    all: &Inequalities,
    users: &mut [Vec<usize>],
    entries: &[Entry],
    place: usize,
) -> Result<(), Stop> {
    for entry in entries {
        if at(&all.free, entry.at)? {
            push_at(users, entry.at, place)?;
        }
    }
    Ok(())
}

/// Combines the lines of a column, and switches them off.
fn remove(
    alloc: Global,
    all: &Inequalities,
    trades: &mut Trades,
    users: &mut [Vec<usize>],
    column: usize,
) -> Result<(), Stop> {
    let mut merge = merge_of(alloc, trades, item(users, column)?, column)?;
    if merge.above.len().saturating_mul(merge.below.len()) > MOST {
        return Err(Stop::GivenUp);
    }
    merge.made = combinations(alloc, all, trades, users, &merge)?;
    for place in merge.above.iter().chain(merge.below.iter()) {
        put(&mut trades.on, *place, false)?;
    }
    trades.merges.push(merge)?;
    Ok(())
}

/// Each line that bounds a column from above, combined with each that bounds it from below.
fn combinations(
    alloc: Global,
    all: &Inequalities,
    trades: &mut Trades,
    users: &mut [Vec<usize>],
    merge: &Merge,
) -> Result<Vec<Made>, Stop> {
    let mut combinations = Vec::new(alloc);
    for above in &merge.above {
        for below in &merge.below {
            let made = combine(alloc, trades, *above, *below, merge.column)?;
            let line = item(&trades.lines, made.line)?;
            add_users(all, users, &line.entries, made.line)?;
            combinations.push(made)?;
        }
    }
    Ok(combinations)
}

/// The lines that bound a column from above and from below, not combined yet.
fn merge_of(alloc: Global, trades: &Trades, users: &[usize], column: usize) -> Result<Merge, Stop> {
    let mut merge = Merge {
        column,
        above: Vec::new(alloc),
        below: Vec::new(alloc),
        made: Vec::new(alloc),
    };
    for place in users {
        if at(&trades.on, *place)? {
            let number = number_in(item(&trades.lines, *place)?, column);
            if number > 0 {
                merge.above.push(*place)?;
            } else if number < 0 {
                merge.below.push(*place)?;
            }
        }
    }
    Ok(merge)
}

/// Combines two lines by the least whole numbers that remove the column.
fn combine(
    alloc: Global,
    trades: &mut Trades,
    above: usize,
    below: usize,
    column: usize,
) -> Result<Made, Stop> {
    let upper = item(&trades.lines, above)?;
    let lower = item(&trades.lines, below)?;
    let positive = Entry::new(column, number_in(upper, column))?;
    let negative = Entry::new(column, difference(0, number_in(lower, column))?)?;
    let divisor = gcd(positive.number, negative.number);
    if divisor <= 0 {
        return Err(Stop::GivenUp);
    }
    let above_times = negative.number / divisor;
    let below_times = positive.number / divisor;
    let made = Made {
        above,
        below,
        above_times: whole(above_times)?,
        below_times: whole(below_times)?,
        line: trades.lines.len(),
    };
    let line = Line {
        entries: combined(
            alloc,
            &upper.entries,
            above_times,
            &lower.entries,
            below_times,
        )?,
        right: weighted(made, upper.right, lower.right)?,
        unit: upper.unit,
        origin: None,
    };
    trades.lines.push(line)?;
    trades.on.push(true)?;
    Ok(made)
}

/// The sum of two numbers, each times what its line was multiplied by.
pub fn weighted(made: Made, above: Frac, below: Frac) -> Result<Frac, Stop> {
    let first = mul(made.above_times, above)?;
    plus_product(first, made.below_times, below)
}
