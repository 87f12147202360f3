//! Equations, and the column that solves each of them.

use crate::access::{at, filled, item, put};
use crate::lines::Line;
use crate::mirrors::mirrors_of;
use crate::stop::Stop;
use exact_num::{fits, gcd};
use std::alloc::Global;

/// Two lines that are each other's mirror, and a column that is in no other equation.
#[derive(Clone, Copy)]
pub struct Equality {
    pub first: usize,
    pub second: usize,
    pub column: usize,
}

/// How well a column solves an equation: the part of its number beside factors of 2 and 5, the count of its lines, and its place. The
/// least is taken.
type Choice = (i128, usize, usize);

/// The equations among the lines that are left, each with its column. `uses` counts the lines of each column.
pub fn equalities_of(
    alloc: Global,
    lines: &[Line],
    left: &[usize],
    uses: &[usize],
) -> Result<Vec<Equality>, Stop> {
    let mirrors = mirrors_of(alloc, lines, left)?;
    let mut counts: Vec<usize> = filled(alloc, 0, uses.len())?;
    for (first, _) in &mirrors {
        for entry in &item(lines, *first)?.entries {
            let count = at(&counts, entry.at)?;
            put(&mut counts, entry.at, count.saturating_add(1))?;
        }
    }
    let mut made = Vec::with_capacity(alloc, mirrors.len())?;
    for (first, second) in &mirrors {
        let column = solver_of(item(lines, *first)?, &counts, uses)?;
        made.push(Equality {
            first: *first,
            second: *second,
            column,
        })?;
    }
    Ok(made)
}

/// The column of a line that solves it best.
fn solver_of(line: &Line, counts: &[usize], uses: &[usize]) -> Result<usize, Stop> {
    let divisor = divisor_of(line);
    let mut best: Option<Choice> = None;
    for entry in &line.entries {
        if at(counts, entry.at)? != 1 {
            continue;
        }
        let choice = (
            part_beside_ten(entry.number, divisor),
            at(uses, entry.at)?,
            entry.at,
        );
        if best.is_none_or(|old| choice < old) {
            best = Some(choice);
        }
    }
    match best {
        Some((_, _, column)) => Ok(column),
        None => Err(Stop::GivenUp),
    }
}

/// The greatest common divisor of the numbers of a line; 1 where it has none.
pub fn divisor_of(line: &Line) -> i128 {
    let mut divisor: i128 = 0;
    for entry in &line.entries {
        if divisor == 1 || !fits(divisor) {
            return 1;
        }
        divisor = gcd(divisor, entry.number);
    }
    if divisor > 0 { divisor } else { 1 }
}

/// A number over a divisor, without its factors of 2 and 5 and without its sign.
fn part_beside_ten(number: i128, divisor: i128) -> i128 {
    if divisor <= 0 {
        return number;
    }
    let mut rest = (number / divisor).saturating_abs();
    for factor in [2, 5] {
        for _ in 0..127 {
            if rest % factor != 0 {
                break;
            }
            rest = rest / factor;
        }
    }
    rest
}
