//! The linear program as rows that read at most.

use crate::access::{at, empty_lists, filled, push_at, put};
use crate::entries::{Entry, whole};
use crate::floats::float_of;
use crate::stop::Stop;
use exact_num::{Frac, difference};
use row_core::kind_numbers::TRADE;
use row_core::{Row, RowName, Sense, Var};
use std::alloc::Global;
use written_method::Reduced;

/// What is looked for.
#[derive(Clone, Copy, PartialEq, Eq)]
pub enum Aim {
    /// A plan of least cost, with multipliers that bound it.
    Cheapest,
    /// Multipliers that show that there is no plan: no column costs anything.
    Refutation,
    /// A plan that costs nothing, where no column costs less: those that cost something stay 0.
    Costless,
}

/// Rows `a x <= b`, of columns that are at least 0 or free. Presolve switches rows and columns off.
#[derive(Drop)]
pub struct Inequalities {
    /// The entries of each row, ascending by column.
    pub rows: Vec<Vec<Entry>>,
    /// The entries of each column, ascending by row.
    pub columns: Vec<Vec<Entry>>,
    /// b, less what columns with a known value take of it.
    pub right: Vec<Frac>,
    /// b as it was.
    pub sides: Vec<f64>,
    pub names: Vec<RowName>,
    /// Whether a row reads at least, so that its numbers were negated.
    pub negated: Vec<bool>,
    /// What the named row was multiplied by.
    pub scales: Vec<Frac>,
    /// Whether a column may be below 0.
    pub free: Vec<bool>,
    pub costs: Vec<f64>,
    pub row_on: Vec<bool>,
    pub column_on: Vec<bool>,
}

/// The rows of a reduced program that read at most, for an aim.
pub fn inequalities_of(alloc: Global, reduced: &Reduced, aim: Aim) -> Result<Inequalities, Stop> {
    let mut all = without_rows(alloc, reduced)?;
    add_rows(alloc, &mut all, reduced, aim)?;
    Ok(all)
}

/// Adds the rows, and the costs for an aim.
fn add_rows(
    alloc: Global,
    all: &mut Inequalities,
    reduced: &Reduced,
    aim: Aim,
) -> Result<(), Stop> {
    for (row, scale) in reduced.rows.iter().zip(reduced.scales.iter()) {
        add_row(alloc, all, reduced.columns.as_slice(), row, *scale)?;
    }
    price(all, reduced)?;
    if aim != Aim::Cheapest {
        forget_costs(all, aim)?;
    }
    Ok(())
}

/// The columns alone.
fn without_rows(alloc: Global, reduced: &Reduced) -> Result<Inequalities, Stop> {
    let mut free = Vec::with_capacity(alloc, reduced.columns.len())?;
    for var in &reduced.columns {
        free.push(var.kind == TRADE)?;
    }
    no_rows(alloc, free)
}

/// Columns of which these are free, and no rows.
pub(crate) fn no_rows(alloc: Global, free: Vec<bool>) -> Result<Inequalities, Stop> {
    let count = free.len();
    Ok(Inequalities {
        rows: Vec::new(alloc),
        columns: empty_lists(alloc, count)?,
        right: Vec::new(alloc),
        sides: Vec::new(alloc),
        names: Vec::new(alloc),
        negated: Vec::new(alloc),
        scales: Vec::new(alloc),
        free,
        costs: filled(alloc, 0.0, count)?,
        row_on: Vec::new(alloc),
        column_on: filled(alloc, true, count)?,
    })
}

/// Adds a row; one that reads at least is negated. There is no equation among them.
fn add_row(
    alloc: Global,
    all: &mut Inequalities,
    vars: &[Var],
    row: &Row,
    scale: Frac,
) -> Result<(), Stop> {
    if row.sense == Sense::Equal || scale.num <= 0 {
        return Err(Stop::GivenUp);
    }
    let negated = row.sense == Sense::Least;
    let place = all.rows.len();
    let mut entries = Vec::with_capacity(alloc, row.entries.len())?;
    for (var, number) in &row.entries {
        let Ok(column) = vars.binary_search(var) else {
            return Err(Stop::GivenUp);
        };
        let signed = turned(*number, negated)?;
        entries.push(Entry::new(column, signed)?)?;
        push_at(&mut all.columns, column, Entry::new(place, signed)?)?;
    }
    all.rows.push(entries)?;
    let side = turned(row.rhs, negated)?;
    all.right.push(whole(side)?)?;
    all.sides.push(float_of(side))?;
    all.names.push(row.name)?;
    all.negated.push(negated)?;
    all.scales.push(scale)?;
    all.row_on.push(true)?;
    Ok(())
}

/// A number, or its negation.
fn turned(number: i128, negated: bool) -> Result<i128, Stop> {
    if negated {
        Ok(difference(0, number)?)
    } else {
        Ok(number)
    }
}

/// The cost of each column: `cost_own * z` and the numbers of the cost are `cost_rhs` together.
fn price(all: &mut Inequalities, reduced: &Reduced) -> Result<(), Stop> {
    let own = float_of(reduced.cost_own);
    for (var, number) in &reduced.cost {
        let Ok(column) = reduced.columns.binary_search(var) else {
            return Err(Stop::GivenUp);
        };
        put(&mut all.costs, column, -float_of(*number) / own)?;
    }
    Ok(())
}

/// Sets all costs to 0. Where a plan that costs nothing is looked for, columns that cost something are left out first.
pub(crate) fn forget_costs(all: &mut Inequalities, aim: Aim) -> Result<(), Stop> {
    for column in 0..all.costs.len() {
        let cost = at(&all.costs, column)?;
        if aim == Aim::Costless && cost != 0.0 {
            if cost < 0.0 || at(&all.free, column)? {
                return Err(Stop::GivenUp);
            }
            put(&mut all.column_on, column, false)?;
        }
        put(&mut all.costs, column, 0.0)?;
    }
    Ok(())
}
