//! The smaller program: presolve, Trade and equations done.

use crate::access::{at, empty_lists, filled, item, push_at, put};
use crate::entries::Entry;
use crate::equalities::{Equality, equalities_of};
use crate::expanding::expanded;
use crate::floats::float_of;
use crate::inequalities::{Aim, Inequalities, inequalities_of};
use crate::layout::Layout;
use crate::lines::Line;
use crate::presolve::presolve;
use crate::steps::Step;
use crate::stop::Stop;
use crate::trades::{Merge, Trades, without_trades};
use row_core::{Row, Var};
use std::alloc::Global;
use std::mem::swap;
use written_method::Reduced;

/// A linear program made smaller by exact steps, and all that undoes them.
#[derive(Drop)]
pub struct Program {
    pub all: Inequalities,
    pub steps: Vec<Step>,
    /// A row of the linear program that is false whatever the columns are.
    pub false_row: Option<usize>,
    pub lines: Vec<Line>,
    pub merges: Vec<Merge>,
    /// A line that is false whatever the columns are.
    pub false_line: Option<usize>,
    /// The lines that are left, ascending.
    pub left: Vec<usize>,
    /// The columns that are left, ascending.
    pub columns: Vec<usize>,
    /// The entries of each column in the lines that are left, ascending by line.
    pub uses: Vec<Vec<Entry>>,
    /// The greatest absolute number of each line that is left; 0 for another.
    pub tops: Vec<f64>,
    pub equalities: Vec<Equality>,
}

impl Program {
    /// Whether a row or a line is false whatever the columns are.
    pub fn is_false(&self) -> bool {
        self.false_row.is_some() || self.false_line.is_some()
    }
}

/// Makes a linear program smaller, for an aim. It gives up where a number doesn't fit, where a Trade needs too many
/// combinations, or where no column solves an equation.
pub fn prepare(alloc: Global, reduced: &Reduced, aim: Aim) -> Result<Program, Stop> {
    let all = inequalities_of(alloc, reduced, aim)?;
    prepared(alloc, all, aim)
}

/// Makes the linear program of named rows smaller, for an aim, without its exact elimination: the numbers of its rows are rounded, each
/// to some sixteen digits beside the greatest of its row. It gives up where `prepare` does.
pub fn prepare_rows(
    alloc: Global,
    rows: &[Row],
    vars: &[Var],
    layout: &Layout,
    aim: Aim,
) -> Result<Program, Stop> {
    let all = expanded(alloc, rows, vars, layout, aim)?;
    prepared(alloc, all, aim)
}

/// Makes rows that read at most smaller.
fn prepared(alloc: Global, rows: Inequalities, aim: Aim) -> Result<Program, Stop> {
    let mut program = unmade(alloc, rows);
    make(alloc, &mut program, aim)?;
    Ok(program)
}

/// The rows alone, before anything is made of them.
// (What is owned is made in one function and filled in another: each `?` of a function drops all that it owns, and each drop is proved.)
fn unmade(alloc: Global, all: Inequalities) -> Program {
    Program {
        all,
        steps: Vec::new(alloc),
        false_row: None,
        lines: Vec::new(alloc),
        merges: Vec::new(alloc),
        false_line: None,
        left: Vec::new(alloc),
        columns: Vec::new(alloc),
        uses: Vec::new(alloc),
        tops: Vec::new(alloc),
        equalities: Vec::new(alloc),
    }
}

/// Presolves the rows, removes Trade, and notes what is left. Of a program with a false row or line nothing is.
fn make(alloc: Global, program: &mut Program, aim: Aim) -> Result<(), Stop> {
    program.false_row = presolve(alloc, &mut program.all, &mut program.steps)?;
    if program.false_row.is_none() {
        let mut trades = without_trades(alloc, &program.all)?;
        take_lines(alloc, program, &mut trades)?;
    }
    if !program.is_false() {
        program.columns = columns_of(alloc, &program.all)?;
    }
    complete(alloc, program, aim)
}

/// Takes the lines, and notes which are left unless one is false.
fn take_lines(alloc: Global, program: &mut Program, trades: &mut Trades) -> Result<(), Stop> {
    program.false_line = false_line_of(trades)?;
    if program.false_line.is_none() {
        program.left = left_of(alloc, trades)?;
    }
    swap(&mut program.lines, &mut trades.lines);
    swap(&mut program.merges, &mut trades.merges);
    Ok(())
}

/// The lines that are still there and have entries.
fn left_of(alloc: Global, trades: &Trades) -> Result<Vec<usize>, Stop> {
    let mut left = Vec::new(alloc);
    for (place, line) in trades.lines.iter().enumerate() {
        if at(&trades.on, place)? && !line.entries.is_empty() {
            left.push(place)?;
        }
    }
    Ok(left)
}

/// The first line that is still there, has no entries, and isn't true.
fn false_line_of(trades: &Trades) -> Result<Option<usize>, Stop> {
    for (place, line) in trades.lines.iter().enumerate() {
        if at(&trades.on, place)? && line.entries.is_empty() && line.right.num < 0 {
            return Ok(Some(place));
        }
    }
    Ok(None)
}

/// The columns that are still there and aren't free.
fn columns_of(alloc: Global, all: &Inequalities) -> Result<Vec<usize>, Stop> {
    let mut columns = Vec::new(alloc);
    for column in 0..all.free.len() {
        if at(&all.column_on, column)? && !at(&all.free, column)? {
            columns.push(column)?;
        }
    }
    Ok(columns)
}

/// The columns of the lines that are left, their greatest numbers, and the equations among them.
fn complete(alloc: Global, program: &mut Program, aim: Aim) -> Result<(), Stop> {
    let count = program.all.free.len();
    program.uses = empty_lists(alloc, count)?;
    program.tops = filled(alloc, 0.0, program.lines.len())?;
    let mut counts = filled(alloc, 0, count)?;
    for place in &program.left {
        let mut top: f64 = 0.0;
        for entry in &item(&program.lines, *place)?.entries {
            let used = Entry::new(*place, entry.number)?;
            push_at(&mut program.uses, entry.at, used)?;
            let uses: usize = at(&counts, entry.at)?;
            put(&mut counts, entry.at, uses.saturating_add(1))?;
            top = top.max(float_of(entry.number).abs());
        }
        put(&mut program.tops, *place, top)?;
    }
    if aim != Aim::Refutation {
        program.equalities = equalities_of(alloc, &program.lines, &program.left, &counts)?;
    }
    Ok(())
}
