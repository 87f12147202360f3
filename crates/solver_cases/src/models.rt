//! What comes of the rows of a data file: `NAME|KIND|FILE`, and after `FILE` what the kind asks for.

ghost use Rattle.std.specs.Prelude.{◌<◌};
ghost use Rattle.std.specs.List.{AllByRecursion};
ghost use Rattle.row_core.specs.declared.Row.{Row};
ghost use Rattle.command_answers.specs.BookPrograms.{IsProgramOf};
ghost use Rattle.row_core.specs.declared.cost_limit.TheConstants.{SPAN};

use crate::books::{book_of, solve_program};
use crate::checks::COST;
use crate::lines::{multiplier_lines, program_lines};
use crate::numbers::{fractions_of, next_fraction, shown};
use crate::rounded_ends::{
    print_astray, print_rounded, print_rows_alone, print_span, print_started,
};
use crate::small_rows::{ACTIVITY, CAPACITY};
use command_answers::{BookProgram, eliminate_book, problem_of};
use row_book::RowBook;
use row_core::Plan;
use row_problem::{carry_direction, carry_multipliers, size_of};
use simplex_core::{End, kept_pivots};
use std::{fs, io};

/// The most pivots.
const PIVOTS: u64 = 1000;

/// Prints what the case asks for.
pub fn print_model(rt: &HostRuntime, line: &str) -> io::Result<()> {
    let mut fields = line.split('|');
    println!(rt; "== {}", fields.next().unwrap_or(""))?;
    let kind = fields.next().unwrap_or("");
    let text = fs::read_to_string(rt, fields.next().unwrap_or(""))?;
    let Ok(book) = book_of(rt.alloc(), &text) else {
        println!(rt; "no book")?;
        return Ok(());
    };
    let first = fields.next().unwrap_or("");
    if kind == "span" {
        let technology = first.parse::<u16>().unwrap_or(0);
        let limit = fields.next().unwrap_or("");
        return print_span(rt, &book, technology, limit, fields.next().unwrap_or(""));
    }
    match kind {
        "rows" => return print_rows_alone(rt, &book, first),
        "started" => return print_started(rt, &book, first),
        "astray" => return print_astray(rt, &book, first),
        _ => {}
    }
    let Ok(program) = eliminate_book(rt.alloc(), &book) else {
        println!(rt; "not eliminated")?;
        return Ok(());
    };
    match kind {
        "left" => print_left(rt, &program),
        "size" => print_size(rt, &book),
        "pivots" => print_pivots(rt, &book, &program),
        "multipliers" => print_multipliers(rt, &book, &program, first),
        "direction" => print_direction(rt, &book, &program, first),
        _ => print_rounded(rt, &book, &program, first),
    }
}

/// Prints how large the linear program may be.
fn print_size(rt: &HostRuntime, book: &RowBook) -> io::Result<()> {
    let size = size_of(book.rows(), book.vars());
    println!(rt; "{} inequalities, {} columns", size.rows, size.columns)?;
    Ok(())
}

/// Prints what is left of the rows.
fn print_left(rt: &HostRuntime, program: &BookProgram) -> io::Result<()> {
    print!(rt; "{}", program_lines(rt.alloc(), &program.reduced)?)?;
    Ok(())
}

/// Prints how many rows and columns are left, how many pivots lead to the optimum, and how many of them kept rows make.
fn print_pivots(rt: &HostRuntime, book: &RowBook, program: &BookProgram) -> io::Result<()>
    requires { IsProgramOf book.now.rows book.now.vars program.now }
{
    let reduced = &program.reduced;
    println!(rt;
        "{} rows, {} columns",
        reduced.rows.len(),
        reduced.columns.len()
    )?;
    match solve_program(rt.alloc(), book, program, PIVOTS) {
        Ok(End::Optimal { pivots, .. }) => println!(rt; "optimal after {pivots}")?,
        _ => println!(rt; "not optimal")?,
    }
    if let Some(kept) = kept_pivots(rt.alloc(), reduced, PIVOTS) {
        println!(rt; "{kept} by kept rows")?;
    }
    Ok(())
}

/// Prints the multipliers of all rows that come of those of the rows that are left.
fn print_multipliers(
    rt: &HostRuntime,
    book: &RowBook,
    program: &BookProgram,
    lambda: &str,
) -> io::Result<()>
    requires { IsProgramOf book.now.rows book.now.vars program.now }
{
    let lambda = fractions_of(rt.alloc(), lambda)?;
    if lambda.len() != program.reduced.rows.len() {
        println!(rt; "{} rows are left", program.reduced.rows.len())?;
        return Ok(());
    }
    let problem = problem_of(book, program);
    match carry_multipliers(rt.alloc(), &problem, &lambda, true) {
        Ok(made) => print!(rt; "{}", multiplier_lines(rt.alloc(), &made)?)?,
        Err(_) => println!(rt; "stopped")?,
    }
    Ok(())
}

/// Prints the cost of the direction along which the first activity and the first capacity change so.
fn print_direction(
    rt: &HostRuntime,
    book: &RowBook,
    program: &BookProgram,
    values: &str,
) -> io::Result<()>
    requires { IsProgramOf book.now.rows book.now.vars program.now }
{
    let mut words = values.split_ascii_whitespace();
    let activity = next_fraction(words.next());
    let capacity = next_fraction(words.next());
    let values = Plan::of(vec![in rt.alloc(); (ACTIVITY, activity), (CAPACITY, capacity)]?);
    let problem = problem_of(book, program);
    match carry_direction(rt.alloc(), &problem, &values) {
        Ok(direction) => println!(rt; "cost {}", shown(rt.alloc(), direction.value(COST))?)?,
        Err(_) => println!(rt; "stopped")?,
    }
    Ok(())
}
