//! What the rounded method finds of a book, beside numbers that were worked out by hand.

ghost use Rattle.std.specs.Prelude.{◌<◌};
ghost use Rattle.std.specs.List.{AllByRecursion};
ghost use Rattle.row_core.specs.declared.Row.{Row};
ghost use Rattle.row_core.specs.declared.cost_limit.TheConstants.{SPAN};
ghost use Rattle.command_answers.specs.BookPrograms.{IsProgramOf};

use crate::books::capacity_of;
use crate::numbers::{fraction_of, shown, within};
use call_stages::Unwatched;
use certificate_checker::{Verdict, check_plan};
use certified_answers::Certified;
use command_answers::{BookProgram, definers, guess_book, guess_rows, problem_laws};
use exact_num::{Frac, cmp_frac};
use presolved_program::float_of_frac;
use row_book::RowBook;
use row_core::Plan;
use span_finder::{RoundedSpan, round_span};
use std::io;

/// The gap, in millionths.
const GAP: u32 = 10;

/// The most pivots.
const PIVOTS: u64 = 1000;

/// Prints what the guesses find of a book.
pub fn print_rounded(
    rt: &HostRuntime,
    book: &RowBook,
    program: &BookProgram,
    least: &str,
) -> io::Result<()>
    requires { IsProgramOf book.now.rows book.now.vars program.now }
{
    print_found(
        rt,
        book,
        guess_book(rt.alloc(), book, program, GAP, PIVOTS, &mut Unwatched)?,
        least,
    )
}

/// Prints what they find of the rows of a book alone.
pub fn print_rows_alone(rt: &HostRuntime, book: &RowBook, least: &str) -> io::Result<()> {
    print_found(
        rt,
        book,
        guess_rows(rt.alloc(), book, None, GAP, PIVOTS, &mut Unwatched)?,
        least,
    )
}

/// Prints what they find of the rows of a book alone from their own plan, and whether that takes fewer pivots than from nothing.
pub fn print_started(rt: &HostRuntime, book: &RowBook, least: &str) -> io::Result<()> {
    let first = guess_rows(rt.alloc(), book, None, GAP, PIVOTS, &mut Unwatched)?;
    let Some(Certified::Optimal { plan, pivots, .. }) = first else {
        println!(rt; "nothing to start from")?;
        return Ok(());
    };
    let mut values = Vec::new(rt.alloc());
    for (_, value) in plan.entries() {
        values.push(float_of_frac(*value))?;
    }
    let found = guess_rows(rt.alloc(), book, Some(&values), GAP, PIVOTS, &mut Unwatched)?;
    let fewer = match &found {
        Some(Certified::Optimal { pivots: taken, .. }) => *taken < pivots,
        _ => false,
    };
    print_found(rt, book, found, least)?;
    if fewer {
        println!(rt; "by fewer pivots than from nothing")?;
    }
    Ok(())
}

/// Prints what they find of the rows of a book alone from values that mean nothing: 1 for each variable.
pub fn print_astray(rt: &HostRuntime, book: &RowBook, least: &str) -> io::Result<()> {
    let mut values = Vec::new(rt.alloc());
    for _ in book.vars() {
        values.push(1.0)?;
    }
    let found = guess_rows(rt.alloc(), book, Some(&values), GAP, PIVOTS, &mut Unwatched)?;
    print_found(rt, book, found, least)
}

/// Prints whether the cost that is found is at least the least one and the bound at most, and whether the checker accepts the plan with
/// this cost; or that there is no plan.
fn print_found(
    rt: &HostRuntime,
    book: &RowBook,
    found: Option<Certified>,
    least: &str,
) -> io::Result<()> {
    match found {
        Some(
            Certified::Optimal {
                plan,
                multipliers: _multipliers,
                cost,
                bound,
                pivots: _,
            },
        ) => {
            print_side(
                rt,
                "cost at least",
                least,
                cmp_frac(fraction_of(least), cost).is_le(),
                cost,
            )?;
            print_side(
                rt,
                "bound at most",
                least,
                cmp_frac(bound, fraction_of(least)).is_le(),
                bound,
            )?;
            if check_plan(book.rows(), book.vars(), &plan) == Verdict::Yes(cost) {
                println!(rt; "the plan has this cost")?;
            }
        }
        Some(
            Certified::Infeasible {
                multipliers: _multipliers,
                pivots: _,
            },
        ) => println!(rt; "no plan")?,
        Some(
            Certified::Unbounded {
                plan: _plan,
                direction: _direction,
                pivots: _,
            },
        ) => println!(rt; "no bound")?,
        None => println!(rt; "nothing")?,
    }
    Ok(())
}

/// Prints that a number is on its side of another, or else the number.
fn print_side(
    rt: &HostRuntime,
    words: &str,
    other: &str,
    holds: bool,
    number: Frac,
) -> io::Result<()> {
    if holds {
        println!(rt; "{words} {other}")?;
    } else {
        println!(rt; "not {words} {other}: {}", shown(rt.alloc(), number)?)?;
    }
    Ok(())
}

/// Prints whether the ends of a technology's NewCapacity, in plans whose cost is at most the limit, lie where they are looked for: `LOW FROM|LOW
/// TO|HIGH FROM|HIGH TO`; first of guesses from nothing, then from the plan at the upper end.
pub fn print_span(
    rt: &HostRuntime,
    book: &RowBook,
    technology: u16,
    limit: &str,
    ends: &str,
) -> io::Result<()>
    requires { AllByRecursion (λ (row : Row). row.name.eq < SPAN) book.now.rows }
{
    let Some(var) = capacity_of(book, technology) else {
        println!(rt; "no such technology")?;
        return Ok(());
    };
    let defs = definers(rt.alloc(), book)?;
    problem_laws(book);
    let limit = fraction_of(limit);
    let (rows, vars) = (book.rows(), book.vars());
    let nothing = Plan::of(Vec::new(rt.alloc()));
    let Some(first) = round_span(
        rt.alloc(),
        rows,
        &defs,
        vars,
        limit,
        var,
        &nothing,
        GAP,
        PIVOTS,
        &mut Unwatched,
    )?
    else {
        println!(rt; "nothing")?;
        return Ok(());
    };
    print_ends(rt, &first, ends)?;
    let near = &first.high_plan;
    let Some(again) = round_span(
        rt.alloc(),
        rows,
        &defs,
        vars,
        limit,
        var,
        near,
        GAP,
        PIVOTS,
        &mut Unwatched,
    )?
    else {
        println!(rt; "nothing from a plan")?;
        return Ok(());
    };
    print_ends(rt, &again, ends)
}

/// Prints whether both ends of a span lie where they are looked for.
fn print_ends(rt: &HostRuntime, span: &RoundedSpan, ends: &str) -> io::Result<()> {
    let mut ends = ends.split_ascii_whitespace();
    let from = ends.next().unwrap_or("");
    let to = ends.next().unwrap_or("");
    println!(rt; "low {}", within(rt.alloc(), span.low, from, to)?)?;
    let from = ends.next().unwrap_or("");
    let to = ends.next().unwrap_or("");
    println!(rt; "high {}", within(rt.alloc(), span.high, from, to)?)?;
    Ok(())
}
