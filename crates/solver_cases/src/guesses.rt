//! What the simplex in floating point guesses: `NAME|STARTS|ROWS|VALUES|RIGHT SIDES|COSTS|PIVOTS|LEAST`, the lists as `LinearProgram` has
//! them, how many pivots may be made, and the least cost where there is one.

use crate::guessing::{MISS, greatest_miss, inner, is_near, is_signed};
use call_stages::Unwatched;
use rounded_simplex::{Answer, Guess, LinearProgram, guess};
use std::alloc::{AllocError, Global};
use std::io;

/// The solver's tolerance.
const TOLERANCE: f64 = 1e-11;

/// Prints what is guessed.
pub fn print_guess(rt: &HostRuntime, line: &str) -> io::Result<()> {
    let alloc = rt.alloc();
    let mut fields = line.split('|');
    let name = fields.next().unwrap_or("");
    let program = LinearProgram {
        starts: counts(alloc, fields.next().unwrap_or(""))?,
        rows: counts(alloc, fields.next().unwrap_or(""))?,
        values: numbers(alloc, fields.next().unwrap_or(""))?,
        right_sides: numbers(alloc, fields.next().unwrap_or(""))?,
        raised_costs: Vec::new(alloc),
        lowered_costs: Vec::new(alloc),
    };
    let costs = fields.next().unwrap_or("");
    let program = with_costs(alloc, program, costs)?;
    let pivots = fields.next().unwrap_or("").parse::<u64>().unwrap_or(0);
    let least = fields.next().unwrap_or("");
    println!(rt; "== {name}")?;
    match guess(alloc, &program, &[], TOLERANCE, pivots, &mut Unwatched)? {
        Answer::Solved(found) => {
            print_found(rt, &program, &found, least)?;
            print_again(rt, &program, &found.basis, pivots)?;
        }
        Answer::NoPlan => println!(rt; "no plan")?,
        Answer::GivenUp => println!(rt; "given up")?,
    }
    Ok(())
}

/// Prints how many pivots a guess takes that starts where another one ended.
fn print_again(
    rt: &HostRuntime,
    program: &LinearProgram,
    basis: &[usize],
    pivots: u64,
) -> io::Result<()> {
    match guess(
        rt.alloc(),
        program,
        basis,
        TOLERANCE,
        pivots,
        &mut Unwatched,
    )? {
        Answer::Solved(found) => println!(rt; "{} pivots from there", found.pivots),
        Answer::NoPlan => println!(rt; "no plan from there"),
        Answer::GivenUp => println!(rt; "given up from there"),
    }
}

/// The program with the same costs for both phases.
fn with_costs(
    alloc: Global,
    program: LinearProgram,
    costs: &str,
) -> Result<LinearProgram, AllocError> {
    Ok(LinearProgram {
        raised_costs: numbers(alloc, costs)?,
        lowered_costs: numbers(alloc, costs)?,
        ..program
    })
}

/// Prints how many values and multipliers there are, whether they meet the rows and aren't negative, and whether both have the least cost.
fn print_found(
    rt: &HostRuntime,
    program: &LinearProgram,
    found: &Guess,
    least: &str,
) -> io::Result<()> {
    println!(rt;
        "{} values, {} multipliers",
        found.values.len(),
        found.multipliers.len()
    )?;
    if greatest_miss(program, &found.values) >= MISS {
        println!(rt; "a row is missed")?;
    }
    if !is_signed(&found.values) {
        println!(rt; "a value is below 0")?;
    }
    if !is_signed(&found.multipliers) {
        println!(rt; "a multiplier is below 0")?;
    }
    print_near(
        rt,
        "cost",
        inner(&program.lowered_costs, &found.values),
        least,
    )?;
    print_near(
        rt,
        "bound",
        -inner(&program.right_sides, &found.multipliers),
        least,
    )?;
    if found.values.is_empty() {
        println!(rt; "{} pivots", found.pivots)?;
    }
    Ok(())
}

/// Prints the least cost where the number is near it, or else the number.
fn print_near(rt: &HostRuntime, word: &str, number: f64, least: &str) -> io::Result<()> {
    if is_near(number, decimal(least)) {
        println!(rt; "{word} {least}")?;
    } else {
        println!(rt; "{word} {number}")?;
    }
    Ok(())
}

/// The number of the text, not a number where it is none.
fn decimal(text: &str) -> f64 {
    text.parse::<f64>().unwrap_or(f64::NAN)
}

/// Numbers with blanks between.
fn numbers(alloc: Global, text: &str) -> Result<Vec<f64>, AllocError> {
    let mut all = Vec::new(alloc);
    for word in text.split_ascii_whitespace() {
        all.push(decimal(word))?;
    }
    Ok(all)
}

/// Places with blanks between; one that doesn't fit is the greatest.
fn counts(alloc: Global, text: &str) -> Result<Vec<usize>, AllocError> {
    let mut all = Vec::new(alloc);
    for word in text.split_ascii_whitespace() {
        all.push(word.parse::<usize>().unwrap_or(usize::MAX))?;
    }
    Ok(all)
}
