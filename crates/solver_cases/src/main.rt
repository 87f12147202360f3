//! The calls of the solving crates, case by case. Each of the files of cases has a case a line, whose fields are parted by `|`; lines
//! that are empty or begin with `#` are none.
#![tactic(auto)]

mod books;
mod checks;
mod ends;
mod guesses;
mod guessing;
mod lines;
mod models;
mod numbers;
mod programs;
mod rounded_ends;
mod small_rows;
mod verdicts;

use crate::checks::print_check;
use crate::ends::print_end;
use crate::guesses::print_guess;
use crate::models::print_model;
use std::{fs, io};

fn main(rt: HostRuntime) -> io::Result<()> {
    for line in fs::read_to_string(&rt, "checks")?.lines() {
        if is_case(line) {
            print_check(&rt, line)?;
        }
    }
    for line in fs::read_to_string(&rt, "programs")?.lines() {
        if is_case(line) {
            print_end(&rt, line)?;
        }
    }
    for line in fs::read_to_string(&rt, "guesses")?.lines() {
        if is_case(line) {
            print_guess(&rt, line)?;
        }
    }
    for line in fs::read_to_string(&rt, "books")?.lines() {
        if is_case(line) {
            print_model(&rt, line)?;
        }
    }
    Ok(())
}

/// The line is a case.
fn is_case(line: &str) -> bool {
    !line.is_empty() && !line.starts_with('#')
}
