//! Texts and numbers, case by case: each line of the file `cases` names a call and what it is given, and the line that is printed below it
//! is the answer. What the calls are is in `README.md`.
#![tactic(auto)]

mod answers;
mod arguments;
mod factors;
mod fractions;
mod members;
mod names;
mod numbers;
mod rows;
mod sections;
mod whole_data;

use crate::answers::answer_to;
use std::{fs, io};

/// The file of the cases.
const CASES: &str = "cases";

fn main(rt: HostRuntime) -> io::Result<()> {
    let cases = fs::read_to_string(&rt, CASES)?;
    for line in cases.lines() {
        if line.is_empty() || line.starts_with('#') {
            println!(rt; "{line}")?;
        } else {
            let answer = answer_to(&rt, line)?;
            println!(rt; "{line}\n  {answer}")?;
        }
    }
    Ok(())
}
