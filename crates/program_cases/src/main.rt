//! Calls of the program, case by case: the file `cases` says with which words each is made and what of its text is shown, and the
//! files that the words name lie beside it. What is printed for each is its name, the exit status and the text.
#![tactic(auto)]

mod call;
mod cases;
mod seen_stages;
mod shown;

use crate::call::print_case;
use crate::cases::is_case;
use std::{fs, io};

/// The file of the cases.
const CASES: &str = "cases";

fn main(rt: HostRuntime) -> io::Result<()> {
    let cases = fs::read_to_string(&rt, CASES)?;
    for line in cases.lines() {
        if is_case(line) {
            print_case(&rt, line)?;
        }
    }
    Ok(())
}
