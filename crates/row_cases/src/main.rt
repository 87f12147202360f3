//! The rows of data sections, case by case: each line of the file `cases` names a data section, and the rows of some of its equations are
//! printed below it. What stands in a line is in `README.md`.
#![tactic(auto)]

mod cases;
mod lines;
mod models;

use crate::cases::{Case, read_case};
use crate::lines::{place_told, row_told};
use crate::models::model_of;
use row_book::{BookFail, RowBook};
use row_core::row_word;
use std::{fs, io};

/// The file of the cases.
const CASES: &str = "cases";

fn main(rt: HostRuntime) -> io::Result<()> {
    let cases = fs::read_to_string(&rt, CASES)?;
    for line in cases.lines() {
        println!(rt; "{line}")?;
        if !line.is_empty() && !line.starts_with('#') {
            print_rows(&rt, &read_case(line))?;
        }
    }
    Ok(())
}

/// Prints the rows of a case, or why there are none.
fn print_rows(rt: &HostRuntime, case: &Case<'_>) -> io::Result<()> {
    let Some(model) = model_of(rt, case)? else {
        return println!(rt; "no data");
    };
    let book = match RowBook::new(rt.alloc(), &model, if case.is_finer { 9 } else { 6 }) {
        Ok(book) => book,
        Err(BookFail::Width(place)) => {
            return println!(rt;
                "too wide: {}",
                place_told(rt.alloc(), &place, model.sets())?
            );
        }
        Err(BookFail::TooManyEntries) => return println!(rt; "too many entries"),
        Err(BookFail::Memory) => return Err(io::Error::from(io::ErrorKind::OutOfMemory)),
    };
    for (i, row) in book.rows().iter().enumerate() {
        if is_asked(case, row.name.eq) {
            let told = row_told(rt.alloc(), model.sets(), row)?;
            if case.tells_definitions {
                let is_definition = book.defined_by(i).is_some();
                println!(rt; "{told}{}", if is_definition { " defines" } else { "" })?;
            } else {
                println!(rt; "{told}")?;
            }
        }
    }
    Ok(())
}

/// The rows of this equation are asked for.
fn is_asked(case: &Case<'_>, eq: u8) -> bool {
    if eq < 1 || eq > 64 {
        return false;
    }
    case.equations.is_empty() || case.equations.split(' ').any(|word| word == row_word(eq))
}
