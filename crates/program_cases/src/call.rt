//! One call of the program.

use crate::cases::read_case;
use crate::seen_stages::SeenStages;
use crate::shown::print_shown;
use io_edges::{DiskShelf, MemSink};
use osemosys_run::{Status, WordFault, osemosys_watched};
use std::io;

/// The room of a text.
const ROOM: usize = 1 << 20;

/// Makes the call of a line of the file of cases, and prints the case's name, the exit status and what is shown of the text.
pub fn print_case(rt: &HostRuntime, line: &str) -> io::Result<()> {
    let case = read_case(rt.alloc(), line)?;
    let mut shelf = DiskShelf::new(rt);
    let mut out = MemSink::new(rt.alloc(), ROOM, &[])?;
    let mut seen = SeenStages::new(rt.alloc());
    let status = osemosys_watched(rt.alloc(), &case.words, &mut shelf, &mut out, &mut seen);
    println!(rt; "== {}", case.name)?;
    print_status(rt, &status)?;
    if case.shown == "stages" {
        println!(rt; "stages{}", seen.text())?;
        return Ok(());
    }
    let text = std::str::from_utf8(out.bytes()).unwrap_or("not UTF-8\n");
    print_shown(rt, case.shown, text)
}

/// Prints the exit status, and what is wrong with the words where they are refused.
fn print_status(rt: &HostRuntime, status: &Status) -> io::Result<()> {
    match status {
        Status::Words(fault) => println!(rt; "status {} {}", status.code(), word_of(*fault))?,
        _ => println!(rt; "status {}", status.code())?,
    }
    Ok(())
}

/// What is wrong with the words.
fn word_of(fault: WordFault) -> &'static str {
    match fault {
        WordFault::NoCommand => "NoCommand",
        WordFault::BadCommand => "BadCommand",
        WordFault::BadForm => "BadForm",
        WordFault::BadNumber => "BadNumber",
        WordFault::BadShow => "BadShow",
        WordFault::GapAlone => "GapAlone",
    }
}
