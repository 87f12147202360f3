//! The program: its words are those after its name, its files those of the system, and its text goes to the
//! standard output. Its exit status is that of the call. While it works, a line on standard error says where it is, if that is a terminal.
#![tactic(auto)]

mod progress_line;

use io_edges::{DiskShelf, OutSink};
use osemosys_run::osemosys_watched;
use progress_line::ProgressLine;
use std::io::ErrorKind;
use std::process::ExitCode;
use std::{env, io};

/// The exit status where memory runs out for the words.
const OUT_OF_MEMORY: u8 = 8;

/// The exit status where the system refuses the words for another cause, as for one that isn't UTF-8.
const NO_WORDS: u8 = 10;

fn main(rt: HostRuntime) -> ExitCode {
    match words(&rt) {
        Ok(words) => {
            let mut shelf = DiskShelf::new(&rt);
            let mut out = OutSink::new(&rt);
            let mut line = ProgressLine::new(&rt);
            let status = osemosys_watched(rt.alloc(), &words, &mut shelf, &mut out, &mut line);
            line.remove();
            ExitCode::from(status.code())
        }
        Err(e) if e.kind() == ErrorKind::OutOfMemory => ExitCode::from(OUT_OF_MEMORY),
        Err(_) => ExitCode::from(NO_WORDS),
    }
}

// The words after the program's name.
fn words(rt: &HostRuntime) -> io::Result<Vec<String>> {
    let mut words = Vec::new(rt.alloc());
    for word in env::args(rt)?.skip(1) {
        words.push(word)?;
    }
    Ok(words)
}
