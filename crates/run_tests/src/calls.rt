//! Calls of the program over files in memory.

use feed_tests::section;
use io_edges::{MemShelf, MemSink};
use osemosys_run::{Status, osemosys};
use std::alloc::Global;
use std::process::Abort;
use std::test::Fail;

/// The words that ask for the equations of the file.
pub(crate) const MPS: &[&str] = &["mps", "model.dat"];

/// The words that ask for a check of a plan, with and without multipliers.
pub(crate) const CHECK: &[&str] = &["check", "model.dat", "plan.csv"];

pub(crate) const CHECK_BOUND: &[&str] = &["check", "model.dat", "plan.csv", "multipliers.csv"];

/// The sets of the base example: one region, technology, fuel, timeslice, mode and year.
pub(crate) const SETS: &str =
    "set REGION := R; set TECHNOLOGY := T; set FUEL := F; set TIMESLICE := D; set MODE_OF_OPERATION := 1; set YEAR := 2020;";

/// A status, and the sink as it is afterwards.
pub(crate) type Ending = (Status, MemSink);

/// A file's name and what it holds.
pub(crate) type File<'a> = (&'a str, &'a [u8]);

/// A call over these files, where these calls of the shelf fail, into a sink with this room of which these calls fail.
pub(crate) fn call_over(
    alloc: Global,
    words: &[&str],
    files: &[File<'_>],
    failing: &[u64],
    out: MemSink,
) -> Result<Ending, Fail> {
    let mut shelf = MemShelf::new(alloc, failing)?;
    for (name, bytes) in files {
        shelf.put(name, bytes)?;
    }
    call_on(alloc, words, &mut shelf, out)
}

/// A call over this shelf.
pub(crate) fn call_on(
    alloc: Global,
    words: &[&str],
    shelf: &mut MemShelf,
    mut out: MemSink,
) -> Result<Ending, Fail> {
    let mut all = Vec::new(alloc);
    for word in words {
        all.push(String::from_str(alloc, word)?)?;
    }
    let status = osemosys(alloc, &all, shelf, &mut out);
    Ok((status, out))
}

/// The same over one file.
pub(crate) fn call_into(
    alloc: Global,
    words: &[&str],
    text: &[u8],
    failing: &[u64],
    out: MemSink,
) -> Result<Ending, Fail> {
    call_over(alloc, words, &[("model.dat", text)], failing, out)
}

/// A call over one file and ample room, where nothing fails.
pub(crate) fn call(alloc: Global, words: &[&str], text: &[u8]) -> Result<Ending, Fail> {
    let out = MemSink::new(alloc, 8000, &[])?;
    call_into(alloc, words, text, &[], out)
}

/// A call over the base example with these statements, a plan's file and one of multipliers, where these calls of the shelf fail.
pub(crate) fn call_check(
    alloc: Global,
    words: &[&str],
    statements: &str,
    plan: &str,
    multipliers: &str,
    failing: &[u64],
) -> Result<Ending, Fail> {
    let mut shelf = MemShelf::new(alloc, failing)?;
    shelf.put("model.dat", section(alloc, SETS, statements)?.as_bytes())?;
    shelf.put("plan.csv", plan.as_bytes())?;
    shelf.put("multipliers.csv", multipliers.as_bytes())?;
    let out = MemSink::new(alloc, 200, &[])?;
    call_on(alloc, words, &mut shelf, out)
}

/// The call ended with this exit status and this text.
pub(crate) fn assert_ends(rt: &impl Abort, ending: &Ending, code: u8, text: &str) {
    assert_eq!(rt; ending.1.bytes(), text.as_bytes());
    assert_eq!(rt; ending.0.code(), code, "{text}");
}
