//! The files of `check` and `compare`: which of them is missing, fails or is too long, and whose fault comes first.

use crate::calls::{CHECK, CHECK_BOUND, assert_ends, call_check, call_over};
use crate::plan_records::{CHAIN, ENERGY, PLAN, file_of};
use io_edges::MemSink;
use osemosys_run::{ReadStop, Status};
use std::test::Fail;

/// A byte more than 64 MiB.
const TOO_LONG: usize = 67_108_865;

/// Words with files that are missing, and the number of the first such file.
static MISSING: [(&[&str], u8, &str); 8] = [
    (&["check", "model.dat", "p"], 2, "no such file 2\n"),
    (&["check", "model.dat", "p", "m"], 2, "no such file 2\n"),
    (
        &["check", "model.dat", "plan.csv", "m"],
        3,
        "no such file 3\n",
    ),
    (&["check", "d", "p", "m"], 1, "no such file 1\n"),
    (
        &["check", "model.dat", "--proof", "p"],
        2,
        "no such file 2\n",
    ),
    (&["check", "--proof=p", "d"], 1, "no such file 1\n"),
    (
        &["compare", "model.dat", "plan.csv", "d", "p"],
        3,
        "no such file 3\n",
    ),
    (
        &["compare", "model.dat", "plan.csv", "model.dat", "p"],
        4,
        "no such file 4\n",
    ),
];

// The plan's file has no header, but no file is looked at before all are read.
#[test]
fn the_first_missing_file_is_told_before_what_any_says(rt: HostRuntime) -> Result<(), Fail> {
    for (words, file, line) in MISSING.iter() {
        let ending = call_check(rt.alloc(), *words, "", "", "", &[])?;
        assert!(rt;
            matches!(ending.0, Status::ReadFault(ReadStop::NoFile(number)) if number == *file)
        );
        assert_ends(&rt, &ending, 6, line);
    }
    Ok(())
}

/// The numbers of the shelf's calls for each file: begin, a read that takes the file, a read that ends it; and the line where one fails.
static CALLS: [([u64; 3], &str); 3] = [
    ([1, 2, 3], "read fault file 1\n"),
    ([4, 5, 6], "read fault file 2\n"),
    ([7, 8, 9], "read fault file 3\n"),
];

#[test]
fn a_failing_call_is_told_by_its_file(rt: HostRuntime) -> Result<(), Fail> {
    let plan = file_of(rt.alloc(), &[PLAN])?;
    let multipliers = file_of(rt.alloc(), &[CHAIN, ENERGY])?;
    for (numbers, line) in CALLS.iter() {
        for number in numbers {
            let failing = [*number];
            let ending = call_check(rt.alloc(), CHECK_BOUND, "", &plan, &multipliers, &failing)?;
            assert_ends(&rt, &ending, 6, line);
        }
    }
    let ending = call_check(rt.alloc(), CHECK_BOUND, "", &plan, &multipliers, &[10])?;
    assert_ends(&rt, &ending, 9, "rejected gap 10\n");
    Ok(())
}

/// A data file and a file of a plan, each on both sides.
static COMPARE: [&str; 5] = ["compare", "model.dat", "plan.csv", "model.dat", "plan.csv"];

/// The numbers of the shelf's calls for the files of the second side, as above.
static SECOND_CALLS: [([u64; 3], &str); 2] = [
    ([7, 8, 9], "read fault file 3\n"),
    ([10, 11, 12], "read fault file 4\n"),
];

// The first plan shows nothing, but no file is looked at before all are read.
#[test]
fn a_failing_call_of_the_second_scenario_is_told_by_its_file(rt: HostRuntime) -> Result<(), Fail> {
    let plan = file_of(rt.alloc(), &[PLAN])?;
    for (numbers, line) in SECOND_CALLS.iter() {
        for number in numbers {
            let failing = [*number];
            let ending = call_check(rt.alloc(), &COMPARE, "", &plan, "", &failing)?;
            assert_ends(&rt, &ending, 6, line);
        }
    }
    Ok(())
}

#[test]
fn a_plan_of_more_than_64_mib_is_too_long(rt: HostRuntime) -> Result<(), Fail> {
    let mut plan = Vec::new(rt.alloc());
    plan.resize(TOO_LONG, b'"')?;
    let files = [("model.dat", b"".as_slice()), ("plan.csv", plan.as_slice())];
    let out = MemSink::new(rt.alloc(), 200, &[])?;
    let ending = call_over(rt.alloc(), CHECK, &files, &[], out)?;
    assert_ends(&rt, &ending, 4, "refused too long file 2\n");
    Ok(())
}
