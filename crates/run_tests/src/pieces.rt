//! Files that are read byte by byte, and a report and a made file that are written byte by byte.

use crate::calls::{CHECK, Ending, MPS, SETS, assert_ends, call, call_check, call_into, call_on};
use crate::plan_records::{PLAN, file_of};
use feed_tests::{base_text, section};
use io_edges::{MemShelf, MemSink};
use std::alloc::Global;
use std::test::Fail;

/// A call for the equations of this text, which is read by a byte a call, where this call of the shelf fails.
fn call_by_bytes(alloc: Global, text: &str, number: u64) -> Result<Ending, Fail> {
    let mut shelf = MemShelf::in_pieces(alloc, &[number], 1)?;
    shelf.put("model.dat", text.as_bytes())?;
    let out = MemSink::new(alloc, 8000, &[])?;
    call_on(alloc, MPS, &mut shelf, out)
}

// The calls of the shelf are: begin, a read for each byte, a read that ends the file.
#[test]
fn a_file_read_byte_by_byte_is_read_whole_or_reported(rt: HostRuntime) -> Result<(), Fail> {
    let text = section(rt.alloc(), SETS, "")?;
    let last = (text.len() as u64).saturating_add(2);
    for number in [1, 2, 3, last / 2, last.saturating_sub(1), last] {
        let ending = call_by_bytes(rt.alloc(), &text, number)?;
        assert_ends(&rt, &ending, 6, "read fault file 1\n");
    }
    let ending = call_by_bytes(rt.alloc(), &text, last.saturating_add(1))?;
    assert_ends(&rt, &ending, 0, &base_text(rt.alloc())?);
    Ok(())
}

/// A call for a check of a plan, with both files read by a byte a call, where this call of the shelf fails.
fn check_by_bytes(alloc: Global, text: &str, plan: &str, number: u64) -> Result<Ending, Fail> {
    let mut shelf = MemShelf::in_pieces(alloc, &[number], 1)?;
    shelf.put("model.dat", text.as_bytes())?;
    shelf.put("plan.csv", plan.as_bytes())?;
    let out = MemSink::new(alloc, 200, &[])?;
    call_on(alloc, CHECK, &mut shelf, out)
}

// The second file is begun after the read that ends the first one.
#[test]
fn of_two_files_read_byte_by_byte_the_one_that_fails_is_told(rt: HostRuntime) -> Result<(), Fail> {
    let text = section(rt.alloc(), SETS, "")?;
    let plan = file_of(rt.alloc(), &[PLAN])?;
    let first = (text.len() as u64).saturating_add(2);
    let last = first.saturating_add((plan.len() as u64).saturating_add(2));
    let ending = check_by_bytes(rt.alloc(), &text, &plan, first)?;
    assert_ends(&rt, &ending, 6, "read fault file 1\n");
    for number in [first.saturating_add(1), first.saturating_add(2), last] {
        let ending = check_by_bytes(rt.alloc(), &text, &plan, number)?;
        assert_ends(&rt, &ending, 6, "read fault file 2\n");
    }
    let ending = check_by_bytes(rt.alloc(), &text, &plan, last.saturating_add(1))?;
    assert_ends(&rt, &ending, 0, "accepted\ncost 80\n");
    Ok(())
}

/// The words that ask for a report.
const SOLVE: &[&str] = &["solve", "model.dat"];

/// The report of the base example: 10 units of capacity and activity, each 5 and 3.
const BASE_REPORT: &str = "status solved
cost 80 80.000000
bound 80 80.000000
pivots 3
rounded 0
table NewCapacity
R,T,2020,10,10.000000
table TotalCapacityAnnual
R,T,2020,10,10.000000
table TotalTechnologyAnnualActivity
R,T,2020,10,10.000000
table ProductionByTechnologyAnnual
R,T,F,2020,10,10.000000
table UseByTechnologyAnnual
table TradeAnnual
table AnnualEmissions
table DiscountedCapitalInvestment
R,T,2020,50,50.000000
table DiscountedOperatingCost
R,T,2020,30,30.000000
table DiscountedTechnologyEmissionsPenalty
table DiscountedSalvageValue
table TotalDiscountedCost
R,2020,80,80.000000
table FuelPrice
R,D,F,2020,8,8.000000
end
";

/// How many bytes of the report of the base example are written before the call that fails: of its 611 bytes none, one, its first line, the
/// first of the next line, and all but the last.
static WRITTEN: [u16; 5] = [0, 1, 14, 15, 610];

#[test]
fn a_report_written_byte_by_byte_stops_at_the_call_that_fails(rt: HostRuntime) -> Result<(), Fail> {
    let text = section(rt.alloc(), SETS, "")?;
    for count in &WRITTEN {
        let out = MemSink::in_pieces(rt.alloc(), 1000, &[*count as u64 + 1], 1)?;
        let (status, out) = call_into(rt.alloc(), SOLVE, text.as_bytes(), &[], out)?;
        assert_eq!(rt; status.code(), 7);
        assert_eq!(rt; out.bytes().len(), *count as usize);
        assert!(rt; BASE_REPORT.as_bytes().starts_with(out.bytes()));
    }
    let out = MemSink::in_pieces(rt.alloc(), 1000, &[612], 1)?;
    let ending = call_into(rt.alloc(), SOLVE, text.as_bytes(), &[], out)?;
    assert_ends(&rt, &ending, 0, BASE_REPORT);
    Ok(())
}

/// What is written of a made file before the call that fails: nothing, one byte, its first line, the first byte of the next line.
static MADE: [&str; 4] = ["", "d", "data;\n", "data;\ns"];

#[test]
fn a_made_file_written_byte_by_byte_stops_at_the_call_that_fails(
    rt: HostRuntime,
) -> Result<(), Fail> {
    for prefix in &MADE {
        let failing = [(prefix.len() as u64).saturating_add(1)];
        let out = MemSink::in_pieces(rt.alloc(), 8000, &failing, 1)?;
        let ending = call_into(rt.alloc(), &["make", "3"], b"", &[], out)?;
        assert_ends(&rt, &ending, 7, prefix);
    }
    // What a sink holds that takes whole pieces is told by the cases of the program.
    let whole = call(rt.alloc(), &["make", "3"], b"")?;
    let out = MemSink::in_pieces(rt.alloc(), 8000, &[], 1)?;
    let (status, out) = call_into(rt.alloc(), &["make", "3"], b"", &[], out)?;
    assert_eq!(rt; status.code(), 0);
    assert_eq!(rt; out.bytes(), whole.1.bytes());
    Ok(())
}

// The data ends within a statement, and the plan isn't there.
#[test]
fn a_missing_plan_is_told_before_what_the_data_says(rt: HostRuntime) -> Result<(), Fail> {
    let words = ["check", "model.dat", "p"];
    let ending = call_check(rt.alloc(), &words, "set SEASON :=", "", "", &[])?;
    assert_ends(&rt, &ending, 6, "no such file 2\n");
    Ok(())
}
