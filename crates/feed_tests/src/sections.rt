//! The text of rows, written over a source that makes them one by one.

ghost use Rattle.std.specs.Prelude.{◌≡◌, true};
ghost use Rattle.std.specs.List.{AllByRecursion};
ghost use Rattle.row_book.specs.Books.{IsWithinSets};
ghost use Rattle.row_book.specs.Feeds.{HasContentsWithin};
ghost use Rattle.row_core.specs.Equations.{IsEquation};
ghost use Rattle.row_core.specs.Numbers.{ascends};
ghost use Rattle.row_core.specs.Order.{var_cmp};
ghost use Rattle.row_core.specs.Sources.{AreInOrder};

use crate::base_example::base_text;
use crate::counted::Counted;
use crate::data_sections::section;
use io_edges::SureSink;
use mathprog_data::read_blocks;
use mps_writer::{MpsFail, mps_to};
use param_tables::{ModelData, build, sets_of};
use row_book::RowFeed;
use row_core::equation_numbers::CAA4;
use row_core::{RowSource, Var};
use std::alloc::Global;
use std::test::Fail;

/// The sets of the base example.
const SETS: &str =
    "set REGION := R; set TECHNOLOGY := T; set FUEL := F; set TIMESLICE := D; set MODE_OF_OPERATION := 1; set YEAR := 2020;";

/// Writes the text of the rows.
fn write_counted(
    alloc: Global,
    model: &ModelData,
    rows: &mut Counted<'_>,
    vars: &[Var],
    out: &mut SureSink,
) -> Result<(), MpsFail>
    requires named { AllByRecursion (HasContentsWithin model.now.facts.sets) rows.old.feed.rows }
    requires in_order { AreInOrder rows.old.feed.rows }
    requires within { AllByRecursion (IsWithinSets model.now.facts.sets) vars.now }
    requires ascending { ascends var_cmp vars.now ≡ true }
{
    mps_to(alloc, rows, vars, model.sets(), out)
}

/// The data of these sets with the default of every parameter.
fn model_of(alloc: Global, sets: &str) -> Result<ModelData, Fail> {
    let text = section(alloc, sets, "")?;
    if text.len() > 1_000_000 {
        return Err(Fail::from("the text is long"));
    }
    let blocks = read_blocks(alloc, text.as_bytes())?;
    let sets = sets_of(alloc, &blocks)?;
    match build(alloc, &blocks, sets) {
        Ok(model) => Ok(model),
        Err(_) => Err(Fail::from("the data are refused")),
    }
}

/// The text of the rows of a model, of so many bytes at most, and how often the rows of CAa1 were begun for it.
fn text_of(alloc: Global, model: &ModelData, room: usize) -> Result<(SureSink, u64), Fail> {
    let Ok((feed, vars)) = RowFeed::new(alloc, model, 6) else {
        return Err(Fail::from("the rows are refused"));
    };
    let mut rows = Counted { feed, begun: 0 };
    let mut out = SureSink::new(alloc, room)?;
    match write_counted(alloc, model, &mut rows, &vars, &mut out) {
        Ok(()) => Ok((out, rows.begun)),
        Err(_) => Err(Fail::from("the text isn't written")),
    }
}

#[test]
fn rows_are_begun_again_for_each_section_and_kind(rt: HostRuntime) -> Result<(), Fail> {
    let alloc = rt.alloc();
    let model = model_of(alloc, SETS)?;
    let (out, begun) = text_of(alloc, &model, 100_000)?;
    assert_eq!(rt; out.bytes(), base_text(alloc)?.as_bytes());
    // For the rows, for NewCapacity, for AccumulatedNewCapacity, and for the right sides.
    assert!(rt; begun >= 4);
    Ok(())
}

/// Appends a statement for a set with the members 1 to `count`.
fn push_numbers(alloc: Global, sets: &mut String, word: &str, count: u16) -> Result<(), Fail> {
    sets.push_str(format!(in alloc; " set {word} :=")?.as_str())?;
    for number in 1..=count {
        sets.push_str(format!(in alloc; " {number}")?.as_str())?;
    }
    Ok(sets.push(';')?)
}

/// The positions of the first and of the last row of the equation, where each row has two entries and comes right after the
/// one before.
fn first_and_last(feed: &mut RowFeed<'_>, eq: u8) -> Result<Option<(u64, u64)>, Fail>
    requires { IsEquation eq }
{
    feed.start(eq);
    let mut ends = None;
    for _ in 0..1_000_000 {
        let Some((number, row)) = feed.next()? else {
            return Ok(ends);
        };
        if row.name.eq != eq || row.entries.len() != 2 {
            return Err(Fail::from("a row of another kind"));
        }
        ends = match ends {
            None => Some((number, number)),
            Some((first, last)) if number > last && number - last == 1 => Some((first, number)),
            Some(_) => return Err(Fail::from("a row is left out")),
        };
    }
    Err(Fail::from("there are more rows"))
}

// Of the technologies, timeslices and years CAa3 has 134,400 rows with two entries each, and CAa4 as many. Those of CAa3 are
// held; with those of CAa4 there would be more than 500,000 entries. Before CAa4 stand 560 rows of EQ_SpecifiedDemand, 480 of
// CAa1, 480 of CAa2 and those of CAa3. Each of the two kinds of variables has more than 131,072 entries, which are sorted in
// pieces.
#[test]
fn rows_that_are_not_held_are_made_again(rt: HostRuntime) -> Result<(), Fail> {
    let alloc = rt.alloc();
    let mut sets = String::from_str(
        alloc,
        "set REGION := R; set FUEL := F; set MODE_OF_OPERATION := 1; set YEAR := 2020 2021;",
    )?;
    push_numbers(alloc, &mut sets, "TECHNOLOGY", 240)?;
    push_numbers(alloc, &mut sets, "TIMESLICE", 280)?;
    let model = model_of(alloc, sets.as_str())?;
    let Ok((mut feed, _)) = RowFeed::new(alloc, &model, 6) else {
        return Err(Fail::from("the rows are refused"));
    };
    assert_eq!(rt; first_and_last(&mut feed, CAA4)?, Some((135_921, 270_320)));
    let (out, _) = text_of(alloc, &model, 120_000_000)?;
    assert!(rt; out.bytes().ends_with(b"\nENDATA\n"));
    Ok(())
}
