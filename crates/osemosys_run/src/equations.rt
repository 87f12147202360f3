// The equations of a model, written as they are made.
ghost use Rattle.std.specs.Prelude.{◌≡◌, ◌≤◌, true, ⊤};
ghost use Rattle.std.specs.List.{AllByRecursion};
ghost use Rattle.discount_factors.specs.Factors.{IsPlaces};
ghost use Rattle.mps_writer.specs.MpsText.{rows_text};
ghost use Rattle.row_book.specs.Books.{IsWithinSets, NamesRowWithin};
ghost use Rattle.row_book.specs.Feeds.{HasContentsWithin};
ghost use Rattle.row_core.specs.Numbers.{ascends};
ghost use Rattle.row_core.specs.Order.{var_cmp};
ghost use Rattle.row_core.specs.Sources.{AreInOrder};
ghost use Rattle.command_answers.specs.BookFails.{TellsFail};
ghost use Rattle.command_answers.specs.declared.status.Status.{Status};
ghost use Rattle.osemosys_run.specs.Sending.{Delivers, sent};
ghost use Rattle.osemosys_run.specs.Mps.{DueForEquations};
ghost use Rattle.osemosys_run.specs.Replies.{IsTold};

use crate::sending::send_answer;
use command_answers::{Status, refuse_book};
use io_edges::Sink;
use mps_writer::{MpsFail, mps_to};
use param_tables::ModelData;
use row_book::{BookFail, RowFeed};
use row_core::Var;
use std::alloc::Global;

/// Writes the MPS text of the equations of a model, with written factors of 6 or 9 decimal places, or the line for the first
/// row that can't be made.
///
/// Each row is made once before the first byte is written, and again for each section and kind of variable that it has a part
/// in; few rows are in memory at a time. Where memory runs out, a prefix of the text was written.
pub fn write_equations<K: Sink>(alloc: Global, model: &ModelData, places: u8, out: &mut K) -> Status
    requires { IsPlaces places }
    ensures delivers { Delivers ⊤ (DueForEquations places model.now.facts) result (sent K.Sink out.old) (sent K.Sink out.new) }
    ensures faults { K.faults out.old ≤ K.faults out.new }
{
    match RowFeed::new(alloc, model, places) {
        Ok((mut feed, vars)) => write_rows(alloc, model, &mut feed, &vars, out),
        Err(fail) => write_refusal(alloc, model, fail, out),
    }
}

// The text of the rows of a feed.
fn write_rows<K: Sink>(
    alloc: Global,
    model: &ModelData,
    feed: &mut RowFeed<'_>,
    vars: &[Var],
    out: &mut K,
) -> Status
    requires named { AllByRecursion (HasContentsWithin model.now.facts.sets) feed.old.rows }
    requires in_order { AreInOrder feed.old.rows }
    requires within { AllByRecursion (IsWithinSets model.now.facts.sets) vars.now }
    requires ascending { ascends var_cmp vars.now ≡ true }
    ensures delivers { Delivers ⊤ (IsTold Status.Done (rows_text model.now.facts.sets feed.old.rows vars.now)) result (sent K.Sink out.old) (sent K.Sink out.new) }
    ensures faults { K.faults out.old ≤ K.faults out.new }
{
    match mps_to(alloc, feed, vars, model.sets(), out) {
        Ok(()) => Status::Done,
        Err(MpsFail::Write) => Status::WriteFault,
        Err(MpsFail::Memory) => Status::Memory,
    }
}

// The line for the first row that can't be made.
fn write_refusal<K: Sink>(alloc: Global, model: &ModelData, fail: BookFail, out: &mut K) -> Status
    requires { NamesRowWithin model.now.facts.sets fail }
    ensures delivers { Delivers ⊥ (TellsFail model.now.facts.sets fail) result (sent K.Sink out.old) (sent K.Sink out.new) }
    ensures faults { K.faults out.old ≤ K.faults out.new }
{
    match refuse_book(alloc, fail, model.sets()) {
        Ok(answer) => send_answer(answer, out),
        Err(_) => Status::Memory,
    }
}
