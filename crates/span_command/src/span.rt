// The answer over accepted data.
ghost use Rattle.std.specs.Prelude.{◌≡◌, true, IfOk};
ghost use Rattle.discount_factors.specs.Factors.{IsPlaces};
ghost use Rattle.named_equations.specs.Existence.{exists};
ghost use Rattle.row_core.specs.declared.kind_numbers.TheConstants.{NEW_CAPACITY};
ghost use Rattle.span_command.specs.Span.{DueForMember, DueForSpan, built};

use crate::sized::answer_book;
use crate::wanted::Wanted;
use call_stages::{Stage, Watcher};
use command_answers::{Answer, find_member, made_book};
use model_sets::set_numbers::{REGION, TECHNOLOGY, YEAR};
use param_tables::ModelData;
use row_core::kind_numbers::NEW_CAPACITY;
use row_core::{Index, Var};
use std::alloc::{AllocError, Global};

/// What is due over any data that have the model's sets and values, with written factors of 6 or 9 decimal places, for the words of a
/// region, a technology and a year.
pub fn answer_span(
    alloc: Global,
    model: &ModelData,
    places: u8,
    wanted: Wanted,
    region: &str,
    technology: &str,
    year: &str,
    watcher: &mut dyn Watcher,
) -> Result<Answer, AllocError>
    requires { IsPlaces places }
    ensures { IfOk result (λ answer.
        DueForSpan places wanted (record { region = region.now; technology = technology.now; year = year.now }) model.now.rounded model.now.facts answer.status answer.text.items) }
{
    let region = match find_member(alloc, model.sets(), REGION, region)? {
        Ok(region) => region,
        Err(answer) => return Ok(answer),
    };
    let technology = match find_member(alloc, model.sets(), TECHNOLOGY, technology)? {
        Ok(technology) => technology,
        Err(answer) => return Ok(answer),
    };
    let year = match find_member(alloc, model.sets(), YEAR, year)? {
        Ok(year) => year,
        Err(answer) => return Ok(answer),
    };
    answer_member(
        alloc,
        model,
        places,
        wanted,
        built(region, technology, year),
        watcher,
    )
}

// The capacity of a technology that is built in a region in a year.
fn built(region: u16, technology: u16, year: u16) -> Var
    ensures { result ≡ built region technology year }
{
    Var {
        kind: NEW_CAPACITY,
        index: Index {
            region,
            other: 0,
            slice: 0,
            tech: technology,
            fuel: 0,
            emission: 0,
            mode: 0,
            year,
        },
    }
}

// What is due for a variable that exists.
fn answer_member(
    alloc: Global,
    model: &ModelData,
    places: u8,
    wanted: Wanted,
    var: Var,
    watcher: &mut dyn Watcher,
) -> Result<Answer, AllocError>
    requires places { IsPlaces places }
    requires chosen { var.kind ≡ NEW_CAPACITY }
    requires exists { exists model.now.facts var ≡ true }
    ensures { IfOk result (λ answer.
        DueForMember places wanted var model.now.rounded model.now.facts answer.status answer.text.items) }
{
    watcher.see(Stage::Rows);
    match made_book(alloc, model, places)? {
        Ok(book) => answer_book(
            alloc,
            &book,
            model.sets(),
            places,
            var,
            wanted,
            model.rounded(),
            watcher,
        ),
        Err(answer) => Ok(answer),
    }
}
