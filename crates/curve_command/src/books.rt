// The rows of a trial. Of the data with one limit and with another all rows but that of the limit are the same, so they are made once.
ghost use Rattle.std.specs.Prelude.{◌≡◌, IfErr, IfOk, IfSome};
ghost use Rattle.discount_factors.specs.Factors.{IsPlaces};
ghost use Rattle.named_equations.specs.Instances.{instances};
ghost use Rattle.param_tables.specs.Built.{AreComplete};
ghost use Rattle.param_tables.specs.Canonical.{canonical};
ghost use Rattle.row_book.specs.Books.{HasStopped, NamesRowWithin};
ghost use Rattle.command_answers.specs.MadeBooks.{IsMadeBook};
ghost use Rattle.curve_command.specs.KeptRows.{IsBookAtSome, IsLimitOf, IsMemberOf, IsRenewed, limit_of, limited};

use crate::trials::{Limit, Member, limit_row};
use model_sets::param_numbers::MODEL_PERIOD_EMISSION_LIMIT;
use param_tables::ModelData;
use row_book::{BookFail, RowBook, row_at};
use std::alloc::{AllocError, Global};

/// The book of the data with a limit, from that of the data with another limit, where there is one.
pub fn limited_book(
    alloc: Global,
    model: &ModelData,
    places: u8,
    limit: Limit,
    before: Option<RowBook>,
) -> Result<RowBook, BookFail>
    requires places { IsPlaces places }
    requires limit { IsLimitOf model.now.facts.sets limit }
    requires before { IfSome before (IsBookAtSome places model.now.facts limit.member) }
    ensures book { IfOk result (IsMadeBook places (limited model.now.facts limit)) }
    ensures stopped { IfErr result (HasStopped places (limited model.now.facts limit) 0 (instances (limited model.now.facts limit))) }
    ensures place { IfErr result (NamesRowWithin model.now.facts.sets) }
{
    let limited = limited_model(alloc, model, limit)?;
    if let Some(book) = before {
        if let Some(book) = renewed(alloc, book, &limited, places, limit.member) {
            return Ok(book);
        }
    }
    match RowBook::new(alloc, &limited, places) {
        Ok(book) => Ok(book),
        Err(fail) => Err(fail),
    }
}

// The model with the limit in the place of its own.
fn limited_model(alloc: Global, model: &ModelData, limit: Limit) -> Result<ModelData, AllocError>
    requires { IsLimitOf model.now.facts.sets limit }
    ensures facts { IfOk result (λ changed. changed.facts ≡ canonical (limited model.now.facts limit)) }
    ensures complete { IfOk result (λ changed. AreComplete changed.facts) }
{
    let index = [limit.member.region, limit.member.emission];
    model.with_value(alloc, MODEL_PERIOD_EMISSION_LIMIT, &index, limit.most)
}

// The book with the row of the limit over other data in the place of the one that it has. There is none where that row can't be made:
// why is then for the rows that are made anew to say.
fn renewed(
    alloc: Global,
    mut book: RowBook,
    limited: &ModelData,
    places: u8,
    member: Member,
) -> Option<RowBook>
    requires places { IsPlaces places }
    requires member { IsMemberOf limited.now.facts.sets member }
    ensures { IfSome result (IsRenewed places limited.now.facts (limit_of member) book) }
{
    let limit = limit_row(member);
    let row = match row_at(alloc, limited, places, limit) {
        Ok(Some(row)) => row,
        _ => return None,
    };
    if book.replace(row) { Some(book) } else { None }
}
