// What `reduce` answers over accepted data.
ghost use Rattle.std.specs.Prelude.{IfOk};
ghost use Rattle.discount_factors.specs.Factors.{IsPlaces};
ghost use Rattle.reduce_command.specs.Reduced.{DueForReduced, DueForRows};

use crate::text::reduced_text;
use command_answers::{Answer, Status, made_book, refuse_reduced};
use param_tables::ModelData;
use row_book::RowBook;
use std::alloc::{AllocError, Global};

/// What is due over any data that have the model's sets and values, with written factors of 6 or 9 decimal places: the smaller program, after
/// lines that say what it is. Of the program nothing is said; nor is it said when none is found, and then it is refused.
pub fn answer_reduce(alloc: Global, model: &ModelData, places: u8) -> Result<Answer, AllocError>
    requires { IsPlaces places }
    ensures { IfOk result (λ answer.
        DueForReduced places model.now.facts answer.status answer.text.items) }
{
    match made_book(alloc, model, places)? {
        Ok(book) => answer_book(alloc, &book),
        Err(answer) => Ok(answer),
    }
}

// What is due over a book of rows.
fn answer_book(alloc: Global, book: &RowBook) -> Result<Answer, AllocError>
    ensures { IfOk result (λ answer. DueForRows answer.status answer.text.items) }
{
    match reduced_text(alloc, book)? {
        Some(text) => {
            let status = Status::Done;
            Ok(Answer { status, text })
        }
        None => refuse_reduced(alloc),
    }
}
