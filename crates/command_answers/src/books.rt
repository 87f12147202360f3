// The book of rows of a model, and the answers where the rows of the named equations can't be made, or are too many to be solved: the same for every command.
ghost use Rattle.std.specs.Prelude.{◌≡◌, IfOk};
ghost use Rattle.discount_factors.specs.Factors.{IsPlaces};
ghost use Rattle.row_book.specs.Books.{NamesRowWithin};
ghost use Rattle.command_answers.specs.BookFails.{TellsFail};
ghost use Rattle.command_answers.specs.Limits.{TellsLimits, TellsSize};
ghost use Rattle.command_answers.specs.Lines.{entries_line, too_large_line, unguessed_line};
ghost use Rattle.command_answers.specs.MadeBooks.{TellsMade};

use crate::answer::Answer;
use crate::lines::{entries_line, too_large_line, unguessed_line};
use crate::status::{Refusal, Status};
use crate::stops::stop_at;
use command_words::SolveMethod;
use model_sets::Sets;
use param_tables::ModelData;
use row_book::{BookFail, RowBook};
use row_problem::size_of;
use std::alloc::{AllocError, Global};

/// The most inequalities that a linear program may have.
const MOST_ROWS: u64 = 20_000;

/// The most columns that it may have.
const MOST_COLUMNS: u64 = 40_000;

/// The book of rows of a model, with written factors of 6 or 9 decimal places, or the answer where a row can't be made.
pub fn made_book(
    alloc: Global,
    model: &ModelData,
    places: u8,
) -> Result<Result<RowBook, Answer>, AllocError>
    requires { IsPlaces places }
    ensures { IfOk result (TellsMade places model.now.facts) }
{
    match RowBook::new(alloc, model, places) {
        Ok(book) => Ok(Ok(book)),
        Err(fail) => {
            let answer = refuse_book(alloc, fail, model.sets())?;
            Ok(Err(answer))
        }
    }
}

/// The answer to a book whose linear program is too large; none where it isn't. With the exact method it is refused; with the rounded
/// one it is the answer where no guess of at most so many pivots is accepted.
pub fn refuse_large(
    alloc: Global,
    book: &RowBook,
    method: SolveMethod,
    pivots: u64,
) -> Result<Option<Answer>, AllocError>
    ensures { IfOk result (TellsLimits method pivots book.now.rows book.now.vars) }
{
    let size = size_of(book.rows(), book.vars());
    if size.rows > MOST_ROWS || size.columns > MOST_COLUMNS {
        let answer = answer_size(alloc, method, pivots, size.rows, size.columns)?;
        return Ok(Some(answer));
    }
    Ok(None)
}

/// The answer where rows can't be made; none where memory ran out.
pub fn refuse_book(alloc: Global, fail: BookFail, sets: &Sets) -> Result<Answer, AllocError>
    requires { NamesRowWithin sets.now fail }
    ensures { IfOk result (λ answer. TellsFail sets.now fail answer.status answer.text.items) }
{
    match fail {
        BookFail::Width(place) => stop_at(alloc, place, sets),
        BookFail::TooManyEntries => refuse_entries(alloc),
        BookFail::Memory => Err(AllocError),
    }
}

// The answer where the rows have too many entries.
fn refuse_entries(alloc: Global) -> Result<Answer, AllocError>
    ensures { IfOk result (λ answer. (answer.status ≡ Status.Refused Refusal.TooManyEntries)
        × (answer.text.items ≡ entries_line)) }
{
    let text = entries_line(alloc)?;
    let status = Status::Refused(Refusal::TooManyEntries);
    Ok(Answer { status, text })
}

// The answer to a linear program that is too large, which has so many inequalities and so many columns, by the method.
fn answer_size(
    alloc: Global,
    method: SolveMethod,
    pivots: u64,
    rows: u64,
    columns: u64,
) -> Result<Answer, AllocError>
    ensures { IfOk result (λ answer. TellsSize method pivots rows columns answer.status answer.text.items) }
{
    match method {
        SolveMethod::Exact => refuse_size(alloc, rows, columns),
        SolveMethod::Rounded => stop_unguessed(alloc, pivots),
    }
}

// The answer to such a linear program with the exact method.
fn refuse_size(alloc: Global, rows: u64, columns: u64) -> Result<Answer, AllocError>
    ensures { IfOk result (λ answer. (answer.status ≡ Status.Refused (Refusal.TooLarge rows columns))
        × (answer.text.items ≡ too_large_line rows columns)) }
{
    let text = too_large_line(alloc, rows, columns)?;
    let status = Status::Refused(Refusal::TooLarge(rows, columns));
    Ok(Answer { status, text })
}

// The answer to such a linear program with the rounded method, where no guess of at most so many pivots is accepted.
fn stop_unguessed(alloc: Global, pivots: u64) -> Result<Answer, AllocError>
    ensures { IfOk result (λ answer. (answer.status ≡ Status.Unguessed pivots) × (answer.text.items ≡ unguessed_line pivots)) }
{
    let text = unguessed_line(alloc, pivots)?;
    let status = Status::Unguessed(pivots);
    Ok(Answer { status, text })
}
