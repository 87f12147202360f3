// What `make` says in a few lines of the model that it makes: how large it is, and what `solve` with its default options comes to.
ghost use Rattle.std.specs.Prelude.{◌≡◌, ◌++◌, ℕ, IfOk, decimal};
ghost use Rattle.discount_factors.specs.Factors.{IsPlaces};
ghost use Rattle.model_sets.specs.Data.{Data};
ghost use Rattle.command_answers.specs.CheckedPlans.{IsBookOf, IsListedBook};
ghost use Rattle.solve_command.specs.Summary.{DueAfterCounts, DueForDefaults, DueForSummary, counts_text};

use crate::solve::{Shown, Wanted, answer_sized};
use call_stages::{Stage, Watcher};
use command_answers::{Answer, made_book, push_count};
use command_words::SolveMethod;
use model_sets::Sets;
use param_tables::ModelData;
use result_tables::Begun;
use row_book::RowBook;
use row_problem::size_of;
use std::alloc::{AllocError, Global};

/// What is due over any data that have the model's sets and values, with written factors of 6 or 9 decimal places.
pub fn answer_summary(
    alloc: Global,
    model: &ModelData,
    places: u8,
    watcher: &mut dyn Watcher,
) -> Result<Answer, AllocError>
    requires { IsPlaces places }
    ensures { IfOk result (λ answer.
        DueForSummary places model.now.rounded model.now.facts answer.status answer.text.items) }
{
    watcher.see(Stage::Rows);
    match made_book(alloc, model, places)? {
        Ok(book) => summarize_book(alloc, &book, model.sets(), places, model.rounded(), watcher),
        Err(answer) => Ok(answer),
    }
}

// What is due over a book of rows with written factors of so many decimal places, of data of which so many numbers were rounded: the
// counts, and then what solving comes to.
fn summarize_book(
    alloc: Global,
    book: &RowBook,
    sets: &Sets,
    places: u8,
    rounded: u64,
    watcher: &mut dyn Watcher,
) -> Result<Answer, AllocError>
    requires { IsListedBook sets.now book.now.rows book.now.vars }
    ensures { (d : Data) → sets.now ≡ d.sets → IsBookOf places d book.now.rows book.now.vars
        → IfOk result (λ answer. DueAfterCounts places d book.now.rows rounded answer.status answer.text.items) }
{
    let mut text = counts_text(alloc, book)?;
    let answer = answer_defaults(alloc, book, sets, places, rounded, watcher)?;
    text.extend_from_slice(&answer.text)?;
    let status = answer.status;
    Ok(Answer { status, text })
}

// What solving comes to with the options that `solve` has by default.
fn answer_defaults(
    alloc: Global,
    book: &RowBook,
    sets: &Sets,
    places: u8,
    rounded: u64,
    watcher: &mut dyn Watcher,
) -> Result<Answer, AllocError>
    requires { IsListedBook sets.now book.now.rows book.now.vars }
    ensures { (d : Data) → sets.now ≡ d.sets → IsBookOf places d book.now.rows book.now.vars
        → IfOk result (λ answer. DueForDefaults places d book.now.rows rounded answer.status answer.text.items) }
{
    let wanted = Wanted {
        gap: 0,
        pivots: 20_000,
        show: Shown::Summary,
        method: SolveMethod::Exact,
        begun: Begun::FromNothing,
    };
    answer_sized(alloc, book, sets, places, wanted, rounded, watcher)
}

// The counts of a book.
fn counts_text(alloc: Global, book: &RowBook) -> Result<Vec<u8>, AllocError>
    ensures { IfOk result (λ text. text.items ≡ counts_text book.now.rows book.now.vars) }
{
    let size = size_of(book.rows(), book.vars());
    let mut text = Vec::new(alloc);
    push_count(&mut text, b"equations ", book.rows().len() as u64)?;
    push_count(&mut text, b"variables ", book.vars().len() as u64)?;
    push_count(&mut text, b"inequalities ", size.rows)?;
    push_count(&mut text, b"columns ", size.columns)?;
    Ok(text)
}
