// What is due over a book of rows, by the size of its linear program.
ghost use Rattle.std.specs.Prelude.{◌≡◌, Contains, IfOk, IfSome};
ghost use Rattle.model_sets.specs.Data.{Data};
ghost use Rattle.row_core.specs.declared.kind_numbers.TheConstants.{NEW_CAPACITY};
ghost use Rattle.command_answers.specs.CheckedPlans.{IsBookOf, IsListedBook};
ghost use Rattle.command_answers.specs.Limits.{PassesLimits};
ghost use Rattle.span_command.specs.Span.{DueForFound, DueForRows};

use crate::method::answer_method;
use crate::rounding::answer_rounded;
use crate::wanted::Wanted;
use call_stages::{Stage, Watcher};
use command_answers::{Answer, eliminate_book, refuse_large};
use command_words::SolveMethod;
use model_sets::Sets;
use row_book::RowBook;
use row_core::{Stopped, Var};
use std::alloc::{AllocError, Global};

/// What is due over a book, with written factors of so many decimal places, of data of which so many numbers were rounded.
pub fn answer_book(
    alloc: Global,
    book: &RowBook,
    sets: &Sets,
    places: u8,
    var: Var,
    wanted: Wanted,
    rounded: u64,
    watcher: &mut dyn Watcher,
) -> Result<Answer, AllocError>
    requires listed { IsListedBook sets.now book.now.rows book.now.vars }
    requires chosen { var.kind ≡ NEW_CAPACITY }
    requires there { Contains book.now.vars var }
    ensures { (d : Data) → sets.now ≡ d.sets → IsBookOf places d book.now.rows book.now.vars
        → IfOk result (λ answer. DueForRows places d book.now.rows var wanted rounded answer.status answer.text.items) }
{
    match refuse_large(alloc, book, wanted.method, wanted.pivots)? {
        Some(refusal) => answer_large(
            alloc, book, sets, places, var, wanted, rounded, refusal, watcher,
        ),
        None => answer_method(alloc, book, sets, places, var, wanted, rounded, watcher),
    }
}

// What is due over a book whose linear program is too large: what the rounded method finds, where it is asked for, and else this answer.
fn answer_large(
    alloc: Global,
    book: &RowBook,
    sets: &Sets,
    places: u8,
    var: Var,
    wanted: Wanted,
    rounded: u64,
    refusal: Answer,
    watcher: &mut dyn Watcher,
) -> Result<Answer, AllocError>
    requires listed { IsListedBook sets.now book.now.rows book.now.vars }
    requires chosen { var.kind ≡ NEW_CAPACITY }
    requires there { Contains book.now.vars var }
    requires large { PassesLimits wanted.method wanted.pivots book.now.rows book.now.vars refusal.status refusal.text.items }
    ensures { (d : Data) → sets.now ≡ d.sets → IsBookOf places d book.now.rows book.now.vars
        → IfOk result (λ answer. DueForRows places d book.now.rows var wanted rounded answer.status answer.text.items) }
{
    match wanted.method {
        SolveMethod::Exact => Ok(refusal),
        SolveMethod::Rounded => {
            match answer_guessed(alloc, book, sets, places, var, wanted, rounded, watcher)? {
                Some(answer) => Ok(answer),
                None => Ok(refusal),
            }
        }
    }
}

// The answer of the rounded method over a book, whatever the size of its linear program; none where the elimination stops, or guesses give
// nothing.
fn answer_guessed(
    alloc: Global,
    book: &RowBook,
    sets: &Sets,
    places: u8,
    var: Var,
    wanted: Wanted,
    rounded: u64,
    watcher: &mut dyn Watcher,
) -> Result<Option<Answer>, AllocError>
    requires listed { IsListedBook sets.now book.now.rows book.now.vars }
    requires chosen { var.kind ≡ NEW_CAPACITY }
    requires there { Contains book.now.vars var }
    ensures { (d : Data) → sets.now ≡ d.sets → IsBookOf places d book.now.rows book.now.vars
        → IfOk result (λ found. IfSome found (λ answer. DueForFound places d book.now.rows var wanted rounded answer.status answer.text.items)) }
{
    watcher.see(Stage::Elimination);
    match eliminate_book(alloc, book) {
        Ok(program) => answer_rounded(
            alloc, book, sets, &program, places, var, wanted, rounded, watcher,
        ),
        Err(Stopped::Width(_)) => Ok(None),
        Err(Stopped::Memory) => Err(AllocError),
    }
}
