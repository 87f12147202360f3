// The answer over accepted data.
ghost use Rattle.std.specs.Prelude.{◌≡◌, ℕ, None, IfOk, IfSome};
ghost use Rattle.exact_num.specs.Steps.{first_wide};
ghost use Rattle.discount_factors.specs.Factors.{IsPlaces};
ghost use Rattle.model_sets.specs.Data.{Data};
ghost use Rattle.written_method.specs.Eliminated.{elimination_steps};
ghost use Rattle.command_answers.specs.BookPrograms.{IsProgramOf};
ghost use Rattle.command_answers.specs.CheckedPlans.{IsBookOf, IsListedBook};
ghost use Rattle.command_answers.specs.Definers.{definers};
ghost use Rattle.command_answers.specs.Limits.{PassesLimits};
ghost use Rattle.command_words.specs.declared.command.SolveMethod.TheVariants.{Rounded};
ghost use Rattle.explain_command.specs.Explain.{DueForExplain, DueForMethod, DueForRows, Finds};
ghost use Rattle.explain_command.specs.Outcomes.{FindingTells, RunTells};

use crate::ends::{answer_found, answer_stop};
use call_stages::{Stage, Watcher};
use command_answers::{
    Answer, BookProgram, eliminate_book, made_book, problem_of, refuse_large, stop_on_elimination,
};
use command_words::SolveMethod;
use conflict_sets::{Conflict, ExplainFail, explain, explain_guessed, explain_rounded};
use model_sets::Sets;
use param_tables::ModelData;
use row_book::RowBook;
use row_core::Stopped;
use std::alloc::{AllocError, Global};

/// What is wanted of a model: an explanation by this method, with so many pivots at most in each trial.
#[derive(Clone, Copy, PartialEq, Eq)]
pub struct Wanted {
    pub pivots: u32,
    pub method: SolveMethod,
}

/// What is due over any data that have the model's sets and values, with written factors of 6 or 9 decimal places.
pub fn answer_explain(
    alloc: Global,
    model: &ModelData,
    places: u8,
    wanted: Wanted,
    watcher: &mut dyn Watcher,
) -> Result<Answer, AllocError>
    requires { IsPlaces places }
    ensures { IfOk result (λ answer.
        DueForExplain places wanted model.now.facts answer.status answer.text.items) }
{
    watcher.see(Stage::Rows);
    match made_book(alloc, model, places)? {
        Ok(book) => answer_book(alloc, &book, model.sets(), wanted, watcher),
        Err(answer) => Ok(answer),
    }
}

// What is due over a book of rows.
fn answer_book(
    alloc: Global,
    book: &RowBook,
    sets: &Sets,
    wanted: Wanted,
    watcher: &mut dyn Watcher,
) -> Result<Answer, AllocError>
    requires { IsListedBook sets.now book.now.rows book.now.vars }
    ensures { (places : ℕ) (d : Data) → sets.now ≡ d.sets → IsBookOf places d book.now.rows book.now.vars
        → IfOk result (λ answer. DueForRows places d book.now.rows wanted answer.status answer.text.items) }
{
    match refuse_large(alloc, book, wanted.method, u64::from(wanted.pivots))? {
        Some(refusal) => answer_large(alloc, book, sets, wanted, refusal, watcher),
        None => answer_method(alloc, book, sets, wanted, watcher),
    }
}

// What is due over a book whose linear program is too large: with the rounded method what guesses alone find, and else this answer.
fn answer_large(
    alloc: Global,
    book: &RowBook,
    sets: &Sets,
    wanted: Wanted,
    refusal: Answer,
    watcher: &mut dyn Watcher,
) -> Result<Answer, AllocError>
    requires listed { IsListedBook sets.now book.now.rows book.now.vars }
    requires large { PassesLimits wanted.method wanted.pivots book.now.rows book.now.vars refusal.status refusal.text.items }
    ensures { (places : ℕ) (d : Data) → sets.now ≡ d.sets → IsBookOf places d book.now.rows book.now.vars
        → IfOk result (λ answer. DueForRows places d book.now.rows wanted answer.status answer.text.items) }
{
    match wanted.method {
        SolveMethod::Exact => Ok(refusal),
        SolveMethod::Rounded => match answer_guessed(alloc, book, sets, wanted, watcher)? {
            Some(answer) => Ok(answer),
            None => Ok(refusal),
        },
    }
}

// The answer for what guesses alone find over a book, whatever the size of its linear program; none where the elimination stops, or guesses
// give nothing.
fn answer_guessed(
    alloc: Global,
    book: &RowBook,
    sets: &Sets,
    wanted: Wanted,
    watcher: &mut dyn Watcher,
) -> Result<Option<Answer>, AllocError>
    requires listed { IsListedBook sets.now book.now.rows book.now.vars }
    requires asked { wanted.method ≡ Rounded }
    ensures { (places : ℕ) (d : Data) → sets.now ≡ d.sets → IsBookOf places d book.now.rows book.now.vars
        → IfOk result (λ found. IfSome found (λ answer. Finds wanted.method places d book.now.rows wanted answer.status answer.text.items)) }
{
    // The rows and the variables of a book are what its answers speak of.
    let _ = book.vars();
    watcher.see(Stage::Elimination);
    let program = match eliminate_book(alloc, book) {
        Ok(program) => program,
        Err(Stopped::Width(_)) => return Ok(None),
        Err(Stopped::Memory) => return Err(AllocError),
    };
    match guess_explanation(alloc, book, &program, wanted, watcher)? {
        Some(found) => {
            let answer = answer_found(alloc, book, sets, &found)?;
            Ok(Some(answer))
        }
        None => Ok(None),
    }
}

// What is due over a book of rows whose linear program isn't too large.
fn answer_method(
    alloc: Global,
    book: &RowBook,
    sets: &Sets,
    wanted: Wanted,
    watcher: &mut dyn Watcher,
) -> Result<Answer, AllocError>
    requires { IsListedBook sets.now book.now.rows book.now.vars }
    ensures { (places : ℕ) (d : Data) → sets.now ≡ d.sets → IsBookOf places d book.now.rows book.now.vars
        → IfOk result (λ answer. DueForMethod places d book.now.rows wanted answer.status answer.text.items) }
{
    // The rows and the variables of a book are what its answers speak of.
    let _ = book.vars();
    watcher.see(Stage::Elimination);
    match eliminate_book(alloc, book) {
        Ok(program) => answer_program(alloc, book, sets, &program, wanted, watcher),
        Err(stop) => stop_on_elimination(alloc, book, sets, stop),
    }
}

// What is due over a book of rows with its linear program.
fn answer_program(
    alloc: Global,
    book: &RowBook,
    sets: &Sets,
    program: &BookProgram,
    wanted: Wanted,
    watcher: &mut dyn Watcher,
) -> Result<Answer, AllocError>
    requires listed { IsListedBook sets.now book.now.rows book.now.vars }
    requires program { IsProgramOf book.now.rows book.now.vars program.now }
    requires fits { first_wide (elimination_steps book.now.rows (definers book.now.rows)) ≡ None }
    ensures { (places : ℕ) (d : Data) → sets.now ≡ d.sets → IsBookOf places d book.now.rows book.now.vars
        → IfOk result (λ answer. DueForMethod places d book.now.rows wanted answer.status answer.text.items) }
{
    // The rows and the variables of a book are what the places of the trials speak of.
    let _ = book.vars();
    match explain_book(alloc, book, program, wanted, watcher) {
        Ok(found) => answer_found(alloc, book, sets, &found),
        Err(ExplainFail::Stopped(stop)) => answer_stop(alloc, stop, sets),
        Err(ExplainFail::Memory) => Err(AllocError),
    }
}

// What the trials find over a book of rows with its linear program, by the method that is asked for.
fn explain_book(
    alloc: Global,
    book: &RowBook,
    program: &BookProgram,
    wanted: Wanted,
    watcher: &mut dyn Watcher,
) -> Result<Option<Conflict>, ExplainFail>
    requires program { IsProgramOf book.now.rows book.now.vars program.now }
    requires fits { first_wide (elimination_steps book.now.rows (definers book.now.rows)) ≡ None }
    ensures { RunTells wanted.method book.now.rows book.now.vars wanted.pivots result }
{
    let problem = problem_of(book, program);
    let pivots = u64::from(wanted.pivots);
    match wanted.method {
        SolveMethod::Exact => {
            watcher.see(Stage::Exact);
            explain(alloc, &problem, pivots)
        }
        SolveMethod::Rounded => explain_rounded(alloc, &problem, pivots, watcher),
    }
}

// What trials by guesses alone find over a book of rows with its linear program.
fn guess_explanation(
    alloc: Global,
    book: &RowBook,
    program: &BookProgram,
    wanted: Wanted,
    watcher: &mut dyn Watcher,
) -> Result<Option<Option<Conflict>>, AllocError>
    requires { IsProgramOf book.now.rows book.now.vars program.now }
    ensures { IfOk result (λ given. IfSome given (FindingTells Rounded book.now.rows book.now.vars wanted.pivots)) }
{
    let problem = problem_of(book, program);
    explain_guessed(alloc, &problem, u64::from(wanted.pivots), watcher)
}
