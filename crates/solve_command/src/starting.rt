// What `solve` answers over accepted data where its guesses begin from the values of a file: another solver's answer, or the plan of a
// similar model.
ghost use Rattle.std.specs.Prelude.{◌≡◌, IfOk};
ghost use Rattle.discount_factors.specs.Factors.{IsPlaces};
ghost use Rattle.model_sets.specs.Data.{Data};
ghost use Rattle.command_answers.specs.CheckedPlans.{IsBookOf, IsListedBook};
ghost use Rattle.solve_command.specs.Starts.{DueForSolveFrom, DueForStart};

use crate::solve::{Wanted, answer_book};
use call_stages::{Stage, Watcher};
use command_answers::{Answer, made_book, refuse_start};
use model_sets::Sets;
use param_tables::ModelData;
use result_tables::Begun;
use row_book::RowBook;
use solver_answers::{AnswerFail, read_answer};
use std::alloc::{AllocError, Global};

/// What is due over any data that have the model's sets and values, with written factors of 6 or 9 decimal places, where guesses begin from
/// the values of a file. It is refused by its first line that breaks its form; what it says is no matter for what is proved of the answer.
pub fn answer_from(
    alloc: Global,
    model: &ModelData,
    places: u8,
    wanted: Wanted,
    bytes: &[u8],
    watcher: &mut dyn Watcher,
) -> Result<Answer, AllocError>
    requires { IsPlaces places }
    ensures { IfOk result (λ answer.
        DueForSolveFrom places wanted bytes.now model.now.rounded model.now.facts answer.status answer.text.items) }
{
    watcher.see(Stage::Rows);
    match made_book(alloc, model, places)? {
        Ok(book) => answer_start(
            alloc,
            &book,
            model.sets(),
            places,
            wanted,
            model.rounded(),
            bytes,
            watcher,
        ),
        Err(answer) => Ok(answer),
    }
}

// What is due over a book of rows, where guesses begin from the values of the file.
fn answer_start(
    alloc: Global,
    book: &RowBook,
    sets: &Sets,
    places: u8,
    wanted: Wanted,
    rounded: u64,
    bytes: &[u8],
    watcher: &mut dyn Watcher,
) -> Result<Answer, AllocError>
    requires { IsListedBook sets.now book.now.rows book.now.vars }
    ensures { (d : Data) → sets.now ≡ d.sets → IsBookOf places d book.now.rows book.now.vars → IfOk result (λ answer.
        DueForStart places d book.now.rows wanted bytes.now rounded answer.status answer.text.items) }
{
    match read_answer(alloc, bytes, book.vars(), book.rows().len(), sets) {
        Ok(solver_answers::Answer::NoStart) => {
            let begun = Begun::WithoutStart;
            let wanted = Wanted { begun, ..wanted };
            answer_book(alloc, book, sets, places, wanted, rounded, None, watcher)
        }
        Ok(solver_answers::Answer::Start(found)) => {
            let begun = Begun::FromValues {
                taken: found.taken,
                passed: found.passed,
            };
            let wanted = Wanted { begun, ..wanted };
            let values = Some(found.values.as_slice());
            answer_book(alloc, book, sets, places, wanted, rounded, values, watcher)
        }
        Err(AnswerFail::Fault(line)) => refuse_start(alloc, line),
        Err(AnswerFail::Memory) => Err(AllocError),
    }
}
