// `make`: the data file that is made of a number, or what it comes to in a few lines. No file is read for it.
ghost use Rattle.std.specs.Prelude.{◌≡◌, ◌≤◌, ◌++◌, List, ℕ, length, IfOk};
ghost use Rattle.osemosys_run.specs.Due.{DueForMake};
ghost use Rattle.command_answers.specs.DueForText.{DueForText};
ghost use Rattle.command_answers.specs.Accepted.{most_bytes, plain};
ghost use Rattle.solve_command.specs.Summary.{DueForSummary, default_places, made_line};

use call_stages::Watcher;
use command_answers::{Answer, Status, accept, push_with_number};
use command_words::MakeShow;
use model_maker::make;
use solve_command::answer_summary;
use std::alloc::{AllocError, Global};

/// The decimal places of written factors that `solve` has by default.
const DEFAULT_PLACES: u8 = 6;

/// The answer of `make` of this size, which is from 3 to 122.
pub fn perform_make(
    alloc: Global,
    size: u32,
    show: MakeShow,
    watcher: &mut dyn Watcher,
) -> Result<Answer, AllocError>
    requires least { 3 ≤ size }
    requires most { size ≤ 122 }
    ensures { IfOk result (λ answer. DueForMake size show answer.status answer.text.items) }
{
    let text = make(alloc, size)?;
    match show {
        MakeShow::File => {
            let status = Status::Done;
            Ok(Answer { status, text })
        }
        MakeShow::Summary => summarize(alloc, size, text, watcher),
    }
}

// The size, and then what is due over the text of the file that was made.
fn summarize(
    alloc: Global,
    size: u32,
    made: Vec<u8>,
    watcher: &mut dyn Watcher,
) -> Result<Answer, AllocError>
    requires { length made.items ≤ most_bytes }
    ensures { IfOk result (λ answer. (rest : List ℕ) × DueForText (DueForSummary default_places) (plain made.items) answer.status rest
        × (answer.text.items ≡ made_line size ++ rest)) }
{
    let mut text = made_line(alloc, size)?;
    let answer = answer_made(alloc, made, watcher)?;
    text.extend_from_slice(&answer.text)?;
    let status = answer.status;
    Ok(Answer { status, text })
}

// What comes of the text of the file that was made. The text is gone before the first row is made.
fn answer_made(
    alloc: Global,
    made: Vec<u8>,
    watcher: &mut dyn Watcher,
) -> Result<Answer, AllocError>
    requires { length made.items ≤ most_bytes }
    ensures { IfOk result (λ answer. DueForText (DueForSummary default_places) (plain made.items) answer.status answer.text.items) }
{
    match accept(alloc, made)? {
        Ok(model) => answer_summary(alloc, &model, DEFAULT_PLACES, watcher),
        Err(answer) => Ok(answer),
    }
}

// The line for the size: `made N`.
fn made_line(alloc: Global, size: u32) -> Result<Vec<u8>, AllocError>
    ensures { IfOk result (λ text. text.items ≡ made_line size) }
{
    let mut text = Vec::new(alloc);
    push_with_number(&mut text, b"made ", u64::from(size))?;
    text.extend_from_slice(b"\n")?;
    Ok(text)
}
