// What each command answers over the contents of its files.
ghost use Rattle.std.specs.Prelude.{◌≡◌, ◌≤◌, ◌+◌, ◌∷◌, [], ℕ, List, IfOk, length, map, option_map};
ghost use Rattle.std.specs.Option.{option_to_list};
ghost use Rattle.command_answers.specs.Accepted.{most_bytes, source_of};
ghost use Rattle.command_answers.specs.DueForText.{DueForText};
ghost use Rattle.command_words.specs.Commands.{question_of, request_of};
ghost use Rattle.command_words.specs.Ranges.{IsInRange};
ghost use Rattle.command_words.specs.Words.{names_in};
ghost use Rattle.discount_factors.specs.Factors.{IsPlaces};
ghost use Rattle.mathprog_data.specs.Pieces.{StandsFor};
ghost use Rattle.request_files.specs.Marked.{AllHold};
ghost use Rattle.osemosys_run.specs.Due.{DueOverData, bytes_at, changes_at, titled};
ghost use Rattle.osemosys_run.specs.Replies.{IsForEquationsOf, IsReplyTo};
ghost use Rattle.osemosys_run.specs.Requests.{BeginsWithCheck, HasOneModel, IsOverData, IsRead};
ghost use Rattle.result_pages.specs.Pages.{title_of};

use crate::compared::{CompareAsked, Pair, answer_pairs, last_reader};
use crate::making::perform_make;
use crate::page_file::{PageAsked, answer_paged};
use crate::reply::{Reply, told};
use crate::table_file::{TableAsked, answer_table};
use crate::warned::answer_warned;
use call_stages::{Stage, Watcher};
use check_command::{Claim, answer_check, answer_proof};
use command_answers::{Answer, accept_read};
use command_words::{Command, Request, SolveMethod};
use curve_command::answer_curve;
use explain_command::answer_explain;
use mathprog_data::PieceReader;
use param_tables::ModelData;
use reduce_command::answer_reduce;
use request_files::Contents;
use result_pages::{Title, last_segment};
use solve_command::{answer_from, answer_solve, wanted_by};
use span_command::answer_span;
use std::alloc::{AllocError, Global};

/// What is to be sent for a request over the contents of its files. What a reader keeps of a data file is gone before the first row is made.
pub fn answer(
    alloc: Global,
    request: Request<'_>,
    found: Contents<PieceReader>,
    watcher: &mut dyn Watcher,
) -> Result<Reply, AllocError>
    requires in_range { IsInRange (question_of request.command) }
    requires read { (contents : List (List ℕ)) × IsRead (request_of request) contents found.fed.items (map (λ bytes. bytes.items) found.held.items) }
    ensures { (contents : List (List ℕ)) → IsRead (request_of request.entry) contents found.fed.items (map (λ bytes. bytes.items) found.held.items)
        → IfOk result (IsReplyTo (request_of request.entry) contents) }
{
    let Contents { mut fed, held } = found;
    let Request {
        command,
        changes,
        changes2,
    } = request;
    match command {
        Command::Mps { places, .. } => {
            let reader = last_reader(&mut fed);
            answer_mps(alloc, places, reader, bytes_if(changes, &held, 0))
        }
        Command::Make { size, show } => told(perform_make(alloc, size, show, watcher)?),
        Command::Compare {
            first,
            second,
            gap,
            places,
            show,
            ..
        } => {
            let first_changes = bytes_if(changes, &held, 2);
            let second_changes = bytes_if(changes2, &held, second_place(changes));
            let asked = CompareAsked {
                first: titled(first, first_changes),
                second: titled(second, second_changes),
                gap,
                places,
                show,
            };
            let second_reader = last_reader(&mut fed);
            let first_reader = last_reader(&mut fed);
            let first = Pair {
                reader: first_reader,
                proof: bytes_at(&held, 0),
            };
            let second = Pair {
                reader: second_reader,
                proof: bytes_at(&held, 1),
            };
            watcher.see(Stage::Checks);
            told(answer_pairs(alloc, asked, first, second)?)
        }
        command => {
            let reader = last_reader(&mut fed);
            let changes = bytes_if(changes, &held, others_of(&command));
            told(answer_read(alloc, command, reader, changes, &held, watcher)?)
        }
    }
}

// What is to be sent of `mps` over the text of a reader, with written factors of 6 or 9 decimal places.
fn answer_mps(
    alloc: Global,
    places: u8,
    reader: PieceReader,
    changes: Option<&[u8]>,
) -> Result<Reply, AllocError>
    requires places { IsPlaces places }
    requires stands { (text : List ℕ) × StandsFor reader text }
    ensures { (text : List ℕ) → StandsFor reader text → length text ≤ most_bytes → IfOk result (IsForEquationsOf (source_of text changes.entry) places) }
{
    match accept_read(alloc, reader, changes)? {
        Ok(model) => Ok(Reply::Equations(model, places)),
        Err(answer) => told(answer),
    }
}

// What a command of one data file answers over the text of its reader, where the other files have these bytes.
fn answer_read(
    alloc: Global,
    command: Command<'_>,
    reader: PieceReader,
    changes: Option<&[u8]>,
    others: &[Vec<u8>],
    watcher: &mut dyn Watcher,
) -> Result<Answer, AllocError>
    requires in_range { IsInRange (question_of command) }
    requires one { HasOneModel (question_of command) }
    requires stands { (text : List ℕ) × StandsFor reader text }
    ensures { (text : List ℕ) → StandsFor reader text → length text ≤ most_bytes → IfOk result (λ answer.
        DueForText (DueOverData (question_of command.entry) (source_of text changes.entry).changes (text ∷ map (λ bytes. bytes.items) others.now)) (source_of text changes.entry) answer.status answer.text.items) }
{
    match command {
        Command::Warn { .. } => answer_warned(alloc, reader, changes),
        command => answer_data(alloc, command, reader, changes, others, watcher),
    }
}

// What a command answers that looks at the data alone, and not at what else the text says.
fn answer_data(
    alloc: Global,
    command: Command<'_>,
    reader: PieceReader,
    changes: Option<&[u8]>,
    others: &[Vec<u8>],
    watcher: &mut dyn Watcher,
) -> Result<Answer, AllocError>
    requires in_range { IsInRange (question_of command) }
    requires over_data { IsOverData (question_of command) }
    requires stands { (text : List ℕ) × StandsFor reader text }
    ensures { (text : List ℕ) → StandsFor reader text → length text ≤ most_bytes → IfOk result (λ answer.
        DueForText (DueOverData (question_of command.entry) (source_of text changes.entry).changes (text ∷ map (λ bytes. bytes.items) others.now)) (source_of text changes.entry) answer.status answer.text.items) }
{
    match accept_read(alloc, reader, changes)? {
        Ok(model) => answer_over(alloc, command, &model, changes, others, watcher),
        Err(answer) => Ok(answer),
    }
}

// What it answers over the data of a model.
fn answer_over(
    alloc: Global,
    command: Command<'_>,
    model: &ModelData,
    changes: Option<&[u8]>,
    others: &[Vec<u8>],
    watcher: &mut dyn Watcher,
) -> Result<Answer, AllocError>
    requires in_range { IsInRange (question_of command) }
    requires over_data { IsOverData (question_of command) }
    ensures { (text : List ℕ) → IfOk result (λ answer.
        DueOverData (question_of command.entry) (option_map (λ bytes. bytes.now) changes.entry) (text ∷ map (λ bytes. bytes.items) others.now) model.now.rounded model.now.facts answer.status answer.text.items) }
{
    match command {
        Command::Solve {
            gap,
            pivots,
            places,
            show,
            method,
            ..
        } => {
            let wanted = wanted_by(gap, pivots, show, method);
            answer_solve(alloc, model, places, wanted, watcher)
        }
        Command::SolveFrom {
            gap,
            pivots,
            places,
            show,
            ..
        } => {
            let wanted = wanted_by(gap, pivots, show, SolveMethod::Rounded);
            answer_from(alloc, model, places, wanted, bytes_at(others, 0), watcher)
        }
        Command::Explain {
            pivots,
            places,
            method,
            ..
        } => {
            let wanted = explain_command::Wanted { pivots, method };
            answer_explain(alloc, model, places, wanted, watcher)
        }
        Command::Curve {
            region,
            emission,
            limits,
            gap,
            pivots,
            places,
            method,
            ..
        } => {
            let wanted = curve_command::Wanted {
                method,
                pivots,
                gap,
            };
            answer_curve(
                alloc, model, places, wanted, region, emission, &limits, watcher,
            )
        }
        Command::Span {
            region,
            technology,
            year,
            slack,
            gap,
            pivots,
            places,
            method,
            ..
        } => {
            let wanted = span_command::Wanted {
                method,
                slack,
                gap,
                pivots: u64::from(pivots),
            };
            answer_span(
                alloc, model, places, wanted, region, technology, year, watcher,
            )
        }
        Command::Reduce { places, .. } => {
            watcher.see(Stage::Rows);
            answer_reduce(alloc, model, places)
        }
        command => {
            watcher.see(Stage::Checks);
            answer_checked(alloc, command, model, changes, others)
        }
    }
}

// What a command answers over the data of a model that begins with a check of what another file holds.
fn answer_checked(
    alloc: Global,
    command: Command<'_>,
    model: &ModelData,
    changes: Option<&[u8]>,
    others: &[Vec<u8>],
) -> Result<Answer, AllocError>
    requires in_range { IsInRange (question_of command) }
    requires one { BeginsWithCheck (question_of command) }
    ensures { (text : List ℕ) → IfOk result (λ answer.
        DueOverData (question_of command.entry) (option_map (λ bytes. bytes.now) changes.entry) (text ∷ map (λ bytes. bytes.items) others.now) model.now.rounded model.now.facts answer.status answer.text.items) }
{
    let first = bytes_at(others, 0);
    match command {
        Command::Check {
            multipliers,
            gap,
            places,
            ..
        } => {
            let claim = Claim {
                plan: first,
                multipliers: bytes_if(multipliers, others, 1),
                gap,
            };
            answer_check(alloc, model, places, claim)
        }
        Command::CheckProof { gap, places, .. } => {
            answer_proof(alloc, model, places, first, gap)
        }
        Command::Table {
            name,
            exact,
            gap,
            places,
            ..
        } => answer_table(alloc, model, places, first, TableAsked { name, exact, gap }),
        Command::Page {
            file,
            gap,
            places,
            ..
        } => {
            let name = last_segment(file.as_bytes());
            let title = Title { name, changes };
            answer_paged(alloc, model, places, first, PageAsked { title, gap })
        }
        _ => unreachable!(),
    }
}

// The bytes in this place, none where there are no more.
fn bytes_at<'a>(contents: &'a [Vec<u8>], place: usize) -> &'a [u8]
    ensures { result.now ≡ bytes_at (map (λ bytes. bytes.items) contents.now) place }
{
    match contents.get(place) {
        Some(bytes) => bytes.as_slice(),
        None => &[],
    }
}

// The bytes in this place, where a file is named.
fn bytes_if<'a>(name: Option<&str>, contents: &'a [Vec<u8>], place: usize) -> Option<&'a [u8]>
    ensures { option_map (λ bytes. bytes.now) result ≡ changes_at (map (λ bytes. bytes.items) contents.now) place (option_map (λ name. name.now) name.entry) }
{
    match name {
        Some(_) => Some(bytes_at(contents, place)),
        None => None,
    }
}

// How many files a command of one data file names besides.
fn others_of(command: &Command<'_>) -> usize
    requires { HasOneModel (question_of command.now) }
    ensures { length (names_in (question_of command.now)) ≡ 1 + result }
{
    match command {
        Command::Check {
            multipliers: Some(_),
            ..
        } => 2,
        Command::Check { .. }
        | Command::CheckProof { .. }
        | Command::SolveFrom { .. }
        | Command::Table { .. }
        | Command::Page { .. } => 1,
        _ => 0,
    }
}

// The place of the second file of changes of `compare`, after two proofs and the first one, where that is named.
fn second_place(changes: Option<&str>) -> usize
    ensures { result ≡ 2 + length (option_to_list (option_map (λ name. name.now) changes.entry)) }
{
    match changes {
        Some(_) => 3,
        None => 2,
    }
}

// What names data on a page: the name of their file, and their changes.
fn titled<'a>(path: &'a str, changes: Option<&'a [u8]>) -> Title<'a>
    ensures { title_of result ≡ titled path.now (option_map (λ bytes. bytes.now) changes.entry) }
{
    let name = last_segment(path.as_bytes());
    Title { name, changes }
}
