// The files of a command, and the answer where one wasn't read to its end.
ghost use Rattle.std.specs.Prelude.{◌≡◌, ◌+◌, ◌++◌, ◌≤◌, ◌<◌, true, false, IfOk, OnOk, length, map, option_map};
ghost use Rattle.std.specs.Option.{option_to_list};
ghost use Rattle.command_answers.specs.Lines.{stop_line, too_long_line};
ghost use Rattle.command_words.specs.Commands.{question_of, request_of};
ghost use Rattle.command_words.specs.Words.{names_in, names_of};
ghost use Rattle.osemosys_run.specs.Causes.{TellsEnd};
ghost use Rattle.osemosys_run.specs.Requests.{marks_for, marks_in};
ghost use Rattle.request_files.specs.Marked.{marks_of, names_of as names_asked};

use command_answers::{Answer, ReadStop, Refusal, Status, stop_line, too_long_line};
use command_words::{Command, Request};
use request_files::{ReadEnd, RequestFile, Stopped};
use std::alloc::{AllocError, Global};

/// The files of a request, in order, those of changes last; data files are fed to readers.
pub fn files_of<'a>(
    alloc: Global,
    request: &Request<'a>,
) -> Result<Vec<RequestFile<'a>>, AllocError>
    ensures few { IfOk result (λ files. length files.items ≤ 6) }
    ensures names { IfOk result (λ files. names_asked files.items ≡ names_of (request_of request.now)) }
    ensures marks { IfOk result (λ files. marks_of files.items ≡ marks_for (request_of request.now)) }
{
    let mut files = files_in(alloc, &request.command)?;
    push_if(&mut files, request.changes)?;
    push_if(&mut files, request.changes2)?;
    Ok(files)
}

// Adds the file, where one is named.
fn push_if<'a>(files: &mut Vec<RequestFile<'a>>, name: Option<&'a str>) -> Result<(), AllocError>
    ensures few { OnOk result (length files.new.items ≤ length files.old.items + 1) }
    ensures names { OnOk result (names_asked files.new.items ≡ names_asked files.old.items ++ option_to_list (option_map (λ name. name.now) name.entry)) }
    ensures marks { OnOk result (marks_of files.new.items ≡ marks_of files.old.items ++ map (λ name. false) (option_to_list (option_map (λ name. name.now) name.entry))) }
{
    if let Some(name) = name {
        files.push(held(name))?;
    }
    Ok(())
}

// The files of a command, in order.
fn files_in<'a>(alloc: Global, command: &Command<'a>) -> Result<Vec<RequestFile<'a>>, AllocError>
    ensures few { IfOk result (λ files. length files.items ≤ 4) }
    ensures names { IfOk result (λ files. names_asked files.items ≡ names_in (question_of command.now)) }
    ensures marks { IfOk result (λ files. marks_of files.items ≡ marks_in (question_of command.now)) }
{
    match command {
        Command::Mps { file, .. }
        | Command::Solve { file, .. }
        | Command::Explain { file, .. }
        | Command::Curve { file, .. }
        | Command::Span { file, .. }
        | Command::Reduce { file, .. }
        | Command::Warn { file } => Ok(vec![in alloc; fed(file)]?),
        Command::CheckProof {
            file,
            proof: second,
            ..
        }
        | Command::Table {
            file,
            proof: second,
            ..
        }
        | Command::Page {
            file,
            proof: second,
            ..
        }
        | Command::SolveFrom {
            file,
            start: second,
            ..
        } => Ok(vec![in alloc; fed(file), held(second)]?),
        Command::Check {
            file,
            plan,
            multipliers: None,
            ..
        } => Ok(vec![in alloc; fed(file), held(plan)]?),
        Command::Check {
            file,
            plan,
            multipliers: Some(name),
            ..
        } => Ok(vec![in alloc; fed(file), held(plan), held(name)]?),
        Command::Compare {
            first,
            first_proof,
            second,
            second_proof,
            ..
        } => Ok(vec![in alloc;
            fed(first),
            held(first_proof),
            fed(second),
            held(second_proof),
        ]?),
        Command::Make { .. } => Ok(Vec::new(alloc)),
    }
}

// A file that is fed to a reader.
fn fed<'a>(name: &'a str) -> RequestFile<'a>
    ensures { result ≡ record { name = name.entry; is_fed = true } }
{
    let is_fed = true;
    RequestFile { name, is_fed }
}

// A file whose bytes are held.
fn held<'a>(name: &'a str) -> RequestFile<'a>
    ensures { result ≡ record { name = name.entry; is_fed = false } }
{
    let is_fed = false;
    RequestFile { name, is_fed }
}

/// The answer where the reading stopped at a file; its number counts from 1. None where memory ran out.
pub fn refuse_file(alloc: Global, stopped: Stopped) -> Result<Answer, AllocError>
    requires { stopped.place < 6 }
    ensures { IfOk result (λ answer. TellsEnd (stopped.place + 1) stopped.end answer.status answer.text.items) }
{
    let number = stopped.place as u8 + 1;
    match stopped.end {
        ReadEnd::NoFile => stop_reading(alloc, ReadStop::NoFile(number)),
        ReadEnd::Failed => stop_reading(alloc, ReadStop::Failed(number)),
        ReadEnd::TooLong => {
            let text = too_long_line(alloc, number)?;
            let status = Status::Refused(Refusal::TooLong(number));
            Ok(Answer { status, text })
        }
        ReadEnd::Memory => Err(AllocError),
    }
}

// The answer where a file couldn't be read.
fn stop_reading(alloc: Global, stop: ReadStop) -> Result<Answer, AllocError>
    ensures { IfOk result (λ answer.
        (answer.status ≡ Status.ReadFault stop) × (answer.text.items ≡ stop_line stop)) }
{
    let text = stop_line(alloc, stop)?;
    let status = Status::ReadFault(stop);
    Ok(Answer { status, text })
}
