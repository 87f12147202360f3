// The two scenarios, by the files that tell them, and the answer where `check` doesn't accept one.
ghost use Rattle.std.specs.Prelude.{◌≡◌, ◌++◌, IfOk, OnOk};
ghost use Rattle.compare_command.specs.Compared.{files_line};

use command_answers::{AcceptedProof, Answer};
use model_sets::Sets;
use result_pages::Title;
use std::alloc::{AllocError, Global};

/// Which of the two scenarios. The files of the words are numbered from 1: the data file and the proof of the first scenario, and then
/// those of the second.
#[derive(Clone, Copy, PartialEq, Eq)]
pub enum Which {
    First,
    Second,
}

/// A proof that `check` accepts, over the sets of its data.
#[derive(Clone, Copy)]
pub struct Proved<'a> {
    /// The data file.
    pub title: Title<'a>,
    pub sets: &'a Sets,
    pub accepted: &'a AcceptedProof,
    /// The tables that its page is drawn from, where a page is written.
    pub tables: &'a [u8],
}

/// What `check` answers of the files of a scenario that it doesn't accept, after the line that says which files these are.
pub fn refuse_scenario(alloc: Global, which: Which, said: Answer) -> Result<Answer, AllocError>
    ensures { IfOk result (λ answer. (answer.status ≡ said.status)
        × (answer.text.items ≡ files_line which ++ said.text.items)) }
{
    let Answer { status, text: line } = said;
    let mut text = Vec::new(alloc);
    push_scenario(&mut text, which, line.as_slice())?;
    Ok(Answer { status, text })
}

/// Appends which files are spoken of, and what `check` says of them.
pub(crate) fn push_scenario(out: &mut Vec<u8>, which: Which, said: &[u8]) -> Result<(), AllocError>
    ensures { OnOk result (out.new.items ≡ out.old.items ++ (files_line which ++ said.now)) }
{
    out.extend_from_slice(files_line(which))?;
    out.extend_from_slice(said)
}

// The line that says which files are spoken of.
fn files_line(which: Which) -> &'static [u8]
    ensures { result.now ≡ files_line which }
{
    match which {
        Which::First => b"files 1 2\n",
        Which::Second => b"files 3 4\n",
    }
}
