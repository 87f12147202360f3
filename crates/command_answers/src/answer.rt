// An answer: a status with the text that is due, and answers of one line: to words that ask for nothing, to a file of values to start from that
// breaks its form, and to rows of which no smaller program is found.
ghost use Rattle.std.specs.Prelude.{◌≡◌, IfOk};
ghost use Rattle.command_answers.specs.Lines.{no_reduced_line, start_fault_line, words_line};

use crate::lines::{no_reduced_line, start_fault_line, words_line};
use crate::status::{Refusal, Status};
use command_words::WordFault;
use std::alloc::{AllocError, Global};

/// A status and the text that is due with it.
#[derive(Drop)]
pub struct Answer {
    pub status: Status,
    pub text: Vec<u8>,
}

/// The answer to words that ask for nothing.
pub fn refuse_words(alloc: Global, fault: WordFault) -> Result<Answer, AllocError>
    ensures { IfOk result (λ answer.
        (answer.status ≡ Status.Words fault) × (answer.text.items ≡ words_line fault)) }
{
    let text = words_line(alloc, fault)?;
    let status = Status::Words(fault);
    Ok(Answer { status, text })
}

/// The answer to a file of values to start from that breaks its form at this line first.
pub fn refuse_start(alloc: Global, number: u64) -> Result<Answer, AllocError>
    ensures { IfOk result (λ answer.
        (answer.status ≡ Status.Refused (Refusal.StartFile number)) × (answer.text.items ≡ start_fault_line number)) }
{
    let text = start_fault_line(alloc, number)?;
    let status = Status::Refused(Refusal::StartFile(number));
    Ok(Answer { status, text })
}

/// The answer to rows of which no smaller linear program is found.
pub fn refuse_reduced(alloc: Global) -> Result<Answer, AllocError>
    ensures { IfOk result (λ answer.
        (answer.status ≡ Status.Refused Refusal.NoReduced) × (answer.text.items ≡ no_reduced_line)) }
{
    let text = no_reduced_line(alloc)?;
    let status = Status::Refused(Refusal::NoReduced);
    Ok(Answer { status, text })
}
