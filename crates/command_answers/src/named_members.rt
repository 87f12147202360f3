// The members that words of a command name.
ghost use Rattle.std.specs.Prelude.{◌≡◌, IfOk, MatchResult};
ghost use Rattle.model_sets.specs.Names.{IsSet};
ghost use Rattle.command_answers.specs.declared.status.Status.{Status};
ghost use Rattle.command_answers.specs.NamedMembers.{IsMemberAt, IsNoMember};
ghost use Rattle.command_answers.specs.RefusalLines.{no_such_line};

use crate::answer::Answer;
use crate::refusal_lines::no_such_line;
use crate::status::{Refusal, Status};
use model_sets::Sets;
use std::alloc::{AllocError, Global};

/// The position of the member of the set that the word names, or the answer where the set has no such member. Names are compared byte
/// by byte, so that the word `007` isn't the member `7`.
pub fn find_member(
    alloc: Global,
    sets: &Sets,
    set: u8,
    word: &str,
) -> Result<Result<u16, Answer>, AllocError>
    requires { IsSet set }
    ensures { IfOk result (λ verdict. MatchResult verdict
        (λ position. IsMemberAt sets.now set word.now position)
        (λ answer. IsNoMember sets.now set word.now answer.status answer.text.items)) }
{
    match sets.index_of(set, word.as_bytes()) {
        Some(position) => Ok(Ok(position)),
        None => Ok(Err(refuse_member(alloc, set)?)),
    }
}

// The answer to a word that names no member of the set.
fn refuse_member(alloc: Global, set: u8) -> Result<Answer, AllocError>
    requires { IsSet set }
    ensures { IfOk result (λ answer. (answer.status ≡ Status.Refused (Refusal.NoSuch set))
        × (answer.text.items ≡ no_such_line set)) }
{
    let text = no_such_line(alloc, set)?;
    let status = Status::Refused(Refusal::NoSuch(set));
    Ok(Answer { status, text })
}
