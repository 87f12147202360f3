// The answers for what the trials found, and for one that stopped.
ghost use Rattle.std.specs.Prelude.{◌≡◌, IfOk, IfSome};
ghost use Rattle.command_answers.specs.declared.status.Status.{Status};
ghost use Rattle.command_answers.specs.CheckedPlans.{IsListedBook};
ghost use Rattle.command_answers.specs.Lines.{uncertified_line};
ghost use Rattle.conflict_sets.specs.Conflicts.{IsConflict};
ghost use Rattle.command_answers.specs.PlacesWithin.{StopIsWithin};
ghost use Rattle.explain_command.specs.Outcomes.{TellsFound};

use crate::texts::conflict_text;
use command_answers::{Answer, Status, Stop, stop_at, stop_at_budget, stop_at_trial};
use conflict_sets::Conflict;
use model_sets::Sets;
use row_book::RowBook;
use std::alloc::{AllocError, Global};

/// The answer for a conflict, or for none.
pub fn answer_found(
    alloc: Global,
    book: &RowBook,
    sets: &Sets,
    found: &Option<Conflict>,
) -> Result<Answer, AllocError>
    requires listed { IsListedBook sets.now book.now.rows book.now.vars }
    requires conflict { IfSome found.now (IsConflict book.now.rows book.now.vars) }
    ensures { IfOk result (λ answer. TellsFound sets.now found.now answer.status answer.text.items) }
{
    match found {
        Some(conflict) => Ok(Answer {
            status: Status::Infeasible,
            text: conflict_text(alloc, book, sets, conflict)?,
        }),
        None => Ok(Answer {
            status: Status::Done,
            text: Vec::from_slice(alloc, b"status feasible\nend\n")?,
        }),
    }
}

/// The answer where a trial stopped.
pub fn answer_stop(alloc: Global, stop: Stop, sets: &Sets) -> Result<Answer, AllocError>
    requires { StopIsWithin sets.now stop }
    ensures { IfOk result (λ answer. (answer.status ≡ Status.Uncertified stop)
        × (answer.text.items ≡ uncertified_line sets.now stop)) }
{
    match stop {
        Stop::Budget(pivots) => stop_at_budget(alloc, pivots, sets),
        Stop::Width(place) => stop_at(alloc, place, sets),
        Stop::Trial(number, stop) => stop_at_trial(alloc, number, stop, sets),
    }
}
