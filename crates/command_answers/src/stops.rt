// The answers where a method stopped before its end.
ghost use Rattle.std.specs.Prelude.{◌≡◌, IfOk};
ghost use Rattle.exact_num.specs.Steps.{first_wide};
ghost use Rattle.written_method.specs.Eliminated.{elimination_steps};
ghost use Rattle.variable_elimination.specs.SoFar.{IsFirst};
ghost use Rattle.exact_solver.specs.MethodEnds.{IsStopOf};
ghost use Rattle.command_answers.specs.Definers.{definers};
ghost use Rattle.command_answers.specs.BookMethods.{method_end};
ghost use Rattle.command_answers.specs.CheckedPlans.{IsListedBook};
ghost use Rattle.command_answers.specs.declared.status.Status.{Status};
ghost use Rattle.command_answers.specs.Lines.{uncertified_line};
ghost use Rattle.command_answers.specs.PlacesWithin.{PlaceIsWithin, TrialIsWithin};
ghost use Rattle.command_answers.specs.ToldStops.{IsStoppedFirst, TellsStop};

use crate::answer::Answer;
use crate::lines::{budget_line, trial_line, width_line};
use crate::status::Status;
use certified_answers::NoAnswer;
use model_sets::Sets;
use row_book::RowBook;
use row_core::{Place, Stopped};
use simplex_core::{Stop, TrialStop};
use std::alloc::{AllocError, Global};

/// The answer where a number that is formed at this place doesn't fit.
pub fn stop_at(alloc: Global, place: Place, sets: &Sets) -> Result<Answer, AllocError>
    requires { PlaceIsWithin sets.now place }
    ensures { IfOk result (λ answer. (answer.status ≡ Status.Uncertified (Stop.Width place))
        × (answer.text.items ≡ uncertified_line sets.now (Stop.Width place))) }
{
    let text = width_line(alloc, place, sets)?;
    let status = Status::Uncertified(Stop::Width(place));
    Ok(Answer { status, text })
}

/// The answer where a pivot is due after the last of so many.
pub fn stop_at_budget(alloc: Global, pivots: u64, sets: &Sets) -> Result<Answer, AllocError>
    ensures { IfOk result (λ answer. (answer.status ≡ Status.Uncertified (Stop.Budget pivots))
        × (answer.text.items ≡ uncertified_line sets.now (Stop.Budget pivots))) }
{
    let text = budget_line(alloc, pivots)?;
    let status = Status::Uncertified(Stop::Budget(pivots));
    Ok(Answer { status, text })
}

/// The answer where the trial of this number is the first of several that stopped, for this reason.
pub fn stop_at_trial(
    alloc: Global,
    number: u64,
    stop: TrialStop,
    sets: &Sets,
) -> Result<Answer, AllocError>
    requires { TrialIsWithin sets.now stop }
    ensures { IfOk result (λ answer. (answer.status ≡ Status.Uncertified (Stop.Trial number stop))
        × (answer.text.items ≡ uncertified_line sets.now (Stop.Trial number stop))) }
{
    let text = trial_line(alloc, number, stop, sets)?;
    let status = Status::Uncertified(Stop::Trial(number, stop));
    Ok(Answer { status, text })
}

/// The answer where the exact method stops on a book with so many pivots at most; none where memory ran out.
pub fn stop_on_book(
    alloc: Global,
    book: &RowBook,
    sets: &Sets,
    stop: NoAnswer,
    pivots: u64,
) -> Result<Answer, AllocError>
    requires listed { IsListedBook sets.now book.now.rows book.now.vars }
    requires stopped { IsStopOf (method_end book.now.rows book.now.vars pivots) stop }
    ensures { IfOk result (λ answer. TellsStop sets.now pivots stop answer.status answer.text.items) }
{
    // The rows and the variables of a book are what the places of the method speak of.
    let _ = book.vars();
    match stop {
        NoAnswer::Nothing => unreachable!(),
        NoAnswer::Budget => stop_at_budget(alloc, pivots, sets),
        NoAnswer::Width(place) => stop_at(alloc, place, sets),
        NoAnswer::Memory => Err(AllocError),
    }
}

/// The answer where the elimination of a book stops; none where memory ran out.
pub fn stop_on_elimination(
    alloc: Global,
    book: &RowBook,
    sets: &Sets,
    stop: Stopped,
) -> Result<Answer, AllocError>
    requires listed { IsListedBook sets.now book.now.rows book.now.vars }
    requires stopped { IsFirst (first_wide (elimination_steps book.now.rows (definers book.now.rows))) stop }
    ensures { IfOk result (λ answer. IsStoppedFirst sets.now book.now.rows answer.status answer.text.items) }
{
    // The rows and the variables of a book are what the places of the elimination speak of.
    let _ = book.vars();
    match stop {
        Stopped::Width(place) => stop_at(alloc, place, sets),
        Stopped::Memory => Err(AllocError),
    }
}
