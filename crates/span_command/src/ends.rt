// The answers for a span, and for each stop before it.
ghost use Rattle.std.specs.Prelude.{◌≡◌, IfOk};
ghost use Rattle.exact_num.specs.Value.{value_of};
ghost use Rattle.command_answers.specs.declared.status.Status.{Status};
ghost use Rattle.command_answers.specs.CheckedPlans.{IsListedBook};
ghost use Rattle.span_finder.specs.RoundedSpans.{IsRoundedSpan};
ghost use Rattle.span_finder.specs.Spans.{IsSpan};
ghost use Rattle.span_command.specs.LimitedPlaces.{PlaceIsLimited, StopIsLimited, TrialIsLimited};
ghost use Rattle.span_command.specs.Outcomes.{near_text, span_text};
ghost use Rattle.span_command.specs.SpanTexts.{limited_line};

use crate::places::{push_place, push_trial_stop};
use crate::texts::{near_text, span_text};
use command_answers::{Answer, Status, Stop, TrialStop, push_with_number};
use exact_num::Frac;
use model_sets::Sets;
use row_book::RowBook;
use row_core::{Place, Var};
use span_finder::{RoundedSpan, Span};
use std::alloc::{AllocError, Global};

/// The answer for a span of a book near a least cost, within a limit.
pub fn answer_found(
    alloc: Global,
    book: &RowBook,
    sets: &Sets,
    cost: Frac,
    limit: Frac,
    var: Var,
    span: &Span,
) -> Result<Answer, AllocError>
    requires listed { IsListedBook sets.now book.now.rows book.now.vars }
    requires span { IsSpan book.now.rows book.now.vars (value_of limit) var span.now }
    ensures { IfOk result (λ answer. (answer.status ≡ Status.Done)
        × (answer.text.items ≡ span_text sets.now (value_of cost) (value_of limit) span.now)) }
{
    let text = span_text(alloc, sets, cost, limit, span)?;
    Ok(Answer {
        status: Status::Done,
        text,
    })
}

/// The answer for ends of the rounded method, in plans of a book within a limit near a bound.
pub fn answer_near_ends(
    alloc: Global,
    book: &RowBook,
    sets: &Sets,
    cost: Frac,
    bound: Frac,
    limit: Frac,
    var: Var,
    gap: u32,
    span: &RoundedSpan,
) -> Result<Answer, AllocError>
    requires listed { IsListedBook sets.now book.now.rows book.now.vars }
    requires span { IsRoundedSpan book.now.rows book.now.vars (value_of limit) var gap span.now }
    ensures { IfOk result (λ answer. (answer.status ≡ Status.Done)
        × (answer.text.items ≡ near_text sets.now (value_of cost) (value_of bound) gap (value_of limit) span.now)) }
{
    let text = near_text(alloc, sets, cost, bound, gap, limit, span)?;
    Ok(Answer {
        status: Status::Done,
        text,
    })
}

/// The answer where the row that limits the cost, the elimination or a trial stops.
pub fn answer_limited(alloc: Global, stop: Stop, sets: &Sets) -> Result<Answer, AllocError>
    requires { StopIsLimited sets.now stop }
    ensures { IfOk result (λ answer. (answer.status ≡ Status.Uncertified stop)
        × (answer.text.items ≡ limited_line sets.now stop)) }
{
    let text = limited_line(alloc, stop, sets)?;
    Ok(Answer {
        status: Status::Uncertified(stop),
        text,
    })
}

// Its line.
fn limited_line(alloc: Global, stop: Stop, sets: &Sets) -> Result<Vec<u8>, AllocError>
    requires { StopIsLimited sets.now stop }
    ensures { IfOk result (λ text. text.items ≡ limited_line sets.now stop) }
{
    match stop {
        Stop::Budget(pivots) => budget_line(alloc, pivots, sets),
        Stop::Width(place) => width_line(alloc, place, sets),
        Stop::Trial(number, stop) => trial_line(alloc, number, stop, sets),
    }
}

// The line where a pivot is due after the last of so many.
fn budget_line(alloc: Global, pivots: u64, sets: &Sets) -> Result<Vec<u8>, AllocError>
    ensures { IfOk result (λ text. text.items ≡ limited_line sets.now (Stop.Budget pivots)) }
{
    let mut text = Vec::new(alloc);
    push_with_number(&mut text, b"uncertified budget ", pivots)?;
    text.extend_from_slice(b"\n")?;
    Ok(text)
}

// The line for a place at which a number doesn't fit.
fn width_line(alloc: Global, place: Place, sets: &Sets) -> Result<Vec<u8>, AllocError>
    requires { PlaceIsLimited sets.now place }
    ensures { IfOk result (λ text. text.items ≡ limited_line sets.now (Stop.Width place)) }
{
    let mut text = Vec::from_slice(alloc, b"uncertified width ")?;
    push_place(&mut text, place, sets)?;
    text.extend_from_slice(b"\n")?;
    Ok(text)
}

// The line where the trial of this number stopped.
fn trial_line(
    alloc: Global,
    number: u64,
    stop: TrialStop,
    sets: &Sets,
) -> Result<Vec<u8>, AllocError>
    requires { TrialIsLimited sets.now stop }
    ensures { IfOk result (λ text. text.items ≡ limited_line sets.now (Stop.Trial number stop)) }
{
    let mut text = Vec::new(alloc);
    push_with_number(&mut text, b"uncertified trial ", number)?;
    text.extend_from_slice(b" ")?;
    push_trial_stop(&mut text, stop, sets)?;
    text.extend_from_slice(b"\n")?;
    Ok(text)
}
