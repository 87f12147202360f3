// What is due over a book of rows: the least cost, a limit near it, and the span within the limit.
ghost use Rattle.std.specs.Prelude.{◌≡◌, Contains, None, IfOk};
ghost use Rattle.exact_num.specs.Steps.{first_wide};
ghost use Rattle.exact_num.specs.Value.{value_of};
ghost use Rattle.model_sets.specs.Data.{Data};
ghost use Rattle.row_core.specs.declared.kind_numbers.TheConstants.{NEW_CAPACITY};
ghost use Rattle.certified_answers.specs.Answers.{IsComplete, IsProved};
ghost use Rattle.certified_answers.specs.Worth.{IsPlan};
ghost use Rattle.written_method.specs.Eliminated.{elimination_steps};
ghost use Rattle.command_answers.specs.BookPrograms.{IsProgramOf};
ghost use Rattle.command_answers.specs.CheckedPlans.{IsBookOf, IsListedBook};
ghost use Rattle.command_answers.specs.Definers.{definers};
ghost use Rattle.span_finder.specs.SpanEnds.{Stops};
ghost use Rattle.span_finder.specs.Spans.{HasNearBest};
ghost use Rattle.span_command.specs.Outcomes.{IsToldStop, TellsNear, TellsSolution, TellsSpan};
ghost use Rattle.span_command.specs.Span.{DueForEnd, DueForMethod};

use crate::book_spans::span_of_book;
use crate::ends::{answer_found, answer_limited};
use crate::rounding::answer_rounded;
use crate::wanted::Wanted;
use call_stages::{Stage, Watcher};
use certified_answers::Certified;
use command_answers::{
    Answer, BookProgram, Status, eliminate_book, solve_book, stop_at, stop_on_book,
    stop_on_elimination,
};
use command_words::SolveMethod;
use exact_num::Frac;
use model_sets::Sets;
use result_tables::{FoundBy, infeasible_report, unbounded_report};
use row_book::RowBook;
use row_core::{Place, Plan, Var};
use span_finder::{SpanFail, slack_limit};
use std::alloc::{AllocError, Global};

/// What is due over a book whose linear program isn't too large, with written factors of so many decimal places, of data of which so many
/// numbers were rounded.
pub fn answer_method(
    alloc: Global,
    book: &RowBook,
    sets: &Sets,
    places: u8,
    var: Var,
    wanted: Wanted,
    rounded: u64,
    watcher: &mut dyn Watcher,
) -> Result<Answer, AllocError>
    requires listed { IsListedBook sets.now book.now.rows book.now.vars }
    requires chosen { var.kind ≡ NEW_CAPACITY }
    requires there { Contains book.now.vars var }
    ensures { (d : Data) → sets.now ≡ d.sets → IsBookOf places d book.now.rows book.now.vars
        → IfOk result (λ answer. DueForMethod places d book.now.rows var wanted rounded answer.status answer.text.items) }
{
    watcher.see(Stage::Elimination);
    match eliminate_book(alloc, book) {
        Ok(program) => answer_program(
            alloc, book, sets, &program, places, var, wanted, rounded, watcher,
        ),
        Err(stop) => stop_on_elimination(alloc, book, sets, stop),
    }
}

// What is due over a book of which this is left.
fn answer_program(
    alloc: Global,
    book: &RowBook,
    sets: &Sets,
    program: &BookProgram,
    places: u8,
    var: Var,
    wanted: Wanted,
    rounded: u64,
    watcher: &mut dyn Watcher,
) -> Result<Answer, AllocError>
    requires listed { IsListedBook sets.now book.now.rows book.now.vars }
    requires program { IsProgramOf book.now.rows book.now.vars program.now }
    requires fits { first_wide (elimination_steps book.now.rows (definers book.now.rows)) ≡ None }
    requires chosen { var.kind ≡ NEW_CAPACITY }
    requires there { Contains book.now.vars var }
    ensures { (d : Data) → sets.now ≡ d.sets → IsBookOf places d book.now.rows book.now.vars
        → IfOk result (λ answer. DueForMethod places d book.now.rows var wanted rounded answer.status answer.text.items) }
{
    match wanted.method {
        SolveMethod::Exact => answer_exact(
            alloc, book, sets, program, places, var, wanted, rounded, watcher,
        ),
        SolveMethod::Rounded => {
            match answer_rounded(
                alloc, book, sets, program, places, var, wanted, rounded, watcher,
            )? {
                Some(answer) => Ok(answer),
                None => answer_exact(
                    alloc, book, sets, program, places, var, wanted, rounded, watcher,
                ),
            }
        }
    }
}

// What is due by the exact method.
fn answer_exact(
    alloc: Global,
    book: &RowBook,
    sets: &Sets,
    program: &BookProgram,
    places: u8,
    var: Var,
    wanted: Wanted,
    rounded: u64,
    watcher: &mut dyn Watcher,
) -> Result<Answer, AllocError>
    requires listed { IsListedBook sets.now book.now.rows book.now.vars }
    requires program { IsProgramOf book.now.rows book.now.vars program.now }
    requires fits { first_wide (elimination_steps book.now.rows (definers book.now.rows)) ≡ None }
    requires chosen { var.kind ≡ NEW_CAPACITY }
    requires there { Contains book.now.vars var }
    ensures { (d : Data) → sets.now ≡ d.sets → IsBookOf places d book.now.rows book.now.vars
        → IfOk result (λ answer. DueForEnd places d book.now.rows var wanted rounded answer.status answer.text.items) }
{
    watcher.see(Stage::Exact);
    match solve_book(alloc, book, program, wanted.pivots) {
        Ok(solution) => answer_solution(alloc, book, sets, places, var, wanted, rounded, &solution),
        Err(stop) => stop_on_book(alloc, book, sets, stop, wanted.pivots),
    }
}

// What is told of a solution: what is near its cost, or that there is no least cost.
fn answer_solution(
    alloc: Global,
    book: &RowBook,
    sets: &Sets,
    places: u8,
    var: Var,
    wanted: Wanted,
    rounded: u64,
    solution: &Certified,
) -> Result<Answer, AllocError>
    requires listed { IsListedBook sets.now book.now.rows book.now.vars }
    requires chosen { var.kind ≡ NEW_CAPACITY }
    requires there { Contains book.now.vars var }
    requires proved { IsProved book.now.rows book.now.vars solution.now }
    requires complete { IsComplete book.now.vars solution.now }
    ensures { IfOk result (λ answer. TellsSolution sets.now book.now.rows book.now.vars var wanted rounded places solution.now answer.status answer.text.items) }
{
    match solution {
        Certified::Optimal { plan, cost, .. } => answer_near(
            alloc, book, sets, var, wanted, plan, *cost,
        ),
        Certified::Infeasible { pivots, .. } => Ok(Answer {
            status: Status::Infeasible,
            text: infeasible_report(alloc, *pivots, rounded, places, FoundBy::ByMethod)?,
        }),
        Certified::Unbounded {
            direction,
            pivots,
            ..
        } => Ok(Answer {
            status: Status::Unbounded,
            text: unbounded_report(alloc, direction, *pivots, rounded, places, sets)?,
        }),
    }
}

// What is told near the cost of a plan.
fn answer_near(
    alloc: Global,
    book: &RowBook,
    sets: &Sets,
    var: Var,
    wanted: Wanted,
    plan: &Plan,
    cost: Frac,
) -> Result<Answer, AllocError>
    requires listed { IsListedBook sets.now book.now.rows book.now.vars }
    requires chosen { var.kind ≡ NEW_CAPACITY }
    requires there { Contains book.now.vars var }
    requires plan { IsPlan book.now.rows book.now.vars plan.now (value_of cost) }
    ensures { IfOk result (λ answer. TellsNear sets.now book.now.rows book.now.vars (value_of cost) var wanted answer.status answer.text.items) }
{
    match slack_limit(cost, wanted.slack) {
        Ok(limit) => answer_within(alloc, book, sets, var, wanted, cost, limit),
        Err(_) => stop_at(alloc, Place::SumGap, sets),
    }
}

// What is told within a limit.
fn answer_within(
    alloc: Global,
    book: &RowBook,
    sets: &Sets,
    var: Var,
    wanted: Wanted,
    cost: Frac,
    limit: Frac,
) -> Result<Answer, AllocError>
    requires listed { IsListedBook sets.now book.now.rows book.now.vars }
    requires chosen { var.kind ≡ NEW_CAPACITY }
    requires there { Contains book.now.vars var }
    requires near { HasNearBest book.now.rows book.now.vars (value_of limit) }
    ensures { IfOk result (λ answer. TellsSpan sets.now book.now.rows book.now.vars (value_of cost) (value_of limit) var wanted.pivots answer.status answer.text.items) }
{
    match span_of_book(alloc, book, limit, var, wanted.pivots) {
        Ok(span) => answer_found(alloc, book, sets, cost, limit, var, &span),
        Err(fail) => answer_fail(alloc, book, sets, var, wanted, limit, fail),
    }
}

// What is told where there is none; nothing where memory ran out.
fn answer_fail(
    alloc: Global,
    book: &RowBook,
    sets: &Sets,
    var: Var,
    wanted: Wanted,
    limit: Frac,
    fail: SpanFail,
) -> Result<Answer, AllocError>
    requires listed { IsListedBook sets.now book.now.rows book.now.vars }
    requires stops { Stops book.now.rows (definers book.now.rows) book.now.vars (value_of limit) var wanted.pivots fail }
    ensures { IfOk result (λ answer. IsToldStop sets.now book.now.rows book.now.vars (value_of limit) var wanted.pivots answer.status answer.text.items) }
{
    // The rows and the variables of a book are what the places of the trials speak of.
    let _ = book.vars();
    match fail {
        SpanFail::Stopped(stop) => answer_limited(alloc, stop, sets),
        SpanFail::Memory => Err(AllocError),
    }
}
