// The span of a capacity over a book of rows: its rows, with what each of them defines, are a problem.

ghost use Rattle.std.specs.Prelude.{◌≡◌, ◌<◌, Contains, IfErr, IfOk, IfSome};
ghost use Rattle.std.specs.List.{AllByRecursion};
ghost use Rattle.exact_num.specs.Value.{value_of};
ghost use Rattle.row_core.specs.declared.Row.{Row};
ghost use Rattle.row_core.specs.declared.cost_limit.TheConstants.{SPAN};
ghost use Rattle.row_core.specs.declared.kind_numbers.TheConstants.{NEW_CAPACITY};
ghost use Rattle.command_answers.specs.Definers.{definers};
ghost use Rattle.span_finder.specs.RoundedSpans.{IsRoundedSpan};
ghost use Rattle.span_finder.specs.SpanEnds.{EndsSo, Stops, span_seen};
ghost use Rattle.span_finder.specs.Spans.{HasNearBest, IsSpan};

use call_stages::Watcher;
use command_answers::{definers, problem_laws};
use exact_num::Frac;
use row_book::RowBook;
use row_core::{Plan, Var};
use span_finder::{RoundedSpan, Span, SpanFail, find_span, round_span};
use std::alloc::{AllocError, Global};

/// By the exact method, with so many pivots at most in each trial.
pub fn span_of_book(
    alloc: Global,
    book: &RowBook,
    limit: Frac,
    var: Var,
    pivots: u64,
) -> Result<Span, SpanFail>
    requires named { AllByRecursion (λ (row : Row). row.name.eq < SPAN) book.now.rows }
    requires chosen { var.kind ≡ NEW_CAPACITY }
    requires listed { Contains book.now.vars var }
    requires feasible { HasNearBest book.now.rows book.now.vars (value_of limit) }
    ensures end { IfOk result (λ span. EndsSo book.now.rows (definers book.now.rows) book.now.vars (value_of limit) var pivots (span_seen span)) }
    ensures stopped { IfErr result (Stops book.now.rows (definers book.now.rows) book.now.vars (value_of limit) var pivots) }
    ensures proved { IfOk result (IsSpan book.now.rows book.now.vars (value_of limit) var) }
{
    let defs = definers(alloc, book)?;
    problem_laws(book);
    find_span(alloc, book.rows(), &defs, book.vars(), limit, var, pivots)
}

/// By guesses that begin from a plan, whose ends may be so many millionths from the plans that are given with them. None where they find
/// nothing.
pub fn rounded_span_of_book(
    alloc: Global,
    book: &RowBook,
    limit: Frac,
    var: Var,
    near: &Plan,
    ppm: u32,
    pivots: u64,
    watcher: &mut dyn Watcher,
) -> Result<Option<RoundedSpan>, AllocError>
    requires named { AllByRecursion (λ (row : Row). row.name.eq < SPAN) book.now.rows }
    requires chosen { var.kind ≡ NEW_CAPACITY }
    requires listed { Contains book.now.vars var }
    ensures { IfOk result (λ found. IfSome found (IsRoundedSpan book.now.rows book.now.vars (value_of limit) var ppm)) }
{
    let defs = definers(alloc, book)?;
    problem_laws(book);
    round_span(
        alloc,
        book.rows(),
        &defs,
        book.vars(),
        limit,
        var,
        near,
        ppm,
        pivots,
        watcher,
    )
}
