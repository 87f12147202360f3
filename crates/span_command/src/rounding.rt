// The answer of the rounded method, where it finds one.
ghost use Rattle.std.specs.Prelude.{◌≡◌, Contains, None, IfOk, IfSome};
ghost use Rattle.exact_num.specs.Value.{value_of};
ghost use Rattle.model_sets.specs.Data.{Data};
ghost use Rattle.row_core.specs.declared.kind_numbers.TheConstants.{NEW_CAPACITY};
ghost use Rattle.command_answers.specs.BookPrograms.{IsProgramOf};
ghost use Rattle.command_answers.specs.CheckedPlans.{IsBookOf, IsListedBook};
ghost use Rattle.command_answers.specs.BookMethods.{IsFoundBy};
ghost use Rattle.span_command.specs.Outcomes.{IsToldNearly, TellsFound};
ghost use Rattle.span_command.specs.Span.{DueForFound, gaps_of};

use crate::book_spans::rounded_span_of_book;
use crate::ends::answer_near_ends;
use crate::wanted::{USUAL_GAPS, Wanted};
use call_stages::Watcher;
use certified_answers::Certified;
use command_answers::{Answer, BookProgram, Status, guess_book, guess_rows};
use exact_num::Frac;
use model_sets::Sets;
use result_tables::{Begun, FoundBy, infeasible_report};
use row_book::RowBook;
use row_core::{Plan, Var};
use span_finder::slack_limit;
use std::alloc::{AllocError, Global};

/// The attempt that the rounded method is.
const GUESSES: FoundBy = FoundBy::ByGuesses(Begun::FromNothing);

/// The answer for what the rounded method finds over a book, of data of which so many numbers were rounded: a bound of the cost, and ends
/// of the variable in plans near the bound, by the gap that is wanted, or the first of the usual ones by which it finds them. None where
/// it finds nothing, or no ends.
pub fn answer_rounded(
    alloc: Global,
    book: &RowBook,
    sets: &Sets,
    program: &BookProgram,
    places: u8,
    var: Var,
    wanted: Wanted,
    rounded: u64,
    watcher: &mut dyn Watcher,
) -> Result<Option<Answer>, AllocError>
    requires listed { IsListedBook sets.now book.now.rows book.now.vars }
    requires program { IsProgramOf book.now.rows book.now.vars program.now }
    requires chosen { var.kind ≡ NEW_CAPACITY }
    requires there { Contains book.now.vars var }
    ensures { (d : Data) → sets.now ≡ d.sets → IsBookOf places d book.now.rows book.now.vars
        → IfOk result (λ found. IfSome found (λ answer. DueForFound places d book.now.rows var wanted rounded answer.status answer.text.items)) }
{
    match wanted.gap {
        Some(gap) => answer_within(
            alloc, book, sets, program, places, var, wanted, gap, rounded, watcher,
        ),
        None => answer_usual(
            alloc, book, sets, program, places, var, wanted, rounded, watcher,
        ),
    }
}

// The answer by the first of the usual gaps by which there is one.
fn answer_usual(
    alloc: Global,
    book: &RowBook,
    sets: &Sets,
    program: &BookProgram,
    places: u8,
    var: Var,
    wanted: Wanted,
    rounded: u64,
    watcher: &mut dyn Watcher,
) -> Result<Option<Answer>, AllocError>
    requires listed { IsListedBook sets.now book.now.rows book.now.vars }
    requires program { IsProgramOf book.now.rows book.now.vars program.now }
    requires chosen { var.kind ≡ NEW_CAPACITY }
    requires there { Contains book.now.vars var }
    requires usual { wanted.gap ≡ None }
    ensures { (d : Data) → sets.now ≡ d.sets → IsBookOf places d book.now.rows book.now.vars
        → IfOk result (λ found. IfSome found (λ answer. DueForFound places d book.now.rows var wanted rounded answer.status answer.text.items)) }
{
    for gap in USUAL_GAPS {
        let found = answer_within(
            alloc, book, sets, program, places, var, wanted, gap, rounded, watcher,
        )?;
        if let Some(answer) = found {
            return Ok(Some(answer));
        }
    }
    Ok(None)
}

// The answer by one of the gaps that are tried.
fn answer_within(
    alloc: Global,
    book: &RowBook,
    sets: &Sets,
    program: &BookProgram,
    places: u8,
    var: Var,
    wanted: Wanted,
    gap: u32,
    rounded: u64,
    watcher: &mut dyn Watcher,
) -> Result<Option<Answer>, AllocError>
    requires listed { IsListedBook sets.now book.now.rows book.now.vars }
    requires program { IsProgramOf book.now.rows book.now.vars program.now }
    requires chosen { var.kind ≡ NEW_CAPACITY }
    requires there { Contains book.now.vars var }
    requires tried { Contains (gaps_of wanted.gap) gap }
    ensures { (d : Data) → sets.now ≡ d.sets → IsBookOf places d book.now.rows book.now.vars
        → IfOk result (λ found. IfSome found (λ answer. DueForFound places d book.now.rows var wanted rounded answer.status answer.text.items)) }
{
    match guess_least(alloc, book, program, gap, wanted.pivots, watcher)? {
        Some(solution) => answer_solution(
            alloc, book, sets, places, var, wanted, gap, rounded, &solution, watcher,
        ),
        None => Ok(None),
    }
}

// What guesses find of the least cost: those of the rows alone, and where they find nothing, those of what is left of the rows.
fn guess_least(
    alloc: Global,
    book: &RowBook,
    program: &BookProgram,
    gap: u32,
    pivots: u64,
    watcher: &mut dyn Watcher,
) -> Result<Option<Certified>, AllocError>
    requires { IsProgramOf book.now.rows book.now.vars program.now }
    ensures { IfOk result (λ found. IfSome found (IsFoundBy book.now.rows book.now.vars gap pivots)) }
{
    match guess_rows(alloc, book, None, gap, pivots, watcher)? {
        Some(found) => Ok(Some(found)),
        None => guess_book(alloc, book, program, gap, pivots, watcher),
    }
}

// What is told of what it finds.
fn answer_solution(
    alloc: Global,
    book: &RowBook,
    sets: &Sets,
    places: u8,
    var: Var,
    wanted: Wanted,
    gap: u32,
    rounded: u64,
    solution: &Certified,
    watcher: &mut dyn Watcher,
) -> Result<Option<Answer>, AllocError>
    requires listed { IsListedBook sets.now book.now.rows book.now.vars }
    requires chosen { var.kind ≡ NEW_CAPACITY }
    requires there { Contains book.now.vars var }
    requires found { IsFoundBy book.now.rows book.now.vars gap wanted.pivots solution.now }
    ensures { IfOk result (λ found. IfSome found (λ answer.
        TellsFound sets.now book.now.rows book.now.vars var wanted gap rounded places solution.now answer.status answer.text.items)) }
{
    match solution {
        Certified::Optimal {
            plan,
            cost,
            bound,
            ..
        } => answer_near(
            alloc, book, sets, var, wanted, gap, plan, *cost, *bound, watcher,
        ),
        Certified::Infeasible { pivots, .. } => Ok(Some(Answer {
            status: Status::Infeasible,
            text: infeasible_report(alloc, *pivots, rounded, places, GUESSES)?,
        })),
        Certified::Unbounded { .. } => Ok(None),
    }
}

// What is told near a bound. Guesses at both ends begin from the plan of that cost.
fn answer_near(
    alloc: Global,
    book: &RowBook,
    sets: &Sets,
    var: Var,
    wanted: Wanted,
    gap: u32,
    near: &Plan,
    cost: Frac,
    bound: Frac,
    watcher: &mut dyn Watcher,
) -> Result<Option<Answer>, AllocError>
    requires listed { IsListedBook sets.now book.now.rows book.now.vars }
    requires chosen { var.kind ≡ NEW_CAPACITY }
    requires there { Contains book.now.vars var }
    ensures { IfOk result (λ found. IfSome found (λ answer.
        IsToldNearly sets.now book.now.rows book.now.vars (value_of cost) (value_of bound) var wanted gap answer.status answer.text.items)) }
{
    let Ok(limit) = slack_limit(bound, wanted.slack) else {
        return Ok(None);
    };
    match rounded_span_of_book(alloc, book, limit, var, near, gap, wanted.pivots, watcher)? {
        Some(span) => {
            let answer = answer_near_ends(alloc, book, sets, cost, bound, limit, var, gap, &span)?;
            Ok(Some(answer))
        }
        None => Ok(None),
    }
}
