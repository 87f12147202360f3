// What is found at a limit over a book of rows. Its rows, with what each of them defines, are a problem.
ghost use Rattle.std.specs.Prelude.{◌≡◌, IfOk, IfSome};
ghost use Rattle.command_answers.specs.CheckedPlans.{IsListedBook};
ghost use Rattle.command_answers.specs.Limits.{IsWithinLimits};
ghost use Rattle.command_answers.specs.PlacesWithin.{IsRowOfSets};
ghost use Rattle.command_words.specs.declared.command.SolveMethod.TheVariants.{Rounded};
ghost use Rattle.model_sets.specs.Members.{SetLists};
ghost use Rattle.curve_command.specs.Outcomes.{BookTells, IsPointBy};

use crate::trials::{Trial, Wanted};
use call_stages::{Stage, Watcher};
use command_answers::{definers, problem_laws, refuse_large};
use command_words::SolveMethod;
use emission_curve::{Point, round_limit, solve_limit};
use model_sets::Sets;
use row_book::RowBook;
use row_core::RowName;
use std::alloc::{AllocError, Global};

/// The trial of the limit whose row has this name, over a book: by guesses, where these are asked for and find a point, however large its
/// linear program is, or else by its size. Guesses begin from the values of the plan of the trial before, in `start`, and leave theirs there.
pub fn book_trial(
    alloc: Global,
    book: &RowBook,
    sets: &Sets,
    limit: RowName,
    wanted: Wanted,
    start: &mut Vec<f64>,
    watcher: &mut dyn Watcher,
) -> Result<Trial, AllocError>
    requires listed { IsListedBook sets.now book.now.rows book.now.vars }
    requires limit { IsRowOfSets sets.now limit }
    ensures { IfOk result (BookTells sets.now book.now limit wanted) }
{
    match wanted.method {
        SolveMethod::Exact => sized_trial(alloc, book, sets, limit, wanted, watcher),
        SolveMethod::Rounded => match rounded_point(alloc, book, limit, wanted, start, watcher)? {
            Some(point) => Ok(Trial::Ended(point)),
            None => sized_trial(alloc, book, sets, limit, wanted, watcher),
        },
    }
}

// The point that guesses find. It is no stop, so that no name of a place is asked for.
fn rounded_point(
    alloc: Global,
    book: &RowBook,
    limit: RowName,
    wanted: Wanted,
    start: &mut Vec<f64>,
    watcher: &mut dyn Watcher,
) -> Result<Option<Point>, AllocError>
    requires { wanted.method ≡ Rounded }
    ensures { (sets : SetLists) → IfOk result (λ found. IfSome found (IsPointBy sets book.now limit wanted)) }
{
    let defs = definers(alloc, book)?;
    problem_laws(book);
    round_limit(
        alloc,
        book.rows(),
        &defs,
        book.vars(),
        limit,
        start,
        wanted.gap,
        u64::from(wanted.pivots),
        watcher,
    )
}

// The trial of a book by the size of its linear program: too large, or the point of the exact method.
fn sized_trial(
    alloc: Global,
    book: &RowBook,
    sets: &Sets,
    limit: RowName,
    wanted: Wanted,
    watcher: &mut dyn Watcher,
) -> Result<Trial, AllocError>
    requires listed { IsListedBook sets.now book.now.rows book.now.vars }
    requires limit { IsRowOfSets sets.now limit }
    ensures { IfOk result (BookTells sets.now book.now limit wanted) }
{
    match refuse_large(alloc, book, wanted.method, u64::from(wanted.pivots))? {
        Some(answer) => Ok(Trial::Refused(answer)),
        None => {
            let point = exact_point(alloc, book, sets, limit, wanted, watcher)?;
            Ok(Trial::Ended(point))
        }
    }
}

// The point of the exact method over a book whose linear program isn't too large.
fn exact_point(
    alloc: Global,
    book: &RowBook,
    sets: &Sets,
    limit: RowName,
    wanted: Wanted,
    watcher: &mut dyn Watcher,
) -> Result<Point, AllocError>
    requires listed { IsListedBook sets.now book.now.rows book.now.vars }
    requires limit { IsRowOfSets sets.now limit }
    requires within { IsWithinLimits book.now.rows book.now.vars }
    ensures { IfOk result (IsPointBy sets.now book.now limit wanted) }
{
    let defs = definers(alloc, book)?;
    problem_laws(book);
    let pivots = u64::from(wanted.pivots);
    watcher.see(Stage::Exact);
    let point = solve_limit(alloc, book.rows(), &defs, book.vars(), limit, pivots)?;
    Ok(point)
}
