// The answer of the second attempt, where it gives something.
ghost use Rattle.std.specs.Prelude.{◌≡◌, None, IfOk};
ghost use Rattle.exact_num.specs.Steps.{first_wide};
ghost use Rattle.row_core.specs.Numbers.{keys_of};
ghost use Rattle.written_method.specs.Eliminated.{elimination_steps};
ghost use Rattle.certified_answers.specs.Answers.{AreNamedIn};
ghost use Rattle.command_answers.specs.CheckedPlans.{IsListedBook};
ghost use Rattle.command_answers.specs.BookPrograms.{IsProgramOf};
ghost use Rattle.command_answers.specs.Definers.{definers};
ghost use Rattle.solve_command.specs.Second.{IsLastOf, TellsGrid, TellsSecond, found_solution};

use crate::readback::{multiplier_fractions, plan_fractions};
use crate::solve::{Shown, Wanted};
use crate::texts::{shown_beside, solution_text};
use certified_answers::Certified;
use command_answers::{Answer, BookProgram, Status, second_book};
use decimal_solver::Found;
use model_sets::Sets;
use result_tables::FoundBy;
use row_book::RowBook;
use row_core::Stopped;
use std::alloc::{AllocError, Global};

/// What the second attempt gives over a book, of data of which so many numbers were rounded; where it gives nothing, the first answer.
pub fn or_second(
    alloc: Global,
    book: &RowBook,
    sets: &Sets,
    program: &BookProgram,
    places: u8,
    wanted: Wanted,
    rounded: u64,
    first: Answer,
) -> Result<Answer, AllocError>
    requires listed { IsListedBook sets.now book.now.rows book.now.vars }
    requires program { IsProgramOf book.now.rows book.now.vars program.now }
    requires fits { first_wide (elimination_steps book.now.rows (definers book.now.rows)) ≡ None }
    ensures { IfOk result (λ last. IsLastOf sets.now book.now.rows book.now.vars wanted rounded places first last) }
{
    match answer_second(alloc, book, sets, program, places, wanted, rounded)? {
        Some(answer) => Ok(answer),
        None => Ok(first),
    }
}

// The answer of the second attempt. None where it gives nothing.
fn answer_second(
    alloc: Global,
    book: &RowBook,
    sets: &Sets,
    program: &BookProgram,
    places: u8,
    wanted: Wanted,
    rounded: u64,
) -> Result<Option<Answer>, AllocError>
    requires listed { IsListedBook sets.now book.now.rows book.now.vars }
    requires program { IsProgramOf book.now.rows book.now.vars program.now }
    requires fits { first_wide (elimination_steps book.now.rows (definers book.now.rows)) ≡ None }
    ensures { IfOk result (TellsSecond sets.now book.now.rows book.now.vars wanted rounded places) }
{
    if wanted.gap == 0 {
        return Ok(None);
    }
    let pivots = u64::from(wanted.pivots);
    match second_book(alloc, book, program, wanted.gap, pivots)? {
        Some(found) => {
            plan_fractions(&found.plan);
            multiplier_fractions(&found.multipliers);
            answer_grid(alloc, book, sets, found, wanted.show, rounded, places)
        }
        None => Ok(None),
    }
}

// The answer for what was found on the grid. None where a number that is formed for its prices doesn't fit, which making the report
// shows, whatever is to be shown.
fn answer_grid(
    alloc: Global,
    book: &RowBook,
    sets: &Sets,
    found: Found,
    show: Shown,
    rounded: u64,
    places: u8,
) -> Result<Option<Answer>, AllocError>
    requires listed { IsListedBook sets.now book.now.rows book.now.vars }
    requires whole { keys_of found.plan ≡ book.now.vars }
    requires named { AreNamedIn book.now.rows found.multipliers }
    ensures { IfOk result (TellsGrid sets.now book.now.rows book.now.vars show rounded places found) }
{
    let solution = solution_of(found);
    let report = match solution_text(
        alloc,
        book,
        sets,
        &solution,
        Shown::Report,
        rounded,
        places,
        FoundBy::OnGrid,
    ) {
        Ok(report) => report,
        Err(Stopped::Width(_)) => return Ok(None),
        Err(Stopped::Memory) => return Err(AllocError),
    };
    let text = shown_beside(alloc, book, sets, &solution, show, report)?;
    let status = Status::Done;
    Ok(Some(Answer { status, text }))
}

// What was found, as a solution of the exact method.
fn solution_of(found: Found) -> Certified
    ensures { result ≡ found_solution found }
{
    let Found {
        plan,
        multipliers,
        cost,
        bound,
        pivots,
    } = found;
    Certified::Optimal {
        plan,
        multipliers,
        cost,
        bound,
        pivots,
    }
}
