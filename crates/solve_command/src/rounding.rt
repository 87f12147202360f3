// The answer of the rounded method, where it finds one.
ghost use Rattle.std.specs.Prelude.{◌≡◌, ◌⊎◌, IfOk, IfSome};
ghost use Rattle.model_sets.specs.Data.{Data};
ghost use Rattle.command_answers.specs.BookMethods.{IsFoundBy};
ghost use Rattle.command_answers.specs.BookPrograms.{IsProgramOf};
ghost use Rattle.command_answers.specs.CheckedPlans.{IsBookOf, IsListedBook};
ghost use Rattle.solve_command.specs.Rounding.{TellsFound};
ghost use Rattle.solve_command.specs.Solve.{IsFound, IsFoundInfeasibleShown};

use crate::ends::status_of;
use crate::readback::{readback_laws, solution_fractions};
use crate::solve::Wanted;
use crate::texts::solution_text;
use call_stages::Watcher;
use certified_answers::Certified;
use command_answers::{Answer, BookProgram, guess_book, guess_rows};
use model_sets::Sets;
use result_tables::FoundBy;
use row_book::RowBook;
use row_core::Stopped;
use std::alloc::{AllocError, Global};

/// The answer for what the rounded method finds over a book, of data of which so many numbers were rounded. None where it finds
/// nothing, or where a number that is formed for a price of what is found doesn't fit.
pub fn answer_rounded(
    alloc: Global,
    book: &RowBook,
    sets: &Sets,
    program: &BookProgram,
    places: u8,
    wanted: Wanted,
    rounded: u64,
    watcher: &mut dyn Watcher,
) -> Result<Option<Answer>, AllocError>
    requires listed { IsListedBook sets.now book.now.rows book.now.vars }
    requires program { IsProgramOf book.now.rows book.now.vars program.now }
    ensures { (d : Data) → sets.now ≡ d.sets → IsBookOf places d book.now.rows book.now.vars
        → IfOk result (λ found. IfSome found (λ answer.
        IsFound places d book.now.rows wanted rounded answer.status answer.text.items
        ⊎ IsFoundInfeasibleShown places d book.now.rows wanted rounded answer.status answer.text.items)) }
{
    let found = guess_book(
        alloc,
        book,
        program,
        wanted.gap,
        u64::from(wanted.pivots),
        watcher,
    )?;
    answer_guess(alloc, book, sets, found, places, wanted, rounded)
}

/// The same by guesses of the rows alone, from these values of the variables, in order, where there are any: no defined variable is removed
/// from the rows exactly.
pub fn answer_rows(
    alloc: Global,
    book: &RowBook,
    sets: &Sets,
    places: u8,
    wanted: Wanted,
    rounded: u64,
    start: Option<&[f64]>,
    watcher: &mut dyn Watcher,
) -> Result<Option<Answer>, AllocError>
    requires { IsListedBook sets.now book.now.rows book.now.vars }
    ensures { (d : Data) → sets.now ≡ d.sets → IsBookOf places d book.now.rows book.now.vars
        → IfOk result (λ found. IfSome found (λ answer.
        IsFound places d book.now.rows wanted rounded answer.status answer.text.items
        ⊎ IsFoundInfeasibleShown places d book.now.rows wanted rounded answer.status answer.text.items)) }
{
    let pivots = u64::from(wanted.pivots);
    let found = guess_rows(alloc, book, start, wanted.gap, pivots, watcher)?;
    answer_guess(alloc, book, sets, found, places, wanted, rounded)
}

// The answer for what guesses find, where they find something. They found it before what is to be shown is looked at: the calls that find it
// aren't given that. So calls that differ in it alone tell of one plan, unless a price of a report doesn't fit.
fn answer_guess(
    alloc: Global,
    book: &RowBook,
    sets: &Sets,
    found: Option<Certified>,
    places: u8,
    wanted: Wanted,
    rounded: u64,
) -> Result<Option<Answer>, AllocError>
    requires listed { IsListedBook sets.now book.now.rows book.now.vars }
    requires found { IfSome found (IsFoundBy book.now.rows book.now.vars wanted.gap wanted.pivots) }
    ensures { (d : Data) → sets.now ≡ d.sets → IsBookOf places d book.now.rows book.now.vars
        → IfOk result (λ found. IfSome found (λ answer.
        IsFound places d book.now.rows wanted rounded answer.status answer.text.items
        ⊎ IsFoundInfeasibleShown places d book.now.rows wanted rounded answer.status answer.text.items)) }
{
    match found {
        Some(solution) => {
            readback_laws(book, sets);
            solution_fractions(&solution);
            answer_found(alloc, book, sets, &solution, wanted, rounded, places)
        }
        None => Ok(None),
    }
}

// The answer for what was found.
fn answer_found(
    alloc: Global,
    book: &RowBook,
    sets: &Sets,
    solution: &Certified,
    wanted: Wanted,
    rounded: u64,
    places: u8,
) -> Result<Option<Answer>, AllocError>
    requires listed { IsListedBook sets.now book.now.rows book.now.vars }
    requires found { IsFoundBy book.now.rows book.now.vars wanted.gap wanted.pivots solution.now }
    ensures { IfOk result (λ found. IfSome found (λ answer.
        TellsFound sets.now book.now.rows book.now.vars wanted rounded places solution.now answer.status answer.text.items)) }
{
    let show = wanted.show;
    match solution_text(
        alloc,
        book,
        sets,
        solution,
        show,
        rounded,
        places,
        FoundBy::ByGuesses(wanted.begun),
    ) {
        Ok(text) => {
            let status = status_of(solution);
            Ok(Some(Answer { status, text }))
        }
        Err(Stopped::Width(_)) => Ok(None),
        Err(Stopped::Memory) => Err(AllocError),
    }
}
