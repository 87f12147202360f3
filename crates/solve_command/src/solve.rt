// What `solve` answers over accepted data: an end of the exact method, or why there is none.
ghost use Rattle.std.specs.Prelude.{◌≡◌, None, IfOk};
ghost use Rattle.exact_num.specs.Steps.{first_wide};
ghost use Rattle.discount_factors.specs.Factors.{IsPlaces};
ghost use Rattle.model_sets.specs.Data.{Data};
ghost use Rattle.certified_answers.specs.Answers.{IsComplete, IsNamed};
ghost use Rattle.written_method.specs.Eliminated.{elimination_steps};
ghost use Rattle.command_answers.specs.BookPrograms.{IsProgramOf};
ghost use Rattle.command_answers.specs.CheckedPlans.{IsBookOf, IsListedBook};
ghost use Rattle.command_answers.specs.Definers.{definers};
ghost use Rattle.solve_command.specs.Shown.{shown_of, wanted_by};
ghost use Rattle.solve_command.specs.Solve.{DueForEnd, DueForMethod, DueForRows, DueForSized, DueForSolve};
ghost use Rattle.solve_command.specs.Second.{TellsExactly};

use crate::ends::status_of;
use crate::readback::{readback_laws, solution_fractions};
use crate::rounding::{answer_rounded, answer_rows};
use crate::second::or_second;
use crate::texts::solution_text;
use call_stages::{Stage, Watcher};
use certified_answers::Certified;
use command_answers::{
    Answer, BookProgram, eliminate_book, made_book, refuse_large, solve_book, stop_at,
    stop_on_book, stop_on_elimination,
};
use command_words::{SolveMethod, SolveShow};
use model_sets::Sets;
use param_tables::ModelData;
use result_tables::{Begun, FoundBy};
use row_book::RowBook;
use row_core::Stopped;
use std::alloc::{AllocError, Global};

/// What is shown of a solution: a report, its plan, its multipliers, what proves it, one line, or a few lines.
#[derive(Clone, Copy, PartialEq, Eq)]
pub enum Shown {
    Report,
    Plan,
    Multipliers,
    Proof,
    Line,
    Summary,
}

/// What the words ask `solve` to show.
pub fn shown_of(show: SolveShow) -> Shown
    ensures { result ≡ shown_of show }
{
    match show {
        SolveShow::Report => Shown::Report,
        SolveShow::Plan => Shown::Plan,
        SolveShow::Multipliers => Shown::Multipliers,
        SolveShow::Proof => Shown::Proof,
        SolveShow::Line => Shown::Line,
    }
}

/// What is wanted of a model: a cost that is at most so many millionths of the bound above it, found by so many pivots at most,
/// what is to be shown, the method to begin with, and what the report is to say that guesses began from.
#[derive(Clone, Copy, PartialEq, Eq)]
pub struct Wanted {
    pub gap: u32,
    pub pivots: u32,
    pub show: Shown,
    pub method: SolveMethod,
    pub begun: Begun,
}

/// What the words want: a gap in millionths, the most pivots, what is to be shown, and the method. Guesses begin from nothing.
pub fn wanted_by(gap: u32, pivots: u32, show: SolveShow, method: SolveMethod) -> Wanted
    ensures { result ≡ wanted_by gap pivots show method }
{
    Wanted {
        gap,
        pivots,
        show: shown_of(show),
        method,
        begun: Begun::FromNothing,
    }
}

/// What is due over any data that have the model's sets and values, with written factors of 6 or 9 decimal places.
///
/// The gap is kept whichever it is by the exact method: the cost of the plan that it ends with is its bound.
pub fn answer_solve(
    alloc: Global,
    model: &ModelData,
    places: u8,
    wanted: Wanted,
    watcher: &mut dyn Watcher,
) -> Result<Answer, AllocError>
    requires { IsPlaces places }
    ensures { IfOk result (λ answer.
        DueForSolve places wanted model.now.rounded model.now.facts answer.status answer.text.items) }
{
    watcher.see(Stage::Rows);
    match made_book(alloc, model, places)? {
        Ok(book) => answer_book(
            alloc,
            &book,
            model.sets(),
            places,
            wanted,
            model.rounded(),
            None,
            watcher,
        ),
        Err(answer) => Ok(answer),
    }
}

// What is due over a book of rows, with written factors of so many decimal places, of data of which so many numbers were rounded. With the
// rounded method what guesses of the rows find comes first, however large the linear program is: nothing is eliminated exactly for them. They
// begin from these values of the variables, in order, where there are any.
pub(crate) fn answer_book(
    alloc: Global,
    book: &RowBook,
    sets: &Sets,
    places: u8,
    wanted: Wanted,
    rounded: u64,
    start: Option<&[f64]>,
    watcher: &mut dyn Watcher,
) -> Result<Answer, AllocError>
    requires { IsListedBook sets.now book.now.rows book.now.vars }
    ensures { (d : Data) → sets.now ≡ d.sets → IsBookOf places d book.now.rows book.now.vars
        → IfOk result (λ answer. DueForRows places d book.now.rows wanted rounded answer.status answer.text.items) }
{
    match wanted.method {
        SolveMethod::Exact => answer_sized(alloc, book, sets, places, wanted, rounded, watcher),
        SolveMethod::Rounded => {
            match answer_rows(alloc, book, sets, places, wanted, rounded, start, watcher)? {
                Some(answer) => Ok(answer),
                None => answer_sized(alloc, book, sets, places, wanted, rounded, watcher),
            }
        }
    }
}

/// What is due over a book of rows, with written factors of so many decimal places, of data of which so many numbers were rounded: that its
/// linear program is too large, or what is due where it isn't.
pub fn answer_sized(
    alloc: Global,
    book: &RowBook,
    sets: &Sets,
    places: u8,
    wanted: Wanted,
    rounded: u64,
    watcher: &mut dyn Watcher,
) -> Result<Answer, AllocError>
    requires { IsListedBook sets.now book.now.rows book.now.vars }
    ensures { (d : Data) → sets.now ≡ d.sets → IsBookOf places d book.now.rows book.now.vars
        → IfOk result (λ answer. DueForSized places d book.now.rows wanted rounded answer.status answer.text.items) }
{
    match refuse_large(alloc, book, wanted.method, u64::from(wanted.pivots))? {
        Some(answer) => Ok(answer),
        None => answer_eliminated(alloc, book, sets, places, wanted, rounded, watcher),
    }
}

// What is due by what is left of the rows when all defined variables are removed.
fn answer_eliminated(
    alloc: Global,
    book: &RowBook,
    sets: &Sets,
    places: u8,
    wanted: Wanted,
    rounded: u64,
    watcher: &mut dyn Watcher,
) -> Result<Answer, AllocError>
    requires { IsListedBook sets.now book.now.rows book.now.vars }
    ensures { (d : Data) → sets.now ≡ d.sets → IsBookOf places d book.now.rows book.now.vars
        → IfOk result (λ answer. DueForMethod places d book.now.rows wanted rounded answer.status answer.text.items) }
{
    watcher.see(Stage::Elimination);
    match eliminate_book(alloc, book) {
        Ok(program) => answer_program(
            alloc, book, sets, &program, places, wanted, rounded, watcher,
        ),
        Err(stop) => stop_on_elimination(alloc, book, sets, stop),
    }
}

// What is due over a book of rows of which this is left.
fn answer_program(
    alloc: Global,
    book: &RowBook,
    sets: &Sets,
    program: &BookProgram,
    places: u8,
    wanted: Wanted,
    rounded: u64,
    watcher: &mut dyn Watcher,
) -> Result<Answer, AllocError>
    requires listed { IsListedBook sets.now book.now.rows book.now.vars }
    requires program { IsProgramOf book.now.rows book.now.vars program.now }
    requires fits { first_wide (elimination_steps book.now.rows (definers book.now.rows)) ≡ None }
    ensures { (d : Data) → sets.now ≡ d.sets → IsBookOf places d book.now.rows book.now.vars
        → IfOk result (λ answer. DueForMethod places d book.now.rows wanted rounded answer.status answer.text.items) }
{
    match wanted.method {
        SolveMethod::Exact => {
            watcher.see(Stage::Exact);
            answer_exactly(alloc, book, sets, program, places, wanted, rounded)
        }
        SolveMethod::Rounded => {
            match answer_rounded(alloc, book, sets, program, places, wanted, rounded, watcher)? {
                Some(answer) => Ok(answer),
                None => {
                    watcher.see(Stage::Exact);
                    answer_exactly(alloc, book, sets, program, places, wanted, rounded)
                }
            }
        }
    }
}

// The end of the exact method, or what the second attempt gives where it stops.
fn answer_exactly(
    alloc: Global,
    book: &RowBook,
    sets: &Sets,
    program: &BookProgram,
    places: u8,
    wanted: Wanted,
    rounded: u64,
) -> Result<Answer, AllocError>
    requires listed { IsListedBook sets.now book.now.rows book.now.vars }
    requires program { IsProgramOf book.now.rows book.now.vars program.now }
    requires fits { first_wide (elimination_steps book.now.rows (definers book.now.rows)) ≡ None }
    ensures { (d : Data) → sets.now ≡ d.sets → IsBookOf places d book.now.rows book.now.vars
        → IfOk result (λ answer. DueForEnd places d book.now.rows wanted rounded answer.status answer.text.items) }
{
    let pivots = u64::from(wanted.pivots);
    match solve_book(alloc, book, program, pivots) {
        Ok(solution) => {
            readback_laws(book, sets);
            solution_fractions(&solution);
            answer_end(
                alloc, book, sets, program, places, wanted, rounded, &solution,
            )
        }
        Err(stop) => {
            readback_laws(book, sets);
            let first = stop_on_book(alloc, book, sets, stop, pivots)?;
            or_second(alloc, book, sets, program, places, wanted, rounded, first)
        }
    }
}

// What is told of a solution, or of the second attempt where a number that is formed for a price doesn't fit.
fn answer_end(
    alloc: Global,
    book: &RowBook,
    sets: &Sets,
    program: &BookProgram,
    places: u8,
    wanted: Wanted,
    rounded: u64,
    solution: &Certified,
) -> Result<Answer, AllocError>
    requires listed { IsListedBook sets.now book.now.rows book.now.vars }
    requires program { IsProgramOf book.now.rows book.now.vars program.now }
    requires fits { first_wide (elimination_steps book.now.rows (definers book.now.rows)) ≡ None }
    requires complete { IsComplete book.now.vars solution.now }
    requires named { IsNamed book.now.rows solution.now }
    ensures { IfOk result (λ answer. TellsExactly sets.now book.now.rows book.now.vars wanted rounded places solution.now answer.status answer.text.items) }
{
    let show = wanted.show;
    match solution_text(
        alloc,
        book,
        sets,
        solution,
        show,
        rounded,
        places,
        FoundBy::ByMethod,
    ) {
        Ok(text) => {
            let status = status_of(solution);
            Ok(Answer { status, text })
        }
        Err(Stopped::Width(place)) => {
            let first = stop_at(alloc, place, sets)?;
            or_second(alloc, book, sets, program, places, wanted, rounded, first)
        }
        Err(Stopped::Memory) => Err(AllocError),
    }
}
