// The methods over a book of rows: its rows, with what each of them defines, are a problem.

ghost use Rattle.std.specs.Prelude.{◌≡◌, None, IfErr, IfOk, IfSome, OnOk};
ghost use Rattle.exact_num.specs.Steps.{first_wide};
ghost use Rattle.row_core.specs.RowLists.{AreVariablesOf};
ghost use Rattle.written_method.specs.Eliminated.{elimination_steps};
ghost use Rattle.variable_elimination.specs.SoFar.{IsFirst};
ghost use Rattle.certified_answers.specs.Answers.{IsComplete, IsNamed, IsProved};
ghost use Rattle.exact_solver.specs.MethodEnds.{IsStopOf, end_seen};
ghost use Rattle.certified_answers.specs.declared.costs.Cost.TheVariants.{Model};
ghost use Rattle.row_problem.specs.Problems.{IsProblem};
ghost use Rattle.row_problem.specs.ProgramsOf.{IsPosedProblem};
ghost use Rattle.decimal_solver.specs.Answers as grid;
ghost use Rattle.rounded_solver.specs.Listed.{AreListed};
ghost use Rattle.command_answers.specs.BookMethods.{IsFoundBy, grid_end, method_end};
ghost use Rattle.command_answers.specs.BookPrograms.{IsProgramOf};
ghost use Rattle.command_answers.specs.Definers.{definers};

use call_stages::Watcher;
use certified_answers::{Certified, Cost, NoAnswer};
use decimal_solver::{Found, second};
use exact_solver::exact;
use rounded_solver::{guessed, guessed_rows};
use row_book::RowBook;
use row_core::{Stopped, Var};
use row_problem::{Problem, left_of};
use std::alloc::{AllocError, Global};
use variable_elimination::Reduced;

/// What is left of the rows of a book when all defined variables are removed.
#[derive(Drop)]
pub struct BookProgram {
    /// For each row the variable that it defines, if it defines one.
    pub defs: Vec<Option<Var>>,
    /// The linear program that is left.
    pub reduced: Reduced,
}

/// For each row of a book the variable that it defines, if it defines one.
pub fn definers(alloc: Global, book: &RowBook) -> Result<Vec<Option<Var>>, AllocError>
    ensures { IfOk result (λ defs. defs.items ≡ definers book.now.rows) }
{
    let count = book.rows().len();
    let mut defs = Vec::with_capacity(alloc, count)?;
    for i in 0..count {
        defs.push(book.defined_by(i))?;
    }
    Ok(defs)
}

/// The rows of a book, with what they define and their variables, are a problem, and listed with their variables.
pub fn problem_laws(book: &RowBook)
    ensures problem { IsProblem book.now.rows (definers book.now.rows) book.now.vars }
    ensures variables { AreVariablesOf book.now.rows book.now.vars }
    ensures listed { AreListed book.now.rows book.now.vars }
{
    let _ = book.vars();
}

/// Removes all defined variables from the rows of a book. `Width` comes exactly where a number that is formed doesn't fit, with the
/// first place at which one doesn't; any other refusal means that memory ran out.
pub fn eliminate_book(alloc: Global, book: &RowBook) -> Result<BookProgram, Stopped>
    ensures program { IfOk result (IsProgramOf book.now.rows book.now.vars) }
    ensures fits { OnOk result (first_wide (elimination_steps book.now.rows (definers book.now.rows)) ≡ None) }
    ensures stopped { IfErr result (IsFirst (first_wide (elimination_steps book.now.rows (definers book.now.rows)))) }
{
    let defs = definers(alloc, book)?;
    problem_laws(book);
    let reduced = left_of(alloc, book.rows(), &defs, book.vars())?;
    Ok(BookProgram { defs, reduced })
}

/// The rows of a book with what is left of them, as a problem at the model's cost.
pub fn problem_of<'a>(book: &'a RowBook, program: &'a BookProgram) -> Problem<'a>
    requires { IsProgramOf book.now.rows book.now.vars program.now }
    ensures posed { IsPosedProblem result }
    ensures rows { result.rows.now ≡ book.now.rows }
    ensures defs { result.defs.now ≡ definers book.now.rows }
    ensures vars { result.vars.now ≡ book.now.vars }
    ensures reduced { result.reduced.now ≡ program.now.reduced }
    ensures cost { result.cost ≡ Model }
{
    Problem {
        rows: book.rows(),
        defs: &program.defs,
        vars: book.vars(),
        reduced: &program.reduced,
        cost: Cost::Model,
    }
}

/// Solves the rows of a book, of which this is left, by the exact method, with so many pivots at most.
pub fn solve_book(
    alloc: Global,
    book: &RowBook,
    program: &BookProgram,
    pivots: u64,
) -> Result<Certified, NoAnswer>
    requires program { IsProgramOf book.now.rows book.now.vars program.now }
    requires fits { first_wide (elimination_steps book.now.rows (definers book.now.rows)) ≡ None }
    ensures end { IfOk result (λ found. end_seen found ≡ method_end book.now.rows book.now.vars pivots) }
    ensures stopped { IfErr result (IsStopOf (method_end book.now.rows book.now.vars pivots)) }
    ensures proved { IfOk result (IsProved book.now.rows book.now.vars) }
    ensures whole { IfOk result (IsComplete book.now.vars) }
    ensures named { IfOk result (IsNamed book.now.rows) }
{
    let problem = problem_of(book, program);
    exact(alloc, &problem, pivots)
}

/// What guesses give over a book of which this is left: a plan whose cost is above a proved bound by at most so many millionths of the
/// bound, or that there is no plan. Each guess may take so many pivots at most. When there is no such answer isn't defined. Refuses only
/// out of memory.
pub fn guess_book(
    alloc: Global,
    book: &RowBook,
    program: &BookProgram,
    gap: u32,
    pivots: u64,
    watcher: &mut dyn Watcher,
) -> Result<Option<Certified>, AllocError>
    requires { IsProgramOf book.now.rows book.now.vars program.now }
    ensures { IfOk result (λ found. IfSome found (IsFoundBy book.now.rows book.now.vars gap pivots)) }
{
    let problem = problem_of(book, program);
    guessed(alloc, &problem, gap, pivots, watcher)
}

/// What guesses give over the rows of a book alone, of which nothing is eliminated: as `guess_book`. `start` has a value for each variable,
/// in order, from which the first guess starts; it need not be right.
pub fn guess_rows(
    alloc: Global,
    book: &RowBook,
    start: Option<&[f64]>,
    gap: u32,
    pivots: u64,
    watcher: &mut dyn Watcher,
) -> Result<Option<Certified>, AllocError>
    ensures { IfOk result (λ found. IfSome found (IsFoundBy book.now.rows book.now.vars gap pivots)) }
{
    let defs = definers(alloc, book)?;
    problem_laws(book);
    guessed_rows(
        alloc,
        book.rows(),
        &defs,
        book.vars(),
        start,
        gap,
        pivots,
        watcher,
    )
}

/// What the attempt on a grid gives over a book: as `second` does.
pub fn second_book(
    alloc: Global,
    book: &RowBook,
    program: &BookProgram,
    gap: u32,
    pivots: u64,
) -> Result<Option<Found>, AllocError>
    requires { IsProgramOf book.now.rows book.now.vars program.now }
    ensures end { IfOk result (λ found. grid.end_seen found ≡ grid_end book.now.rows book.now.vars gap pivots) }
    ensures proved { IfOk result (grid.AllOfFound (grid.IsProved book.now.rows book.now.vars gap)) }
    ensures whole { IfOk result (grid.AllOfFound (grid.IsComplete book.now.vars)) }
    ensures named { IfOk result (grid.AllOfFound (grid.IsNamed book.now.rows)) }
{
    second(
        alloc,
        book.rows(),
        &program.defs,
        book.vars(),
        &program.reduced,
        gap,
        pivots,
    )
}
