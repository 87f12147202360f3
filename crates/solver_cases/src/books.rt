//! Books of data files, and the simplex over what is left of their rows.

ghost use Rattle.std.specs.Prelude.{◌≡◌, ◌<◌, IfOk, IfSome, Contains};
ghost use Rattle.std.specs.List.{AllByRecursion};
ghost use Rattle.row_core.specs.declared.Row.{Row};
ghost use Rattle.row_core.specs.declared.kind_numbers.TheConstants.{NEW_CAPACITY};
ghost use Rattle.written_method.specs.Programs.{program_of};
ghost use Rattle.simplex_core.specs.Outcomes.{IsProved};
ghost use Rattle.command_answers.specs.BookPrograms.{IsProgramOf};
ghost use Rattle.row_core.specs.declared.cost_limit.TheConstants.{SPAN};

use command_answers::BookProgram;
use mathprog_data::read_blocks;
use param_tables::{build, sets_of};
use row_book::RowBook;
use row_core::Var;
use row_core::kind_numbers::NEW_CAPACITY;
use simplex_core::{End, Halt, solve};
use std::alloc::Global;

/// The most bytes of a data file.
const MOST_BYTES: usize = 1_000_000;

/// The data file has no book.
#[derive(Drop)]
pub struct NoBook;

/// The book of a data file.
pub fn book_of(alloc: Global, text: &str) -> Result<RowBook, NoBook>
    ensures { IfOk result (λ book. AllByRecursion (λ (row : Row). row.name.eq < SPAN) book.rows) }
{
    if text.len() > MOST_BYTES {
        return Err(NoBook);
    }
    let Ok(blocks) = read_blocks(alloc, text.as_bytes()) else {
        return Err(NoBook);
    };
    let Ok(sets) = sets_of(alloc, &blocks) else {
        return Err(NoBook);
    };
    let Ok(model) = build(alloc, &blocks, sets) else {
        return Err(NoBook);
    };
    match RowBook::new(alloc, &model, 6) {
        Ok(book) => Ok(book),
        Err(_) => Err(NoBook),
    }
}

/// Solves what is left of the rows of a book: that every book's program meets what `solve` asks for, and that each end then proves
/// what it says.
pub fn solve_program(
    alloc: Global,
    book: &RowBook,
    program: &BookProgram,
    pivots: u64,
) -> Result<End, Halt>
    requires { IsProgramOf book.now.rows book.now.vars program.now }
    ensures { IfOk result (IsProved (program_of program.now.reduced)) }
{
    solve(alloc, &program.reduced, pivots)
}

/// The first NewCapacity of a technology, if the book has one.
pub fn capacity_of(book: &RowBook, technology: u16) -> Option<Var>
    ensures kind { IfSome result (λ var. var.kind ≡ NEW_CAPACITY) }
    ensures listed { IfSome result (Contains book.now.vars) }
{
    for var in book.vars() {
        if var.kind == NEW_CAPACITY && var.index.tech == technology {
            return Some(*var);
        }
    }
    None
}
