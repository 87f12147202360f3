// The text of the smaller program.
ghost use Rattle.std.specs.Prelude.{◌≡◌, ◌++◌, List, ℕ, codes, IfOk, IfSome};
ghost use Rattle.reduce_command.specs.Reduced.{BeginsSo};

use command_answers::definers;
use itoa::Buffer;
use presolved_program::{
    Aim, Layout, Program, Stop, at, float_of, float_of_frac, item, layout_of, prepare_rows,
};
use row_book::RowBook;
use ryu::Buffer as Digits;
use std::alloc::{AllocError, Global};

/// What the text begins with.
const HEAD: &[u8] =
    b"* The linear program that guesses of 'osemosys solve --method rounded' solve, without the room that they leave for rounding:\n\
    * the equations in fewer rows, in floating point. Nothing is proved of it. Columns are those of the text of 'osemosys mps', also those\n\
    * that have no entry here, so that what a solver finds can be given to 'osemosys solve --start'. Each row's greatest entry is 1 or -1.\n";

/// The smaller program of the rows of a book, in free MPS; none where there is no such program: a step isn't made for these rows, a number doesn't fit,
/// or a row is false whatever its columns are.
pub(crate) fn reduced_text(alloc: Global, book: &RowBook) -> Result<Option<Vec<u8>>, AllocError>
    ensures { IfOk result (λ made. IfSome made (λ text. BeginsSo text.items)) }
{
    match program_text(alloc, book) {
        Ok(program) => {
            let mut text = Vec::from_slice(alloc, HEAD)?;
            text.extend_from_slice(&program)?;
            Ok(Some(text))
        }
        Err(Stop::GivenUp) => Ok(None),
        Err(Stop::Memory) => Err(AllocError),
    }
}

// The text without the lines that say what it is.
fn program_text(alloc: Global, book: &RowBook) -> Result<Vec<u8>, Stop> {
    let defs = definers(alloc, book)?;
    let layout = layout_of(alloc, book.rows(), &defs, book.vars())?;
    let smaller = prepare_rows(alloc, book.rows(), book.vars(), &layout, Aim::Cheapest)?;
    if smaller.is_false() {
        return Err(Stop::GivenUp);
    }
    // (CBC and Clp read free MPS by the word after the name)
    let mut out = Vec::from_slice(alloc, b"NAME OSEMOSYS FREE\n")?;
    push_rows(&mut out, &layout, &smaller)?;
    push_columns(&mut out, &layout, &smaller, book.vars().len())?;
    push_right_sides(&mut out, &layout, &smaller)?;
    out.extend_from_slice(b"ENDATA\n")?;
    Ok(out)
}

// The cost, and the rows, each of which reads at most.
fn push_rows(out: &mut Vec<u8>, layout: &Layout, smaller: &Program) -> Result<(), Stop> {
    out.extend_from_slice(b"ROWS\n N COST\n")?;
    for place in &smaller.left {
        out.extend_from_slice(b" L ")?;
        push_row(out, layout, smaller, *place)?;
        out.extend_from_slice(b"\n")?;
    }
    Ok(())
}

// The name of a row: that of the text of the equations, or `M` with a number where it is a sum of several.
fn push_row(
    out: &mut Vec<u8>,
    layout: &Layout,
    smaller: &Program,
    place: usize,
) -> Result<(), Stop> {
    match item(&smaller.lines, place)?.origin {
        Some(row) => push_name(out, b"R", at(&layout.left, row)?),
        None => push_name(out, b"M", place),
    }
}

// A letter, and the number of what stands at a place.
fn push_name(out: &mut Vec<u8>, letter: &[u8], place: usize) -> Result<(), Stop> {
    let mut digits = Buffer::new();
    out.extend_from_slice(letter)?;
    out.extend_from_slice(digits.format(place.saturating_add(1)).as_bytes())?;
    Ok(())
}

// A number after a blank, and the end of its line.
fn push_number(out: &mut Vec<u8>, number: f64) -> Result<(), Stop> {
    if !number.is_finite() {
        return Err(Stop::GivenUp);
    }
    let mut digits = Digits::new();
    out.extend_from_slice(b" ")?;
    out.extend_from_slice(digits.format(number).as_bytes())?;
    out.extend_from_slice(b"\n")?;
    Ok(())
}

// Each variable's column, of so many variables. One that isn't left has no cost and no entry, and stands there all the same.
fn push_columns(
    out: &mut Vec<u8>,
    layout: &Layout,
    smaller: &Program,
    variables: usize,
) -> Result<(), Stop> {
    out.extend_from_slice(b"COLUMNS\n")?;
    let mut next: usize = 0;
    for variable in 0..variables {
        let left = smaller.columns.get(next).copied();
        let column = match left {
            Some(column) if at(&layout.chosen, column)? == variable => {
                next = next.saturating_add(1);
                Some(column)
            }
            _ => None,
        };
        push_cost(out, smaller, variable, column)?;
        if let Some(column) = column {
            push_entries(out, layout, smaller, variable, column)?;
        }
    }
    Ok(())
}

// The cost of a variable.
fn push_cost(
    out: &mut Vec<u8>,
    smaller: &Program,
    variable: usize,
    column: Option<usize>,
) -> Result<(), Stop> {
    let cost = match column {
        Some(column) => at(&smaller.all.costs, column)?,
        None => 0.0,
    };
    out.extend_from_slice(b" ")?;
    push_name(out, b"C", variable)?;
    out.extend_from_slice(b" COST")?;
    push_number(out, cost)
}

// The entries of a variable that is left, over the greatest entries of their rows.
fn push_entries(
    out: &mut Vec<u8>,
    layout: &Layout,
    smaller: &Program,
    variable: usize,
    column: usize,
) -> Result<(), Stop> {
    for entry in item(&smaller.uses, column)? {
        out.extend_from_slice(b" ")?;
        push_name(out, b"C", variable)?;
        out.extend_from_slice(b" ")?;
        push_row(out, layout, smaller, entry.at)?;
        push_number(out, float_of(entry.number) / at(&smaller.tops, entry.at)?)?;
    }
    Ok(())
}

// The right sides that aren't 0, over the greatest entries of their rows.
fn push_right_sides(out: &mut Vec<u8>, layout: &Layout, smaller: &Program) -> Result<(), Stop> {
    out.extend_from_slice(b"RHS\n")?;
    for place in &smaller.left {
        let right = float_of_frac(item(&smaller.lines, *place)?.right);
        if right != 0.0 {
            out.extend_from_slice(b" RHS ")?;
            push_row(out, layout, smaller, *place)?;
            push_number(out, right / at(&smaller.tops, *place)?)?;
        }
    }
    Ok(())
}
