// The one line of a solution, for a table of many models.
ghost use Rattle.std.specs.Prelude.{◌≡◌, ◌++◌, ℕ, List, IfOk, OnOk};
ghost use Rattle.model_sets.specs.Members.{SetLists};
ghost use Rattle.row_core.specs.declared.Row.{Row};
ghost use Rattle.row_core.specs.declared.Var.{Var};
ghost use Rattle.exact_num.specs.Value.{value_of};
ghost use Rattle.result_tables.specs.declared.attempts.FoundBy.{FoundBy};
ghost use Rattle.solve_command.specs.LineTexts.{gap_text, infeasible_line, is_in_millionths, solved_line, unbounded_line, up_text};
ghost use Rattle.solve_command.specs.SolveOutcomes.{solution_shown};
ghost use Rattle.solve_command.specs.declared.solve.Shown.TheVariants as shows;

use certified_answers::Certified;
use command_answers::push_with_number;
use exact_num::{Frac, add, ratio, sub};
use scaled_decimals::push_places;
use std::alloc::{AllocError, Global};

/// The line of a solution: its status, cost, bound, gap and pivots, with commas between.
pub(crate) fn line_text(alloc: Global, solution: &Certified) -> Result<Vec<u8>, AllocError>
    ensures { (sets : SetLists) (rows : List Row) (vars : List Var) (rounded places : ℕ) (attempt : FoundBy)
        → IfOk result (λ text. text.items ≡ solution_shown shows.Line sets rows vars rounded places attempt solution.now) }
{
    match solution {
        Certified::Optimal {
            cost,
            bound,
            pivots,
            ..
        } => solved_line(alloc, *cost, *bound, *pivots),
        Certified::Infeasible { pivots, .. } => infeasible_line(alloc, *pivots),
        Certified::Unbounded { pivots, .. } => unbounded_line(alloc, *pivots),
    }
}

// The line of an optimum.
fn solved_line(alloc: Global, cost: Frac, bound: Frac, pivots: u64) -> Result<Vec<u8>, AllocError>
    ensures { IfOk result (λ text. text.items ≡ solved_line (value_of cost) (value_of bound) pivots) }
{
    let mut text = Vec::from_slice(alloc, b"0,")?;
    push_places(&mut text, cost)?;
    text.extend_from_slice(b",")?;
    push_places(&mut text, bound)?;
    text.extend_from_slice(b",")?;
    push_gap(&mut text, cost, bound)?;
    push_with_number(&mut text, b",", pivots)?;
    text.extend_from_slice(b"\n")?;
    Ok(text)
}

// The line of a model that has no plan.
fn infeasible_line(alloc: Global, pivots: u64) -> Result<Vec<u8>, AllocError>
    ensures { IfOk result (λ text. text.items ≡ infeasible_line pivots) }
{
    let mut text = Vec::new(alloc);
    push_with_number(&mut text, b"1,,,,", pivots)?;
    text.extend_from_slice(b"\n")?;
    Ok(text)
}

// The line of a model whose cost has no bound.
fn unbounded_line(alloc: Global, pivots: u64) -> Result<Vec<u8>, AllocError>
    ensures { IfOk result (λ text. text.items ≡ unbounded_line pivots) }
{
    let mut text = Vec::new(alloc);
    push_with_number(&mut text, b"2,,,,", pivots)?;
    text.extend_from_slice(b"\n")?;
    Ok(text)
}

// Appends the cost less the bound, rounded up, or nothing where that leaves 128 bits.
fn push_gap(out: &mut Vec<u8>, cost: Frac, bound: Frac) -> Result<(), AllocError>
    ensures { OnOk result (out.new.items ≡ out.old.items ++ gap_text (value_of cost) (value_of bound)) }
{
    match sub(cost, bound) {
        Ok(gap) => push_up(out, gap),
        Err(_) => Ok(()),
    }
}

// Appends a number with six decimal places, rounded up, or nothing where half a millionth more leaves 128 bits.
fn push_up(out: &mut Vec<u8>, value: Frac) -> Result<(), AllocError>
    ensures { OnOk result (out.new.items ≡ out.old.items ++ up_text (value_of value)) }
{
    if is_in_millionths(value) {
        return push_places(out, value);
    }
    match add(value, ratio(1, 2_000_000)) {
        Ok(more) => push_places(out, more),
        Err(_) => Ok(()),
    }
}

// The number is a whole number of millionths.
fn is_in_millionths(value: Frac) -> bool
    ensures { result ≡ is_in_millionths (value_of value) }
{
    1_000_000 % value.den.unsigned_abs() == 0
}
