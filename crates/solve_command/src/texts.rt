// What is shown of a solution: a report, its plan, its multipliers, what proves it, one line, or a few lines.
ghost use Rattle.std.specs.Prelude.{◌≡◌, ℕ, List, [], IfErr, IfOk, OnOk};
ghost use Rattle.model_sets.specs.Members.{SetLists};
ghost use Rattle.row_core.specs.declared.Row.{Row};
ghost use Rattle.row_core.specs.declared.Var.{Var};
ghost use Rattle.exact_num.specs.Value.{value_of};
ghost use Rattle.result_tables.specs.declared.attempts.FoundBy.{FoundBy};
ghost use Rattle.certified_answers.specs.Answers.{IsComplete, IsNamed};
ghost use Rattle.command_answers.specs.CheckedPlans.{IsListedBook};
ghost use Rattle.solve_command.specs.SolveOutcomes.{PricesAreStopped, PricesFitIn, solution_shown};
ghost use Rattle.solve_command.specs.SolveTexts.{multiplier_file, plan_file, solved_lines};
ghost use Rattle.solve_command.specs.declared.solve.Shown.TheVariants as shows;

use crate::line::line_text;
use crate::solve::Shown;
use certified_answers::Certified;
use command_answers::{push_amount, push_with_number};
use exact_num::Frac;
use model_sets::Sets;
use plan_files::{multiplier_text, plan_text};
use proof_files::{descent_text, optimum_text, refutation_text};
use result_tables::{FoundBy, infeasible_report, report, unbounded_report};
use row_book::RowBook;
use row_core::{Multipliers, Plan, Stopped};
use std::alloc::{AllocError, Global};

/// The text of what is to be shown of a solution of a book, of data of which so many numbers were rounded, with written factors of
/// so many decimal places, and by this attempt. A file of a plan or of multipliers that there aren't is its header alone.
///
/// `Width` comes exactly where a report, or a summary of it, is to be shown and a number that is formed for a price doesn't fit.
pub fn solution_text(
    alloc: Global,
    book: &RowBook,
    sets: &Sets,
    solution: &Certified,
    show: Shown,
    rounded: u64,
    places: u8,
    attempt: FoundBy,
) -> Result<Vec<u8>, Stopped>
    requires listed { IsListedBook sets.now book.now.rows book.now.vars }
    requires complete { IsComplete book.now.vars solution.now }
    requires named { IsNamed book.now.rows solution.now }
    ensures text { IfOk result (λ text. text.items ≡ solution_shown show sets.now book.now.rows book.now.vars rounded places attempt solution.now) }
    ensures fits { OnOk result (PricesFitIn show book.now.rows solution.now) }
    ensures stopped { IfErr result (PricesAreStopped show book.now.rows solution.now) }
{
    match show {
        Shown::Report => report_of(alloc, book, sets, solution, rounded, places, attempt),
        Shown::Plan => Ok(plan_of(alloc, book, sets, solution)?),
        Shown::Multipliers => Ok(multipliers_of(alloc, book, sets, solution)?),
        Shown::Proof => Ok(proof_of(alloc, book, sets, solution)?),
        Shown::Line => Ok(line_text(alloc, solution)?),
        Shown::Summary => summary_of(alloc, book, sets, solution, rounded, places, attempt),
    }
}

/// The same where its report is at hand.
pub fn shown_beside(
    alloc: Global,
    book: &RowBook,
    sets: &Sets,
    solution: &Certified,
    show: Shown,
    report: Vec<u8>,
) -> Result<Vec<u8>, AllocError>
    requires listed { IsListedBook sets.now book.now.rows book.now.vars }
    requires complete { IsComplete book.now.vars solution.now }
    requires named { IsNamed book.now.rows solution.now }
    ensures { (rounded places : ℕ) (attempt : FoundBy) → report.items ≡ solution_shown shows.Report sets.now book.now.rows book.now.vars rounded places attempt solution.now
        → IfOk result (λ text. text.items ≡ solution_shown show sets.now book.now.rows book.now.vars rounded places attempt solution.now) }
{
    match show {
        Shown::Report => Ok(report),
        Shown::Plan => plan_of(alloc, book, sets, solution),
        Shown::Multipliers => multipliers_of(alloc, book, sets, solution),
        Shown::Proof => proof_of(alloc, book, sets, solution),
        Shown::Line => line_text(alloc, solution),
        Shown::Summary => summary_text(alloc, solution),
    }
}

// The report of a solution.
fn report_of(
    alloc: Global,
    book: &RowBook,
    sets: &Sets,
    solution: &Certified,
    rounded: u64,
    places: u8,
    attempt: FoundBy,
) -> Result<Vec<u8>, Stopped>
    requires listed { IsListedBook sets.now book.now.rows book.now.vars }
    requires complete { IsComplete book.now.vars solution.now }
    ensures text { IfOk result (λ text. text.items ≡ solution_shown shows.Report sets.now book.now.rows book.now.vars rounded places attempt solution.now) }
    ensures fits { OnOk result (PricesFitIn shows.Report book.now.rows solution.now) }
    ensures stopped { IfErr result (PricesAreStopped shows.Report book.now.rows solution.now) }
{
    match solution {
        Certified::Optimal {
            plan,
            multipliers,
            cost,
            bound,
            pivots,
        } => report(
            alloc,
            book.rows(),
            book.vars(),
            plan,
            multipliers,
            *cost,
            *bound,
            *pivots,
            rounded,
            places,
            attempt,
            sets,
        ),
        Certified::Infeasible { pivots, .. } => Ok(infeasible_report(
            alloc, *pivots, rounded, places, attempt,
        )?),
        Certified::Unbounded {
            direction,
            pivots,
            ..
        } => Ok(unbounded_report(alloc, direction, *pivots, rounded, places, sets)?),
    }
}

// The summary of a solution. Making the report shows whether the numbers that are formed for its prices fit.
fn summary_of(
    alloc: Global,
    book: &RowBook,
    sets: &Sets,
    solution: &Certified,
    rounded: u64,
    places: u8,
    attempt: FoundBy,
) -> Result<Vec<u8>, Stopped>
    requires listed { IsListedBook sets.now book.now.rows book.now.vars }
    requires complete { IsComplete book.now.vars solution.now }
    ensures text { IfOk result (λ text. text.items ≡ solution_shown shows.Summary sets.now book.now.rows book.now.vars rounded places attempt solution.now) }
    ensures fits { OnOk result (PricesFitIn shows.Summary book.now.rows solution.now) }
    ensures stopped { IfErr result (PricesAreStopped shows.Summary book.now.rows solution.now) }
{
    let _report = report_of(alloc, book, sets, solution, rounded, places, attempt)?;
    Ok(summary_text(alloc, solution)?)
}

// Its text.
fn summary_text(alloc: Global, solution: &Certified) -> Result<Vec<u8>, AllocError>
    ensures { (sets : SetLists) (rows : List Row) (vars : List Var) (rounded places : ℕ) (attempt : FoundBy)
        → IfOk result (λ text. text.items ≡ solution_shown shows.Summary sets rows vars rounded places attempt solution.now) }
{
    match solution {
        Certified::Optimal {
            cost,
            bound,
            pivots,
            ..
        } => solved_lines(alloc, *cost, *bound, *pivots),
        Certified::Infeasible { .. } => Vec::from_slice(alloc, b"status infeasible\n"),
        Certified::Unbounded { .. } => Vec::from_slice(alloc, b"status unbounded\n"),
    }
}

// The lines of an optimum.
fn solved_lines(alloc: Global, cost: Frac, bound: Frac, pivots: u64) -> Result<Vec<u8>, AllocError>
    ensures { IfOk result (λ text. text.items ≡ solved_lines (value_of cost) (value_of bound) pivots) }
{
    let mut text = Vec::from_slice(alloc, b"status solved\n")?;
    push_amount(&mut text, b"cost ", cost)?;
    push_amount(&mut text, b"bound ", bound)?;
    push_with_number(&mut text, b"pivots ", pivots)?;
    text.extend_from_slice(b"\n")?;
    Ok(text)
}

// The file of its plan.
fn plan_of(
    alloc: Global,
    book: &RowBook,
    sets: &Sets,
    solution: &Certified,
) -> Result<Vec<u8>, AllocError>
    requires listed { IsListedBook sets.now book.now.rows book.now.vars }
    requires complete { IsComplete book.now.vars solution.now }
    ensures { (rounded places : ℕ) (attempt : FoundBy) → IfOk result (λ text. text.items ≡ solution_shown shows.Plan sets.now book.now.rows book.now.vars rounded places attempt solution.now) }
{
    match solution {
        Certified::Optimal { plan, .. } | Certified::Unbounded { plan, .. } => {
            plan_text(alloc, plan, sets)
        }
        Certified::Infeasible { .. } => no_plan(alloc, sets),
    }
}

// The file of a plan that there isn't.
fn no_plan(alloc: Global, sets: &Sets) -> Result<Vec<u8>, AllocError>
    ensures { IfOk result (λ text. text.items ≡ plan_file sets.now []) }
{
    let none = Plan::of(Vec::new(alloc));
    plan_text(alloc, &none, sets)
}

// The file of its multipliers.
fn multipliers_of(
    alloc: Global,
    book: &RowBook,
    sets: &Sets,
    solution: &Certified,
) -> Result<Vec<u8>, AllocError>
    requires listed { IsListedBook sets.now book.now.rows book.now.vars }
    requires named { IsNamed book.now.rows solution.now }
    ensures { (rounded places : ℕ) (attempt : FoundBy) → IfOk result (λ text. text.items ≡ solution_shown shows.Multipliers sets.now book.now.rows book.now.vars rounded places attempt solution.now) }
{
    match solution {
        Certified::Optimal { multipliers, .. } | Certified::Infeasible { multipliers, .. } => {
            multiplier_text(alloc, multipliers, sets)
        }
        Certified::Unbounded { .. } => no_multipliers(alloc, sets),
    }
}

// The file of multipliers that there aren't.
fn no_multipliers(alloc: Global, sets: &Sets) -> Result<Vec<u8>, AllocError>
    ensures { IfOk result (λ text. text.items ≡ multiplier_file sets.now []) }
{
    let none = Multipliers::of(Vec::new(alloc));
    multiplier_text(alloc, &none, sets)
}

// The file of what proves it.
fn proof_of(
    alloc: Global,
    book: &RowBook,
    sets: &Sets,
    solution: &Certified,
) -> Result<Vec<u8>, AllocError>
    requires listed { IsListedBook sets.now book.now.rows book.now.vars }
    requires complete { IsComplete book.now.vars solution.now }
    requires named { IsNamed book.now.rows solution.now }
    ensures { (rounded places : ℕ) (attempt : FoundBy) → IfOk result (λ text. text.items ≡ solution_shown shows.Proof sets.now book.now.rows book.now.vars rounded places attempt solution.now) }
{
    match solution {
        Certified::Optimal {
            plan,
            multipliers,
            ..
        } => optimum_text(alloc, plan, multipliers, sets),
        Certified::Infeasible { multipliers, .. } => refutation_text(alloc, multipliers, sets),
        Certified::Unbounded {
            plan,
            direction,
            ..
        } => descent_text(alloc, plan, direction, sets),
    }
}
