//! Rows with the row that limits the cost after them, and what is left of them.

ghost use Rattle.std.specs.Prelude.{◌≡◌, ◌<◌, ◌++◌, [], ◌∷◌, None, IfErr, IfOk};
ghost use Rattle.row_problem.specs.Prelude.{AllByRecursion, all_fit, value_of, span_name, AreVariablesOf, IsStop, Row, SPAN, Place};
ghost use Rattle.row_problem.specs.Problems.{IsProblem};
ghost use Rattle.span_finder.specs.LimitRows.{HasLimitRow, limit_formed};
ghost use Rattle.span_finder.specs.LimitedRows.{AreLimited, StopsBefore};

use crate::limiting::limit_row;
use exact_num::Frac;
use row_core::{Row, Stopped, Var, copy_rows};
use row_problem::left_of;
use std::alloc::{AllocError, Global};
use written_method::Reduced;

/// Rows with the row that limits the cost after them, and what is left of them without the defined variables.
#[derive(Drop)]
pub(crate) struct LimitedRows {
    /// The rows.
    pub rows: Vec<Row>,
    /// For each row the variable that it defines, if it defines one.
    pub defs: Vec<Option<Var>>,
    /// What is left of the rows.
    pub reduced: Reduced,
}

/// Copies of rows, after them the row that says that a plan costs at most the limit, and what is left of all of these. `Width` comes
/// exactly where a number that is formed doesn't fit, with the first place at which one doesn't: of the row that limits the cost, or of
/// the elimination. Any other refusal means that memory ran out.
pub(crate) fn limited_rows(
    alloc: Global,
    rows: &[Row],
    defs: &[Option<Var>],
    vars: &[Var],
    limit: Frac,
) -> Result<LimitedRows, Stopped>
    requires problem { IsProblem rows.now defs.now vars.now }
    requires variables { AreVariablesOf rows.now vars.now }
    requires named { AllByRecursion (λ (row : Row). row.name.eq < SPAN) rows.now }
    ensures limited { IfOk result (AreLimited rows.now defs.now vars.now (value_of limit)) }
    ensures stopped { IfErr result (StopsBefore rows.now defs.now vars.now (value_of limit)) }
{
    let all = with_limit_row(alloc, rows, vars, limit)?;
    let all_defs = with_none(alloc, defs)?;
    let reduced = left_of(alloc, &all, &all_defs, vars)?;
    Ok(LimitedRows {
        rows: all,
        defs: all_defs,
        reduced,
    })
}

/// Copies of rows, and after them the row that says that a plan costs at most the limit.
fn with_limit_row(
    alloc: Global,
    rows: &[Row],
    vars: &[Var],
    limit: Frac,
) -> Result<Vec<Row>, Stopped>
    ensures rows { IfOk result (λ all. HasLimitRow rows.now vars.now (value_of limit) all.items) }
    ensures stopped { IfErr result (IsStop (Place.Row span_name) (all_fit (limit_formed vars.now (value_of limit)))) }
{
    let row = limit_row(alloc, vars, limit)?;
    let mut all = copy_rows(alloc, rows)?;
    all.push(row)?;
    Ok(all)
}

/// What rows define, and after them a row that defines nothing.
fn with_none(alloc: Global, defs: &[Option<Var>]) -> Result<Vec<Option<Var>>, AllocError>
    ensures { IfOk result (λ all. all.items ≡ defs.now ++ None ∷ []) }
{
    let mut all = Vec::from_slice(alloc, defs)?;
    all.push(None)?;
    Ok(all)
}
