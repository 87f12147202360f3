//! Between which values a variable lies in plans that meet rows and cost at most a limit, by the rounded method.

ghost use Rattle.std.specs.Prelude.{◌≡◌, ◌<◌, Contains, IfOk, IfSome};
ghost use Rattle.row_problem.specs.Prelude.{AllByRecursion, value_of, AreVariablesOf, Row, SPAN, NEW_CAPACITY, Model};
ghost use Rattle.row_problem.specs.Problems.{IsProblem};
ghost use Rattle.row_problem.specs.ProgramsOf.{IsProgramOf};
ghost use Rattle.span_finder.specs.RoundedSpans.{IsRoundedSpan};
ghost use Rattle.span_finder.specs.RoundedTrials.{AreRoundedEnds};
ghost use Rattle.span_finder.specs.Trials.{IsCapacityOf};

use crate::found::RoundedSpan;
use crate::limited::{LimitedRows, limited_rows};
use crate::rounded_trial::rounded_trial;
use call_stages::{Stage, Watcher};
use certified_answers::{Cost, Goal, NoAnswer};
use exact_num::Frac;
use rounded_solver::starting_values;
use row_core::{Plan, Row, Var};
use row_problem::{Problem, aimed};
use std::alloc::{AllocError, Global};
use written_method::Reduced;

/// Looks for values between which a NewCapacity lies in the plans that meet all rows with right signs and cost at most a limit, by the
/// rounded method: no such plan has less than `low` or more than `high`, and two such plans are given whose values lie within so many
/// millionths of the ends, of the absolute value of an end or of 1 where that is greater. Each guess may take so many pivots at most.
/// `defs` says of each row which variable it defines, if it defines one, and `vars` are the variables of the rows. The first guess begins
/// from the values of `near`, which may be any plan, best one of least cost, and each further one from where the guess before ended.
///
/// Nothing is given to which the checker doesn't say yes. When nothing is given isn't defined: then nothing is known of the values.
/// Refuses only out of memory.
pub fn round_span(
    alloc: Global,
    rows: &[Row],
    defs: &[Option<Var>],
    vars: &[Var],
    limit: Frac,
    var: Var,
    near: &Plan,
    ppm: u32,
    pivots: u64,
    watcher: &mut dyn Watcher,
) -> Result<Option<RoundedSpan>, AllocError>
    requires problem { IsProblem rows.now defs.now vars.now }
    requires variables { AreVariablesOf rows.now vars.now }
    requires named { AllByRecursion (λ (row : Row). row.name.eq < SPAN) rows.now }
    requires chosen { var.kind ≡ NEW_CAPACITY }
    requires listed { Contains vars.now var }
    ensures { IfOk result (λ found. IfSome found (IsRoundedSpan rows.now vars.now (value_of limit) var ppm)) }
{
    match rounded_span(
        alloc, rows, defs, vars, limit, var, near, ppm, pivots, watcher,
    ) {
        Ok(span) => Ok(Some(span)),
        Err(NoAnswer::Memory) => Err(AllocError),
        Err(_) => Ok(None),
    }
}

/// The same, where every step comes to something.
fn rounded_span(
    alloc: Global,
    rows: &[Row],
    defs: &[Option<Var>],
    vars: &[Var],
    limit: Frac,
    var: Var,
    near: &Plan,
    ppm: u32,
    pivots: u64,
    watcher: &mut dyn Watcher,
) -> Result<RoundedSpan, NoAnswer>
    requires problem { IsProblem rows.now defs.now vars.now }
    requires variables { AreVariablesOf rows.now vars.now }
    requires named { AllByRecursion (λ (row : Row). row.name.eq < SPAN) rows.now }
    requires capacity { IsCapacityOf vars.now var }
    ensures { IfOk result (IsRoundedSpan rows.now vars.now (value_of limit) var ppm) }
{
    watcher.see(Stage::Elimination);
    let LimitedRows {
        rows: all,
        defs: all_defs,
        reduced,
    } = limited_rows(alloc, rows, defs, vars, limit)?;
    let start = starting_values(alloc, near, reduced.columns.as_slice())?;
    both_ends(
        alloc, &all, &all_defs, vars, reduced, var, start, ppm, pivots, watcher,
    )
}

/// Both ends, over rows of which this is left, the first from a value for each column, in order.
fn both_ends(
    alloc: Global,
    rows: &[Row],
    defs: &[Option<Var>],
    vars: &[Var],
    reduced: Reduced,
    var: Var,
    mut start: Vec<f64>,
    ppm: u32,
    pivots: u64,
    watcher: &mut dyn Watcher,
) -> Result<RoundedSpan, NoAnswer>
    requires program { IsProgramOf rows.now defs.now vars.now Model reduced }
    requires capacity { IsCapacityOf vars.now var }
    ensures { IfOk result (AreRoundedEnds rows.now vars.now var ppm) }
{
    let cost = Cost::One(var, Goal::Least);
    let first = aimed(alloc, reduced, cost)?;
    let problem = Problem {
        rows,
        defs,
        vars,
        reduced: &first,
        cost,
    };
    let low = rounded_trial(
        alloc,
        &problem,
        var,
        Goal::Least,
        &mut start,
        ppm,
        pivots,
        watcher,
    )?;
    let cost = Cost::One(var, Goal::Greatest);
    let second = aimed(alloc, first, cost)?;
    let problem = Problem {
        rows,
        defs,
        vars,
        reduced: &second,
        cost,
    };
    let high = rounded_trial(
        alloc,
        &problem,
        var,
        Goal::Greatest,
        &mut start,
        ppm,
        pivots,
        watcher,
    )?;
    Ok(RoundedSpan {
        low: low.end,
        low_plan: low.plan,
        high: high.end,
        high_plan: high.plan,
    })
}
