//! Between which values a variable lies in plans that meet rows and cost at most a limit.

ghost use Rattle.std.specs.Prelude.{◌≡◌, ◌≢◌, ◌<◌, List, None, Contains, IfErr, IfOk};
ghost use Rattle.row_problem.specs.Prelude.{AllByRecursion, Rational, first_wide, value_of, var_cmp, value_in, AreVariablesOf, Row, Var, SPAN, NEW_CAPACITY, elimination_steps, Nothing, Model, One, Least, Greatest};
ghost use Rattle.row_problem.specs.Problems.{IsProblem};
ghost use Rattle.row_problem.specs.ProgramsOf.{IsProgramOf};
ghost use Rattle.exact_solver.specs.MethodEnds.{solved_end};
ghost use Rattle.span_finder.specs.SpanEnds.{EndsSo, IsPlainStop, IsTrialFail, SpanEnd, Stops, StopsAt, both_trials, greatest_end, least_end, span_seen};
ghost use Rattle.span_finder.specs.Spans.{HasNearBest, HasPlan, IsSpan};
ghost use Rattle.span_finder.specs.Trials.{AreFound, IsCapacityOf, IsExtreme, IsHighFound, IsTrial};

use crate::found::{Span, SpanFail};
use crate::limited::{LimitedRows, limited_rows};
use certified_answers::{Certified, Cost, Goal, NoAnswer};
use exact_num::Frac;
use exact_solver::exact;
use row_core::{Plan, Row, Var};
use row_problem::{Problem, aimed};
use simplex_core::{Stop, TrialStop};
use std::alloc::Global;
use written_method::Reduced;

/// Between which values a NewCapacity lies in the plans that meet all rows with right signs and cost at most a limit. `defs` says of
/// each row which variable it defines, if it defines one, and `vars` are the variables of the rows.
///
/// A row is added, after all others, that says that the cost is at most the limit, and the defined variables are removed. The first
/// trial looks for the least value of the variable, the second for the greatest, each by the exact method with so many pivots at
/// most; the plan, and then the multipliers that show that no plan passes it, are carried back to all rows and checked. Where the
/// value grows without end, a plan and a direction are. Plans and direction have one value for each variable, in order.
///
/// `Stopped` comes exactly where a step stops, with the first that does: `Width` where that is the row that limits the cost, or the
/// elimination, and `Trial` with the number 1 or 2 where it is a trial. Where the elimination of the rows without that row forms no
/// number that doesn't fit, `Width` is of the row that limits the cost, or of its expansion. Any other refusal means that memory ran
/// out.
pub fn find_span(
    alloc: Global,
    rows: &[Row],
    defs: &[Option<Var>],
    vars: &[Var],
    limit: Frac,
    var: Var,
    pivots: u64,
) -> Result<Span, SpanFail>
    requires problem { IsProblem rows.now defs.now vars.now }
    requires variables { AreVariablesOf rows.now vars.now }
    requires named { AllByRecursion (λ (row : Row). row.name.eq < SPAN) rows.now }
    requires chosen { var.kind ≡ NEW_CAPACITY }
    requires listed { Contains vars.now var }
    requires feasible { HasNearBest rows.now vars.now (value_of limit) }
    ensures end { IfOk result (λ span. EndsSo rows.now defs.now vars.now (value_of limit) var pivots (span_seen span)) }
    ensures stopped { IfErr result (Stops rows.now defs.now vars.now (value_of limit) var pivots) }
    ensures proved { IfOk result (IsSpan rows.now vars.now (value_of limit) var) }
    ensures plain { first_wide (elimination_steps rows.now defs.now) ≡ None → IfErr result IsPlainStop }
{
    found_span(alloc, rows, defs, vars, limit, var, pivots)
}

/// The same, where the elimination of the rows may stop too.
fn found_span(
    alloc: Global,
    rows: &[Row],
    defs: &[Option<Var>],
    vars: &[Var],
    limit: Frac,
    var: Var,
    pivots: u64,
) -> Result<Span, SpanFail>
    requires problem { IsProblem rows.now defs.now vars.now }
    requires variables { AreVariablesOf rows.now vars.now }
    requires named { AllByRecursion (λ (row : Row). row.name.eq < SPAN) rows.now }
    requires capacity { IsCapacityOf vars.now var }
    requires feasible { HasNearBest rows.now vars.now (value_of limit) }
    ensures end { IfOk result (λ span. EndsSo rows.now defs.now vars.now (value_of limit) var pivots (span_seen span)) }
    ensures stopped { IfErr result (Stops rows.now defs.now vars.now (value_of limit) var pivots) }
    ensures proved { IfOk result (IsSpan rows.now vars.now (value_of limit) var) }
{
    let LimitedRows {
        rows: all,
        defs: all_defs,
        reduced,
    } = limited_rows(alloc, rows, defs, vars, limit)?;
    both_trials(alloc, &all, &all_defs, vars, reduced, var, pivots)
}

/// Both trials, over rows of which this is left.
fn both_trials(
    alloc: Global,
    rows: &[Row],
    defs: &[Option<Var>],
    vars: &[Var],
    reduced: Reduced,
    var: Var,
    pivots: u64,
) -> Result<Span, SpanFail>
    requires program { IsProgramOf rows.now defs.now vars.now Model reduced }
    requires capacity { IsCapacityOf vars.now var }
    requires feasible { HasPlan rows.now vars.now }
    ensures end { IfOk result (λ span. span_seen span ≡ both_trials rows.now defs.now vars.now var pivots) }
    ensures stopped { IfErr result (StopsAt (both_trials rows.now defs.now vars.now var pivots)) }
    ensures found { IfOk result (AreFound rows.now vars.now var) }
{
    let cost = Cost::One(var, Goal::Least);
    let first = aimed(alloc, reduced, cost)?;
    let problem = Problem {
        rows,
        defs,
        vars,
        reduced: &first,
        cost,
    };
    let low_plan = least(alloc, &problem, var, pivots)?;
    let cost = Cost::One(var, Goal::Greatest);
    let second = aimed(alloc, first, cost)?;
    let problem = Problem {
        rows,
        defs,
        vars,
        reduced: &second,
        cost,
    };
    greatest(alloc, &problem, var, low_plan, pivots)
}

/// A plan with the least value of the variable: the first trial.
fn least(alloc: Global, problem: &Problem<'_>, var: Var, pivots: u64) -> Result<Plan, SpanFail>
    requires trial { IsTrial problem.now var Least }
    requires feasible { HasPlan problem.now.rows.now problem.now.vars.now }
    ensures end { IfOk result (λ low. (next : List (Var × Rational) → SpanEnd) → next low ≡ least_end pivots next (solved_end problem.now.rows.now problem.now.defs.now problem.now.vars.now (One var Least) pivots)) }
    ensures stopped { IfErr result (λ fail. (next : List (Var × Rational) → SpanEnd) → StopsAt (least_end pivots next (solved_end problem.now.rows.now problem.now.defs.now problem.now.vars.now (One var Least) pivots)) fail) }
    ensures worth { IfOk result (IsExtreme problem.now.rows.now problem.now.vars.now var Least) }
{
    match exact(alloc, problem, pivots) {
        Ok(Certified::Optimal { plan, .. }) => Ok(plan),
        Ok(Certified::Infeasible { .. }) => unreachable!(),
        Ok(Certified::Unbounded { .. }) => unreachable!(),
        Err(answer) => Err(trial_fail(1, pivots, answer)),
    }
}

/// The span from a plan with the least value on: the second trial.
fn greatest(
    alloc: Global,
    problem: &Problem<'_>,
    var: Var,
    low_plan: Plan,
    pivots: u64,
) -> Result<Span, SpanFail>
    requires trial { IsTrial problem.now var Greatest }
    requires feasible { HasPlan problem.now.rows.now problem.now.vars.now }
    ensures end { IfOk result (λ span. span_seen span ≡ greatest_end pivots low_plan (solved_end problem.now.rows.now problem.now.defs.now problem.now.vars.now (One var Greatest) pivots)) }
    ensures stopped { IfErr result (StopsAt (greatest_end pivots low_plan (solved_end problem.now.rows.now problem.now.defs.now problem.now.vars.now (One var Greatest) pivots))) }
    ensures low { IfOk result (λ span. (span.low_plan ≡ low_plan) × (value_of span.low ≡ value_in var_cmp low_plan var)) }
    ensures high { IfOk result (λ span. IsHighFound problem.now.rows.now problem.now.vars.now var span.high_plan span.high span.direction) }
{
    let low = low_plan.value(var);
    match exact(alloc, problem, pivots) {
        Ok(Certified::Optimal { plan, .. }) => Ok(Span {
            low,
            low_plan,
            high: Some(plan.value(var)),
            high_plan: plan,
            direction: None,
        }),
        Ok(
            Certified::Unbounded {
                plan,
                direction,
                ..
            },
        ) => Ok(Span {
            low,
            low_plan,
            high: None,
            high_plan: plan,
            direction: Some(direction),
        }),
        Ok(Certified::Infeasible { .. }) => unreachable!(),
        Err(answer) => Err(trial_fail(2, pivots, answer)),
    }
}

/// Why the trial of this number stopped.
fn trial_fail(number: u64, pivots: u64, answer: NoAnswer) -> SpanFail
    requires { answer ≢ Nothing }
    ensures { IsTrialFail number pivots answer result }
{
    match answer {
        NoAnswer::Nothing => unreachable!(),
        NoAnswer::Budget => SpanFail::Stopped(Stop::Trial(number, TrialStop::Budget(pivots))),
        NoAnswer::Width(place) => SpanFail::Stopped(Stop::Trial(number, TrialStop::Width(place))),
        NoAnswer::Memory => SpanFail::Memory,
    }
}
