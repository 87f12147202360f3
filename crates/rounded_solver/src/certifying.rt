//! Values and multipliers of the linear program, carried back to all rows and checked.

ghost use Rattle.std.specs.Prelude.{◌≡◌, ◌≤◌, IfOk};
ghost use Rattle.row_core.specs.Numbers.{keys_of};
ghost use Rattle.certified_answers.specs.Answers.{AreNamedIn, IsFoundBy};
ghost use Rattle.row_problem.specs.ProgramsOf.{IsPosedProblem};
ghost use Rattle.rounded_solver.specs.Listed.{AreListed};

use crate::asked::{Limits, NamedRows};
use crate::plans::{multipliers_in, plan_of};
use certified_answers::{
    Certified, Cost, NoAnswer, accepted_bound, accepted_gap, accepted_plan, accepted_refutation,
    multiplier_laws, plan_laws,
};
use exact_num::Frac;
use row_core::{Multipliers, Plan, Row, Var};
use row_problem::{Problem, carry_multipliers, carry_plan};
use std::alloc::Global;

/// The plan of values of the columns and the multipliers of the rows, carried back to all rows, where the checker accepts both
/// and the gap between cost and bound.
pub(crate) fn certified(
    alloc: Global,
    problem: &Problem<'_>,
    values: &[Frac],
    lambda: &[Frac],
    limits: Limits,
    pivots: u64,
) -> Result<Certified, NoAnswer>
    requires problem { IsPosedProblem problem.now }
    requires made { pivots ≤ limits.pivots }
    ensures { IfOk result (IsFoundBy problem.now.rows.now problem.now.vars.now limits.ppm limits.pivots) }
{
    if lambda.len() != problem.reduced.rows.len() {
        return Err(NoAnswer::Nothing);
    }
    let of_columns = plan_of(alloc, problem.reduced.columns.as_slice(), values)?;
    let plan = carry_plan(alloc, problem, &of_columns)?;
    plan_laws(&plan);
    let multipliers = carry_multipliers(alloc, problem, lambda, true)?;
    multiplier_laws(&multipliers);
    accepted(
        alloc,
        problem.rows,
        problem.vars,
        plan,
        multipliers,
        limits,
        pivots,
    )
}

/// The plan of values of all variables, where the checker accepts it, the multipliers of all rows, and the gap between cost and bound.
pub(crate) fn certified_rows(
    alloc: Global,
    asked: &NamedRows<'_>,
    values: &[Frac],
    multipliers: &[Frac],
    limits: Limits,
    pivots: u64,
) -> Result<Certified, NoAnswer>
    requires listed { AreListed asked.now.rows.now asked.now.vars.now }
    requires made { pivots ≤ limits.pivots }
    ensures { IfOk result (IsFoundBy asked.now.rows.now asked.now.vars.now limits.ppm limits.pivots) }
{
    let plan = plan_of(alloc, asked.vars, values)?;
    let multipliers = multipliers_in(alloc, asked.rows, multipliers)?;
    accepted(
        alloc,
        asked.rows,
        asked.vars,
        plan,
        multipliers,
        limits,
        pivots,
    )
}

/// A plan and multipliers, where the checker accepts them and the gap.
fn accepted(
    alloc: Global,
    rows: &[Row],
    vars: &[Var],
    plan: Plan,
    multipliers: Multipliers,
    limits: Limits,
    pivots: u64,
) -> Result<Certified, NoAnswer>
    requires listed { AreListed rows.now vars.now }
    requires complete { keys_of plan ≡ vars.now }
    requires named { AreNamedIn rows.now multipliers }
    requires made { pivots ≤ limits.pivots }
    ensures { IfOk result (IsFoundBy rows.now vars.now limits.ppm limits.pivots) }
{
    let cost = accepted_plan(rows, vars, &plan)?;
    let bound = accepted_bound(alloc, rows, vars, Cost::Model, &multipliers)?;
    accepted_gap(cost, bound, limits.ppm)?;
    Ok(Certified::Optimal {
        plan,
        multipliers,
        cost,
        bound,
        pivots,
    })
}

/// The multipliers of the rows, carried back to all rows, where the checker accepts that they show that there is no plan.
pub(crate) fn refuted(
    alloc: Global,
    problem: &Problem<'_>,
    lambda: &[Frac],
    limits: Limits,
    pivots: u64,
) -> Result<Certified, NoAnswer>
    requires problem { IsPosedProblem problem.now }
    requires made { pivots ≤ limits.pivots }
    ensures { IfOk result (IsFoundBy problem.now.rows.now problem.now.vars.now limits.ppm limits.pivots) }
{
    if lambda.len() != problem.reduced.rows.len() {
        return Err(NoAnswer::Nothing);
    }
    let multipliers = carry_multipliers(alloc, problem, lambda, false)?;
    multiplier_laws(&multipliers);
    accepted_refutation(alloc, problem.rows, problem.vars, &multipliers)?;
    Ok(Certified::Infeasible {
        multipliers,
        pivots,
    })
}

/// The multipliers of all rows, where the checker accepts that they show that there is no plan.
pub(crate) fn refuted_rows(
    alloc: Global,
    asked: &NamedRows<'_>,
    multipliers: &[Frac],
    limits: Limits,
    pivots: u64,
) -> Result<Certified, NoAnswer>
    requires listed { AreListed asked.now.rows.now asked.now.vars.now }
    requires made { pivots ≤ limits.pivots }
    ensures { IfOk result (IsFoundBy asked.now.rows.now asked.now.vars.now limits.ppm limits.pivots) }
{
    let multipliers = multipliers_in(alloc, asked.rows, multipliers)?;
    accepted_refutation(alloc, asked.rows, asked.vars, &multipliers)?;
    Ok(Certified::Infeasible {
        multipliers,
        pivots,
    })
}
