//! What the simplex method found, carried back to all rows and checked.

ghost use Rattle.std.specs.Prelude.{◌≡◌, IfOk};
ghost use Rattle.row_problem.specs.Prelude.{program_of, is_model};
ghost use Rattle.simplex_core.specs.Outcomes.{outcome_seen};
ghost use Rattle.simplex_core.specs.declared.ends.End.TheVariants.{Infeasible, Optimal, Unbounded};
ghost use Rattle.row_problem.specs.ProgramsOf.{IsPosedProblem};
ghost use Rattle.exact_solver.specs.MethodEnds.{IsEndOf, IsWorth, carried_end, infeasible_end, optimal_end, unbounded_end};
ghost use Rattle.exact_solver.specs.SimplexEnds.{IsEnded};

use crate::checking::{checked_descent, checked_optimum, checked_refutation};
use certified_answers::{Certified, Cost, NoAnswer, multiplier_laws, plan_laws};
use row_core::Plan;
use row_problem::{Problem, carry_direction, carry_multipliers, carry_plan};
use simplex_core::{End, Lambda};
use std::alloc::Global;

/// An end of the simplex method, carried back to all rows and checked.
pub(crate) fn carried(alloc: Global, problem: &Problem<'_>, end: End) -> Result<Certified, NoAnswer>
    requires posed { IsPosedProblem problem.now }
    requires ended { IsEnded (program_of problem.now.reduced.now) end }
    ensures end { IsEndOf (carried_end problem.now.cost problem.now.rows.now problem.now.defs.now problem.now.vars.now (outcome_seen end)) result }
    ensures worth { IfOk result (IsWorth problem.now.cost problem.now.rows.now problem.now.vars.now) }
{
    match end {
        End::Optimal {
            values,
            lambda,
            pivots,
        } => optimum(alloc, problem, &values, &lambda, pivots),
        End::Infeasible { lambda, pivots } => refutation(alloc, problem, &lambda, pivots),
        End::Unbounded {
            values,
            direction,
            pivots,
        } => descent(alloc, problem, &values, &direction, pivots),
    }
}

/// The plan of an optimal end's values and the multipliers that prove it, carried back to all rows and checked.
fn optimum(
    alloc: Global,
    problem: &Problem<'_>,
    values: &Plan,
    lambda: &Lambda,
    pivots: u64,
) -> Result<Certified, NoAnswer>
    requires posed { IsPosedProblem problem.now }
    requires ended { IsEnded (program_of problem.now.reduced.now) (Optimal values.now lambda.now pivots) }
    ensures end { IsEndOf (optimal_end problem.now.cost problem.now.rows.now problem.now.defs.now problem.now.vars.now values.now lambda.now pivots) result }
    ensures worth { IfOk result (IsWorth problem.now.cost problem.now.rows.now problem.now.vars.now) }
{
    plan_laws(values);
    let plan = carry_plan(alloc, problem, values)?;
    plan_laws(&plan);
    let multipliers = carry_multipliers(alloc, problem, lambda.entries(), is_model(problem.cost))?;
    multiplier_laws(&multipliers);
    checked_optimum(alloc, problem, plan, multipliers, pivots)
}

/// The multipliers of an infeasible end, carried back to all rows and checked.
fn refutation(
    alloc: Global,
    problem: &Problem<'_>,
    lambda: &Lambda,
    pivots: u64,
) -> Result<Certified, NoAnswer>
    requires posed { IsPosedProblem problem.now }
    requires ended { IsEnded (program_of problem.now.reduced.now) (Infeasible lambda.now pivots) }
    ensures end { IsEndOf (infeasible_end problem.now.rows.now problem.now.defs.now problem.now.vars.now lambda.now pivots) result }
    ensures worth { IfOk result (IsWorth problem.now.cost problem.now.rows.now problem.now.vars.now) }
{
    let multipliers = carry_multipliers(alloc, problem, lambda.entries(), false)?;
    multiplier_laws(&multipliers);
    checked_refutation(alloc, problem, multipliers, pivots)
}

/// The plan and the direction of an unbounded end, carried back to all rows and checked.
fn descent(
    alloc: Global,
    problem: &Problem<'_>,
    values: &Plan,
    direction: &Plan,
    pivots: u64,
) -> Result<Certified, NoAnswer>
    requires posed { IsPosedProblem problem.now }
    requires ended { IsEnded (program_of problem.now.reduced.now) (Unbounded values.now direction.now pivots) }
    ensures end { IsEndOf (unbounded_end problem.now.cost problem.now.rows.now problem.now.defs.now problem.now.vars.now values.now direction.now pivots) result }
    ensures worth { IfOk result (IsWorth problem.now.cost problem.now.rows.now problem.now.vars.now) }
{
    plan_laws(values);
    plan_laws(direction);
    let plan = carry_plan(alloc, problem, values)?;
    plan_laws(&plan);
    let along = carry_direction(alloc, problem, direction)?;
    plan_laws(&along);
    checked_descent(problem, plan, along, pivots)
}

/// It is the model's cost.
fn is_model(cost: Cost) -> bool
    ensures { result ≡ is_model cost }
{
    match cost {
        Cost::Model => true,
        Cost::One(_, _) => false,
    }
}
