//! The checks of what was carried back. What is asked of it makes each of them say yes; a number that doesn't fit is the one cause of
//! another answer.

ghost use Rattle.std.specs.Prelude.{◌≡◌, None, IfErr, IfOk, OnOk};
ghost use Rattle.row_problem.specs.Prelude.{first_wide, value_of, keys_of, AreNamedIn, weight_of, Model, IsWidthAt, IsClosed};
ghost use Rattle.certified_answers.specs.Found.{IsFoundDescentFor, IsFoundOptimumFor, IsFoundPlan, IsFoundRefutation};
ghost use Rattle.row_problem.specs.ProgramsOf.{IsPosedProblem};
ghost use Rattle.exact_solver.specs.MethodEnds.{HasNoBound, HasNoPlan, HasOptimum, IsEndOf, IsWorth, closing_checks, descent_checks, optimum_checks, refutation_checks, unless_wide};

use certified_answers::{
    Certified, Cost, NoAnswer, accepted_bound, accepted_direction, accepted_gap, accepted_plan,
    accepted_refutation, plan_laws,
};
use exact_num::Frac;
use row_core::{Multipliers, Plan};
use row_problem::Problem;
use std::alloc::Global;

/// A plan and the multipliers that prove that none costs less, checked.
pub(crate) fn checked_optimum(
    alloc: Global,
    problem: &Problem<'_>,
    plan: Plan,
    multipliers: Multipliers,
    pivots: u64,
) -> Result<Certified, NoAnswer>
    requires posed { IsPosedProblem problem.now }
    requires found { IsFoundOptimumFor (weight_of problem.now.cost) problem.now.rows.now problem.now.vars.now plan multipliers }
    requires complete { keys_of plan ≡ problem.now.vars.now }
    requires named { AreNamedIn problem.now.rows.now multipliers }
    ensures end { IsEndOf (unless_wide (first_wide (optimum_checks problem.now.cost problem.now.rows.now problem.now.vars.now plan multipliers)) (HasOptimum plan multipliers pivots)) result }
    ensures worth { IfOk result (IsWorth problem.now.cost problem.now.rows.now problem.now.vars.now) }
{
    plan_laws(&plan);
    let cost = accepted_plan(problem.rows, problem.vars, &plan)?;
    let bound = accepted_bound(
        alloc,
        problem.rows,
        problem.vars,
        problem.cost,
        &multipliers,
    )?;
    closed(problem.cost, cost, bound)?;
    Ok(Certified::Optimal {
        plan,
        multipliers,
        cost,
        bound,
        pivots,
    })
}

/// At the model's cost, nothing lies between the cost of a plan and the bound that it is.
fn closed(cost: Cost, amount: Frac, bound: Frac) -> Result<(), NoAnswer>
    requires { cost ≡ Model → value_of amount ≡ value_of bound }
    ensures closed { OnOk result (cost ≡ Model → IsClosed (value_of amount) (value_of bound)) }
    ensures fits { OnOk result (first_wide (closing_checks cost (value_of amount) (value_of bound)) ≡ None) }
    ensures stopped { IfErr result (IsWidthAt (first_wide (closing_checks cost (value_of amount) (value_of bound)))) }
{
    match cost {
        Cost::Model => accepted_gap(amount, bound, 0),
        Cost::One(_, _) => Ok(()),
    }
}

/// Multipliers that show that no plan exists, checked.
pub(crate) fn checked_refutation(
    alloc: Global,
    problem: &Problem<'_>,
    multipliers: Multipliers,
    pivots: u64,
) -> Result<Certified, NoAnswer>
    requires posed { IsPosedProblem problem.now }
    requires found { IsFoundRefutation problem.now.rows.now problem.now.vars.now multipliers }
    requires named { AreNamedIn problem.now.rows.now multipliers }
    ensures end { IsEndOf (unless_wide (first_wide (refutation_checks problem.now.rows.now problem.now.vars.now multipliers)) (HasNoPlan multipliers pivots)) result }
    ensures worth { IfOk result (IsWorth problem.now.cost problem.now.rows.now problem.now.vars.now) }
{
    accepted_refutation(alloc, problem.rows, problem.vars, &multipliers)?;
    Ok(Certified::Infeasible {
        multipliers,
        pivots,
    })
}

/// A plan and a direction along which the cost falls without end, checked.
pub(crate) fn checked_descent(
    problem: &Problem<'_>,
    plan: Plan,
    direction: Plan,
    pivots: u64,
) -> Result<Certified, NoAnswer>
    requires plan { IsFoundPlan problem.now.rows.now problem.now.vars.now plan }
    requires direction { IsFoundDescentFor (weight_of problem.now.cost) problem.now.rows.now problem.now.vars.now direction }
    requires complete { keys_of plan ≡ problem.now.vars.now }
    requires along { keys_of direction ≡ problem.now.vars.now }
    ensures end { IsEndOf (unless_wide (first_wide (descent_checks problem.now.cost problem.now.rows.now problem.now.vars.now plan direction)) (HasNoBound plan direction pivots)) result }
    ensures worth { IfOk result (IsWorth problem.now.cost problem.now.rows.now problem.now.vars.now) }
{
    accepted_plan(problem.rows, problem.vars, &plan)?;
    accepted_direction(problem.rows, problem.vars, problem.cost, &direction)?;
    Ok(Certified::Unbounded {
        plan,
        direction,
        pivots,
    })
}
