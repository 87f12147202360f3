//! What is carried back from the linear program to all rows.

ghost use Rattle.std.specs.Prelude.{◌≡◌, false, None, length, map, IfErr, IfOk, OnOk};
ghost use Rattle.row_problem.specs.Prelude.{first_wide, value_of, IsFirst, is_model, weight_of};
ghost use Rattle.row_problem.specs.CarriedBack.{BecomesDirection, BecomesPlan, BecomesProof, BecomesRefutation};
ghost use Rattle.row_problem.specs.Programs.{carried_direction, carried_multipliers, carried_plan, carrying_steps, direction_steps, plan_steps};
ghost use Rattle.row_problem.specs.ProgramsOf.{IsPosedProblem};

use crate::problem::Problem;
use exact_num::Frac;
use row_core::{Multipliers, Plan, Stopped};
use std::alloc::Global;
use variable_elimination::{lift_direction, lift_multipliers, lift_plan};

/// The plan of values for the columns of the linear program: it meets all rows, with right signs, where the values meet the linear
/// program. Refuses as `lift_plan` does.
pub fn carry_plan(alloc: Global, problem: &Problem<'_>, values: &Plan) -> Result<Plan, Stopped>
    requires { IsPosedProblem problem.now }
    ensures values { IfOk result (λ plan. plan ≡ carried_plan problem.now.rows.now problem.now.defs.now values.now) }
    ensures worth { IfOk result (BecomesPlan problem.now.rows.now problem.now.vars.now problem.now.reduced.now values.now) }
    ensures fits { OnOk result (first_wide (plan_steps problem.now.rows.now problem.now.defs.now values.now) ≡ None) }
    ensures stopped { IfErr result (IsFirst (first_wide (plan_steps problem.now.rows.now problem.now.defs.now values.now))) }
{
    lift_plan(alloc, problem.rows, problem.defs, values)
}

/// The same for a direction, along which the right side of each row is 0. Refuses as `lift_direction` does.
pub fn carry_direction(alloc: Global, problem: &Problem<'_>, values: &Plan) -> Result<Plan, Stopped>
    requires { IsPosedProblem problem.now }
    ensures values { IfOk result (λ direction. direction ≡ carried_direction problem.now.rows.now problem.now.defs.now values.now) }
    ensures worth { IfOk result (BecomesDirection problem.now.rows.now problem.now.vars.now problem.now.reduced.now values.now) }
    ensures fits { OnOk result (first_wide (direction_steps problem.now.rows.now problem.now.defs.now values.now) ≡ None) }
    ensures stopped { IfErr result (IsFirst (first_wide (direction_steps problem.now.rows.now problem.now.defs.now values.now))) }
{
    lift_direction(alloc, problem.rows, problem.defs, values)
}

/// The multipliers of all rows, from one for each row of the linear program. Where they prove a bound of the linear program, those of
/// the rows prove the same bound of its cost: at the model's cost with it, and at one variable's value without it. Without it they show
/// that there is no plan, where those do. Refuses as `lift_multipliers` does.
pub fn carry_multipliers(
    alloc: Global,
    problem: &Problem<'_>,
    lambda: &[Frac],
    with_cost: bool,
) -> Result<Multipliers, Stopped>
    requires problem { IsPosedProblem problem.now }
    requires counted { length lambda.now ≡ length problem.now.reduced.now.rows.items }
    ensures multipliers { IfOk result (λ made. made ≡ carried_multipliers with_cost problem.now.rows.now problem.now.defs.now (map value_of lambda.now)) }
    ensures proves { with_cost ≡ is_model problem.now.cost → IfOk result (BecomesProof (weight_of problem.now.cost) problem.now.rows.now problem.now.vars.now problem.now.reduced.now lambda.now) }
    ensures refutes { with_cost ≡ false → IfOk result (BecomesRefutation problem.now.rows.now problem.now.vars.now problem.now.reduced.now lambda.now) }
    ensures fits { OnOk result (first_wide (carrying_steps with_cost problem.now.rows.now problem.now.defs.now (map value_of lambda.now)) ≡ None) }
    ensures stopped { IfErr result (IsFirst (first_wide (carrying_steps with_cost problem.now.rows.now problem.now.defs.now (map value_of lambda.now)))) }
{
    lift_multipliers(
        alloc,
        problem.rows,
        problem.defs,
        problem.reduced,
        lambda,
        with_cost,
    )
}
