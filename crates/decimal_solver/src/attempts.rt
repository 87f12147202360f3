//! The attempt over rows.

ghost use Rattle.std.specs.Prelude.{◌≡◌, Some, length, map, IfOk, IfErr};
ghost use Rattle.row_problem.specs.Prelude.{value_of, keys_of, AreNamedIn, Model, width_of, program_of};
ghost use Rattle.row_problem.specs.Problems.{IsProblem};
ghost use Rattle.row_problem.specs.ProgramsOf.{IsPosedProblem, IsProgramOf};
ghost use Rattle.decimal_solver.specs.Answers.{AllOfFound, IsComplete, IsNamed, IsProved, attempt_seen, end_seen};
ghost use Rattle.decimal_solver.specs.Attempts.{carried, checked, grid_end, state_end};
ghost use Rattle.decimal_solver.specs.Views.{IsNothing, state_seen};

use crate::ending::{column_values, row_multipliers, spread, variable_values};
use crate::running::run;
use crate::starting::first_state;
use crate::states::State;
use certified_answers::{
    Cost, NoAnswer, accepted_bound, accepted_gap, accepted_plan, multiplier_laws, plan_laws,
};
use exact_num::Frac;
use row_core::{Multipliers, Plan, Row, Var};
use row_problem::{Problem, carry_multipliers, carry_plan};
use std::alloc::{AllocError, Global};
use written_method::Reduced;

/// What an attempt gives, after so many pivots. The checker has said yes to it: the plan meets all rows with right signs and costs
/// `cost`, the multipliers prove that no plan costs less than `bound`, and the two are as near as was asked for.
#[derive(Drop)]
pub struct Found {
    pub plan: Plan,
    pub multipliers: Multipliers,
    pub cost: Frac,
    pub bound: Frac,
    pub pivots: u64,
}

/// A second attempt at the least cost of rows, `defs` saying of each which variable it defines, `vars` their variables, and `reduced` what
/// is left of them at the model's cost: the simplex method on the linear program that is left of them, in whole
/// numbers of which a billion stand for 1, with so many pivots at most. What it finds is carried back to all rows and given to the
/// checker, and is answered only where the checker says yes to the plan, to the bound, and to a cost of at most `ppm` millionths of
/// the bound's absolute value above it.
///
/// `None` comes exactly where the method gives nothing: a number that is formed lies outside the range from `-(2^127 - 1)` to
/// `2^127 - 1`, a pivot is due after the last that may be made, no row can leave, no column can enter while x0 is there, or the
/// checker doesn't say yes. An error means that memory ran out.
pub fn second(
    alloc: Global,
    rows: &[Row],
    defs: &[Option<Var>],
    vars: &[Var],
    reduced: &Reduced,
    ppm: u32,
    pivots: u64,
) -> Result<Option<Found>, AllocError>
    requires { IsProgramOf rows.now defs.now vars.now Model reduced.now }
    ensures end { IfOk result (λ found. end_seen found ≡ grid_end rows.now defs.now vars.now ppm pivots) }
    ensures proved { IfOk result (AllOfFound (IsProved rows.now vars.now ppm)) }
    ensures whole { IfOk result (AllOfFound (IsComplete vars.now)) }
    ensures named { IfOk result (AllOfFound (IsNamed rows.now)) }
{
    let problem = Problem {
        rows,
        defs,
        vars,
        reduced,
        cost: Cost::Model,
    };
    match attempt(alloc, &problem, ppm, pivots) {
        Ok(found) => Ok(Some(found)),
        Err(NoAnswer::Memory) => Err(AllocError),
        Err(NoAnswer::Nothing) => Ok(None),
        Err(NoAnswer::Budget) => Ok(None),
        Err(NoAnswer::Width(_)) => Ok(None),
    }
}

/// The attempt, or why it gives nothing.
fn attempt(alloc: Global, problem: &Problem<'_>, ppm: u32, pivots: u64) -> Result<Found, NoAnswer>
    requires problem { IsPosedProblem problem.now }
    requires model { problem.now.cost ≡ Model }
    ensures end { IfOk result (λ found. grid_end problem.now.rows.now problem.now.defs.now problem.now.vars.now ppm pivots ≡ Some (attempt_seen found)) }
    ensures nothing { IfErr result (IsNothing (grid_end problem.now.rows.now problem.now.defs.now problem.now.vars.now ppm pivots)) }
    ensures proved { IfOk result (IsProved problem.now.rows.now problem.now.vars.now ppm) }
    ensures whole { IfOk result (IsComplete problem.now.vars.now) }
    ensures named { IfOk result (IsNamed problem.now.rows.now) }
{
    let first = first_state(alloc, problem.reduced)?;
    let last = run(alloc, first, pivots)?;
    ended(alloc, problem, ppm, &last)
}

/// What the last state gives.
fn ended(alloc: Global, problem: &Problem<'_>, ppm: u32, last: &State) -> Result<Found, NoAnswer>
    requires problem { IsPosedProblem problem.now }
    requires model { problem.now.cost ≡ Model }
    requires counted { length last.now.rows.items ≡ length problem.now.reduced.now.rows.items }
    requires slack { last.now.slack ≡ width_of problem.now.reduced.now.columns.items }
    ensures end { IfOk result (λ found. state_end problem.now.rows.now problem.now.defs.now problem.now.vars.now ppm (program_of problem.now.reduced.now) (state_seen last.now) ≡ Some (attempt_seen found)) }
    ensures nothing { IfErr result (IsNothing (state_end problem.now.rows.now problem.now.defs.now problem.now.vars.now ppm (program_of problem.now.reduced.now) (state_seen last.now))) }
    ensures proved { IfOk result (IsProved problem.now.rows.now problem.now.vars.now ppm) }
    ensures whole { IfOk result (IsComplete problem.now.vars.now) }
    ensures named { IfOk result (IsNamed problem.now.rows.now) }
{
    let columns = column_values(alloc, last.columns, &last.rows)?;
    let values = variable_values(alloc, &columns, &problem.reduced.columns)?;
    let numbers = spread(alloc, last.columns, &last.cost.entries)?;
    let lambda = row_multipliers(alloc, &numbers, last.slack, &last.rows)?;
    carried(alloc, problem, ppm, &values, &lambda, last.pivots)
}

/// Values and multipliers of the linear program, carried back to all rows and checked.
fn carried(
    alloc: Global,
    problem: &Problem<'_>,
    ppm: u32,
    values: &Plan,
    lambda: &[Frac],
    pivots: u64,
) -> Result<Found, NoAnswer>
    requires problem { IsPosedProblem problem.now }
    requires model { problem.now.cost ≡ Model }
    requires keyed { keys_of values.now ≡ problem.now.reduced.now.columns.items }
    requires counted { length lambda.now ≡ length problem.now.reduced.now.rows.items }
    ensures end { IfOk result (λ found. carried problem.now.rows.now problem.now.defs.now problem.now.vars.now ppm values.now (map value_of lambda.now) pivots ≡ Some (attempt_seen found)) }
    ensures nothing { IfErr result (IsNothing (carried problem.now.rows.now problem.now.defs.now problem.now.vars.now ppm values.now (map value_of lambda.now) pivots)) }
    ensures proved { IfOk result (IsProved problem.now.rows.now problem.now.vars.now ppm) }
    ensures whole { IfOk result (IsComplete problem.now.vars.now) }
    ensures named { IfOk result (IsNamed problem.now.rows.now) }
{
    plan_laws(values);
    let plan = carry_plan(alloc, problem, values)?;
    plan_laws(&plan);
    let multipliers = carry_multipliers(alloc, problem, lambda, true)?;
    multiplier_laws(&multipliers);
    checked(alloc, problem, ppm, plan, multipliers, pivots)
}

/// What was found, with the checker's yes.
fn checked(
    alloc: Global,
    problem: &Problem<'_>,
    ppm: u32,
    plan: Plan,
    multipliers: Multipliers,
    pivots: u64,
) -> Result<Found, NoAnswer>
    requires { IsProblem problem.now.rows.now problem.now.defs.now problem.now.vars.now }
    ensures end { IfOk result (λ found. checked problem.now.rows.now problem.now.vars.now ppm plan multipliers pivots ≡ Some (attempt_seen found)) }
    ensures nothing { IfErr result (IsNothing (checked problem.now.rows.now problem.now.vars.now ppm plan multipliers pivots)) }
    ensures proved { IfOk result (IsProved problem.now.rows.now problem.now.vars.now ppm) }
    ensures whole { keys_of plan ≡ problem.now.vars.now → IfOk result (IsComplete problem.now.vars.now) }
    ensures named { AreNamedIn problem.now.rows.now multipliers → IfOk result (IsNamed problem.now.rows.now) }
{
    let rows = problem.rows;
    let vars = problem.vars;
    let cost = accepted_plan(rows, vars, &plan)?;
    let bound = accepted_bound(alloc, rows, vars, Cost::Model, &multipliers)?;
    accepted_gap(cost, bound, ppm)?;
    Ok(Found {
        plan,
        multipliers,
        cost,
        bound,
        pivots,
    })
}
