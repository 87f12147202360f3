//! The exact method over rows, from the elimination to the checks.

ghost use Rattle.std.specs.Prelude.{◌≡◌, IfErr, IfOk};
ghost use Rattle.row_problem.specs.Prelude.{AreVariablesOf, program_of, IsComplete, IsNamed, IsProved, IsProvedFor};
ghost use Rattle.written_method.specs.Solved.{solved};
ghost use Rattle.simplex_core.specs.Outcomes.{outcome_seen};
ghost use Rattle.row_problem.specs.Problems.{IsProblem};
ghost use Rattle.row_problem.specs.Programs.{program_left};
ghost use Rattle.row_problem.specs.ProgramsOf.{IsPosedProblem};
ghost use Rattle.exact_solver.specs.MethodEnds.{IsStopOf, end_seen, method_end, solved_end, stop_at};
ghost use Rattle.exact_solver.specs.SimplexEnds.{IsEnded};

use crate::carrying::carried;
use certified_answers::{Certified, Cost, NoAnswer};
use row_core::{Row, Var};
use row_problem::{Problem, left_of};
use simplex_core::{End, Halt, solve};
use std::alloc::Global;

/// Solves a problem, with so many pivots at most.
///
/// The linear program that is left of its rows is solved by the simplex method, and plan, multipliers and direction are carried back to
/// all rows. Nothing is answered to which the checker doesn't say yes: a plan of least cost with multipliers that prove that none costs
/// less, multipliers that prove that no plan exists, or a plan with a direction along which the cost falls without end. A plan and
/// a direction have one value for each variable, in order; multipliers ascend by the names of rows.
///
/// `Budget` comes exactly where a pivot is due after the last that may be made, `Width` exactly at the place of the first step that
/// forms a number that doesn't fit: of the pivots, what is carried back, and the checks, in this order. `Nothing` never comes, and
/// `Memory` where memory ran out.
pub fn exact(alloc: Global, problem: &Problem<'_>, pivots: u64) -> Result<Certified, NoAnswer>
    requires { IsPosedProblem problem.now }
    ensures end { IfOk result (λ found. end_seen found ≡ solved_end problem.now.rows.now problem.now.defs.now problem.now.vars.now problem.now.cost pivots) }
    ensures stopped { IfErr result (IsStopOf (solved_end problem.now.rows.now problem.now.defs.now problem.now.vars.now problem.now.cost pivots)) }
    ensures proved { IfOk result (IsProvedFor problem.now.cost problem.now.rows.now problem.now.vars.now) }
    ensures whole { IfOk result (IsComplete problem.now.vars.now) }
    ensures named { IfOk result (IsNamed problem.now.rows.now) }
{
    let end = ended(alloc, problem, pivots)?;
    carried(alloc, problem, end)
}

/// Solves rows at the model's cost, with so many pivots at most. `defs` says of each row which variable it defines, if it defines one,
/// and `vars` are the variables of the rows. All defined variables are removed first; then all is as `exact` does it.
pub fn solve_rows(
    alloc: Global,
    rows: &[Row],
    defs: &[Option<Var>],
    vars: &[Var],
    pivots: u64,
) -> Result<Certified, NoAnswer>
    requires problem { IsProblem rows.now defs.now vars.now }
    requires variables { AreVariablesOf rows.now vars.now }
    ensures end { IfOk result (λ found. end_seen found ≡ method_end rows.now defs.now vars.now pivots) }
    ensures stopped { IfErr result (IsStopOf (method_end rows.now defs.now vars.now pivots)) }
    ensures proved { IfOk result (IsProved rows.now vars.now) }
    ensures whole { IfOk result (IsComplete vars.now) }
    ensures named { IfOk result (IsNamed rows.now) }
{
    let reduced = left_of(alloc, rows, defs, vars)?;
    let problem = Problem {
        rows,
        defs,
        vars,
        reduced: &reduced,
        cost: Cost::Model,
    };
    exact(alloc, &problem, pivots)
}

/// How the simplex method ends on what is left of a problem's rows.
fn ended(alloc: Global, problem: &Problem<'_>, pivots: u64) -> Result<End, NoAnswer>
    requires { IsPosedProblem problem.now }
    ensures outcome { IfOk result (λ end. outcome_seen end ≡ solved pivots (program_left problem.now.rows.now problem.now.defs.now problem.now.vars.now problem.now.cost)) }
    ensures ended { IfOk result (IsEnded (program_of problem.now.reduced.now)) }
    ensures stopped { IfErr result (IsStopOf (solved_end problem.now.rows.now problem.now.defs.now problem.now.vars.now problem.now.cost pivots)) }
{
    match solve(alloc, problem.reduced, pivots) {
        Ok(end) => Ok(end),
        Err(halt) => Err(stop_at(halt)),
    }
}

/// A stop of the simplex method, as that of a method that goes on from its end.
pub fn stop_at(halt: Halt) -> NoAnswer
    ensures { result ≡ stop_at halt }
{
    match halt {
        Halt::Budget => NoAnswer::Budget,
        Halt::Width(place) => NoAnswer::Width(place),
        Halt::Memory => NoAnswer::Memory,
    }
}
