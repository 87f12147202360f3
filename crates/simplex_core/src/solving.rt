//! The method from a linear program to its end.

ghost use Rattle.std.specs.Prelude.{◌≡◌, ◌≢◌, ◌<◌, None, pos, OnOk, IfOk, IfErr};
ghost use Rattle.exact_num.specs.Steps.{first_wide};
ghost use Rattle.written_method.specs.Programs.{program_of};
ghost use Rattle.written_method.specs.Ready.{IsPosed, IsReady};
ghost use Rattle.written_method.specs.Runs.{Ended};
ghost use Rattle.written_method.specs.Runs as runs;
ghost use Rattle.written_method.specs.Solved.{direction_of, direction_steps, optimal_multipliers, outcome_of, refuting_multipliers, solved, value_steps, values_of};
ghost use Rattle.simplex_core.specs.LastTableaus.{IsEnding, IsLast};
ghost use Rattle.simplex_core.specs.Outcomes.{IsHalt, IsProved, outcome_seen};
ghost use Rattle.simplex_core.specs.Runs.{IsFirst};
ghost use Rattle.simplex_core.specs.Views.{ending_seen, state_seen};

use crate::columns::column_values;
use crate::ends::{End, Halt};
use crate::multipliers::{optimal_multipliers, refuting_multipliers};
use crate::plans::{Lift, by_variable};
use crate::progress::Progress;
use crate::running::{Finish, Finished, run};
use int_tableau::Tableau;
use row_core::{Plan, Stopped};
use std::alloc::Global;
use written_method::Reduced;

/// The values of the variables at the last tableau.
fn values(alloc: Global, reduced: &Reduced, tableau: &Tableau) -> Result<Plan, Stopped>
    requires ready { IsReady reduced.now }
    requires last { IsLast (program_of reduced.now) tableau.now.tableau }
    ensures value { IfOk result (λ plan. plan ≡ values_of (program_of reduced.now) tableau.now.tableau) }
    ensures fits { OnOk result (first_wide (value_steps (program_of reduced.now) tableau.now.tableau) ≡ None) }
    ensures stopped { IfErr result (IsFirst (first_wide (value_steps (program_of reduced.now) tableau.now.tableau))) }
{
    let columns = column_values(alloc, tableau, None)?;
    by_variable(alloc, &reduced.columns, &columns, Lift::Plan)
}

/// The direction in which a column grows at the last tableau.
fn direction(
    alloc: Global,
    reduced: &Reduced,
    tableau: &Tableau,
    growing: usize,
) -> Result<Plan, Stopped>
    requires ready { IsReady reduced.now }
    requires last { IsLast (program_of reduced.now) tableau.now.tableau }
    requires growing { growing < tableau.now.tableau.columns }
    ensures value { IfOk result (λ plan. plan ≡ direction_of (program_of reduced.now) tableau.now.tableau growing) }
    ensures fits { OnOk result (first_wide (direction_steps (program_of reduced.now) tableau.now.tableau growing) ≡ None) }
    ensures stopped { IfErr result (IsFirst (first_wide (direction_steps (program_of reduced.now) tableau.now.tableau growing))) }
{
    let columns = column_values(alloc, tableau, Some(growing))?;
    by_variable(alloc, &reduced.columns, &columns, Lift::Direction)
}

/// An optimal end: values, and multipliers by the row of z.
fn optimal(alloc: Global, reduced: &Reduced, last: &Progress) -> Result<End, Halt>
    requires ready { IsReady reduced.now }
    requires ending { IsEnding (program_of reduced.now) runs.Optimal last.now.tableau.tableau }
    ensures end { IfOk result (λ e. outcome_seen e ≡ outcome_of (program_of reduced.now) (Ended runs.Optimal (state_seen last.now))) }
    ensures stopped { IfErr result (IsHalt (outcome_of (program_of reduced.now) (Ended runs.Optimal (state_seen last.now)))) }
{
    let values = values(alloc, reduced, &last.tableau)?;
    let lambda = optimal_multipliers(alloc, reduced, &last.tableau)?;
    Ok(End::Optimal {
        values,
        lambda,
        pivots: last.tableau.pivots(),
    })
}

/// An infeasible end: multipliers by the row of w.
fn infeasible(alloc: Global, reduced: &Reduced, last: &Progress) -> Result<End, Halt>
    requires ready { IsReady reduced.now }
    requires ending { IsEnding (program_of reduced.now) runs.Infeasible last.now.tableau.tableau }
    ensures end { IfOk result (λ e. outcome_seen e ≡ outcome_of (program_of reduced.now) (Ended runs.Infeasible (state_seen last.now))) }
    ensures stopped { IfErr result (IsHalt (outcome_of (program_of reduced.now) (Ended runs.Infeasible (state_seen last.now)))) }
{
    let lambda = refuting_multipliers(alloc, reduced, &last.tableau)?;
    Ok(End::Infeasible {
        lambda,
        pivots: last.tableau.pivots(),
    })
}

/// An unbounded end: values, and the direction in which a column grows.
fn unbounded(alloc: Global, reduced: &Reduced, last: &Progress, growing: usize) -> Result<End, Halt>
    requires ready { IsReady reduced.now }
    requires ending { IsEnding (program_of reduced.now) (runs.Unbounded growing) last.now.tableau.tableau }
    ensures end { IfOk result (λ e. outcome_seen e ≡ outcome_of (program_of reduced.now) (Ended (runs.Unbounded growing) (state_seen last.now))) }
    ensures stopped { IfErr result (IsHalt (outcome_of (program_of reduced.now) (Ended (runs.Unbounded growing) (state_seen last.now)))) }
{
    let values = values(alloc, reduced, &last.tableau)?;
    let direction = direction(alloc, reduced, &last.tableau, growing)?;
    Ok(End::Unbounded {
        values,
        direction,
        pivots: last.tableau.pivots(),
    })
}

/// The end of the rounds, with the values and multipliers of the last tableau.
fn end_of(alloc: Global, reduced: &Reduced, finished: &Finished) -> Result<End, Halt>
    requires ready { IsReady reduced.now }
    requires ending { IsEnding (program_of reduced.now) (ending_seen finished.now.finish) finished.now.last.tableau.tableau }
    ensures end { IfOk result (λ e. outcome_seen e ≡ outcome_of (program_of reduced.now) (Ended (ending_seen finished.now.finish) (state_seen finished.now.last))) }
    ensures stopped { IfErr result (IsHalt (outcome_of (program_of reduced.now) (Ended (ending_seen finished.now.finish) (state_seen finished.now.last)))) }
{
    match finished.finish {
        Finish::Optimal => optimal(alloc, reduced, &finished.last),
        Finish::Infeasible => infeasible(alloc, reduced, &finished.last),
        Finish::Unbounded(column) => unbounded(alloc, reduced, &finished.last, column),
        Finish::PivotDue => Err(Halt::Budget),
    }
}

/// Solves a linear program by the simplex method, with so many pivots at most.
///
/// The end is that of the written method, number by number. `Budget` comes exactly where a pivot is due after the last that may be
/// made and no number formed before leaves the range; `Width` exactly at the place of the first step that forms a number that doesn't
/// fit; any other refusal means that memory ran out. Where every row is an inequality whose variables ascend, an optimal end's values
/// meet the rows and their cost is the bound that the multipliers prove; an infeasible end's multipliers prove that no values meet
/// the rows; and along an unbounded end's direction values go on meeting the rows while the cost falls.
pub fn solve(alloc: Global, reduced: &Reduced, pivots: u64) -> Result<End, Halt>
    requires { IsReady reduced.now }
    ensures end { IfOk result (λ e. outcome_seen e ≡ solved pivots (program_of reduced.now)) }
    ensures stopped { IfErr result (IsHalt (solved pivots (program_of reduced.now))) }
    ensures proved { IsPosed (program_of reduced.now) → IfOk result (IsProved (program_of reduced.now)) }
{
    let finished = run(alloc, reduced, pivots)?;
    end_of(alloc, reduced, &finished)
}
