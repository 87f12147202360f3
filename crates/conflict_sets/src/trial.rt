//! One trial: the exact method at no cost on all equations and some of the inequalities, checked.

ghost use Rattle.std.specs.Prelude.{◌≡◌, IfOk, IfErr, length};
ghost use Rattle.row_problem.specs.Prelude.{keys_of, program_of};
ghost use Rattle.simplex_core.specs.Outcomes.{MeetAll, RefuteAll, outcome_seen};
ghost use Rattle.row_problem.specs.ProgramsOf.{IsPosedProblem};
ghost use Rattle.exact_solver.specs.SimplexEnds.{IsEnded};
ghost use Rattle.conflict_sets.specs.Pieces.{IsFinding, IsTriedOf, end_found, listed_by};
ghost use Rattle.conflict_sets.specs.Trials.{StopsTrial, carried_trial, planned_end, refuted_end, trial_end};

use crate::copying::{trial_program, trial_rows};
use crate::listing::Listing;
use certified_answers::{NoAnswer, accepted_plan, accepted_refutation, multiplier_laws, plan_laws};
use exact_solver::stop_at;
use row_core::{Multipliers, Plan};
use row_problem::{Problem, carry_plan};
use simplex_core::{End, Lambda, solve};
use std::alloc::Global;
use variable_elimination::lift_multipliers;
use written_method::Reduced;

/// What a trial finds. The checker has said yes to it.
#[derive(Drop)]
pub(crate) enum Finding {
    /// A plan that meets all rows of the trial.
    Plan(Plan),
    /// Multipliers of the rows of the trial, and of no others, that show that there is no such plan.
    Refutation(Multipliers),
}

/// Tries the equations and those of its inequalities that are listed, with so many pivots at most.
pub(crate) fn trial(
    alloc: Global,
    problem: &Problem<'_>,
    listing: &Listing<'_>,
    pivots: u64,
) -> Result<Finding, NoAnswer>
    requires { IsPosedProblem problem.now }
    ensures end { IfOk result (λ finding. end_found finding ≡ trial_end (listed_by listing.now) problem.now.rows.now problem.now.defs.now problem.now.vars.now pivots) }
    ensures stopped { IfErr result (StopsTrial (trial_end (listed_by listing.now) problem.now.rows.now problem.now.defs.now problem.now.vars.now pivots)) }
    ensures worth { IfOk result (IsFinding (listed_by listing.now) problem.now.rows.now problem.now.vars.now) }
{
    let tried = trial_program(alloc, problem.reduced, listing)?;
    match solve(alloc, &tried, pivots) {
        Ok(end) => carried(alloc, problem, listing, &tried, end),
        Err(halt) => Err(stop_at(halt)),
    }
}

/// An end of the simplex method on the linear program of a trial, carried back and checked.
fn carried(
    alloc: Global,
    problem: &Problem<'_>,
    listing: &Listing<'_>,
    tried: &Reduced,
    end: End,
) -> Result<Finding, NoAnswer>
    requires problem { IsPosedProblem problem.now }
    requires tried { IsTriedOf (listed_by listing.now) problem.now.reduced.now tried.now }
    requires ended { IsEnded (program_of tried.now) end }
    ensures end { IfOk result (λ finding. end_found finding ≡ carried_trial (listed_by listing.now) problem.now.rows.now problem.now.defs.now problem.now.vars.now (outcome_seen end)) }
    ensures stopped { IfErr result (StopsTrial (carried_trial (listed_by listing.now) problem.now.rows.now problem.now.defs.now problem.now.vars.now (outcome_seen end))) }
    ensures worth { IfOk result (IsFinding (listed_by listing.now) problem.now.rows.now problem.now.vars.now) }
{
    match end {
        End::Optimal { values, .. } => planned(alloc, problem, listing, tried, &values),
        End::Unbounded { values, .. } => planned(alloc, problem, listing, tried, &values),
        End::Infeasible { lambda, .. } => refuted(alloc, problem, listing, tried, &lambda),
    }
}

/// The plan of values that meet the linear program of a trial, carried back and checked over the rows of the trial.
fn planned(
    alloc: Global,
    problem: &Problem<'_>,
    listing: &Listing<'_>,
    tried: &Reduced,
    values: &Plan,
) -> Result<Finding, NoAnswer>
    requires problem { IsPosedProblem problem.now }
    requires tried { IsTriedOf (listed_by listing.now) problem.now.reduced.now tried.now }
    requires keyed { keys_of values.now ≡ tried.now.columns.items }
    requires meet { MeetAll (program_of tried.now) values.now }
    ensures end { IfOk result (λ finding. end_found finding ≡ planned_end (listed_by listing.now) problem.now.rows.now problem.now.defs.now problem.now.vars.now values.now) }
    ensures stopped { IfErr result (StopsTrial (planned_end (listed_by listing.now) problem.now.rows.now problem.now.defs.now problem.now.vars.now values.now)) }
    ensures worth { IfOk result (IsFinding (listed_by listing.now) problem.now.rows.now problem.now.vars.now) }
{
    plan_laws(values);
    let plan = carry_plan(alloc, problem, values)?;
    plan_laws(&plan);
    let rows = trial_rows(alloc, problem.rows, listing)?;
    accepted_plan(&rows, problem.vars, &plan)?;
    Ok(Finding::Plan(plan))
}

/// The multipliers that refute the linear program of a trial, carried back to all rows and checked.
fn refuted(
    alloc: Global,
    problem: &Problem<'_>,
    listing: &Listing<'_>,
    tried: &Reduced,
    lambda: &Lambda,
) -> Result<Finding, NoAnswer>
    requires problem { IsPosedProblem problem.now }
    requires tried { IsTriedOf (listed_by listing.now) problem.now.reduced.now tried.now }
    requires counted { length lambda.now ≡ length tried.now.rows.items }
    requires refute { RefuteAll (program_of tried.now) lambda.now }
    ensures end { IfOk result (λ finding. end_found finding ≡ refuted_end (listed_by listing.now) problem.now.rows.now problem.now.defs.now problem.now.vars.now lambda.now) }
    ensures stopped { IfErr result (StopsTrial (refuted_end (listed_by listing.now) problem.now.rows.now problem.now.defs.now problem.now.vars.now lambda.now)) }
    ensures worth { IfOk result (IsFinding (listed_by listing.now) problem.now.rows.now problem.now.vars.now) }
{
    let multipliers = lift_multipliers(
        alloc,
        problem.rows,
        problem.defs,
        tried,
        lambda.entries(),
        false,
    )?;
    multiplier_laws(&multipliers);
    accepted_refutation(alloc, problem.rows, problem.vars, &multipliers)?;
    Ok(Finding::Refutation(multipliers))
}
