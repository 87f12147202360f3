//! Why no plan meets the rows of a problem.

ghost use Rattle.std.specs.Prelude.{◌≡◌, ◌≢◌, Some, length, IfOk, IfErr, IfSome, IfNone};
ghost use Rattle.row_problem.specs.Prelude.{Nothing};
ghost use Rattle.row_problem.specs.ProgramsOf.{IsPosedProblem};
ghost use Rattle.conflict_sets.specs.Conflicts.{AdmitsSome, IsConflict};
ghost use Rattle.conflict_sets.specs.Searches.{SearchIs, walk_from};
ghost use Rattle.conflict_sets.specs.Walks.{IsFirstFail, Stops, explained, explanation_seen};

use crate::conflict::{Conflict, ExplainFail};
use crate::listing::{Listing, listed_names};
use crate::searching::Search;
use crate::trial::{Finding, trial};
use certified_answers::NoAnswer;
use row_core::RowName;
use row_problem::Problem;
use simplex_core::Stop;
use std::alloc::Global;

/// A few inequalities that can't be met together, each of them needed for that, or `None` where some plan meets all rows.
///
/// The first trial has every equation and every inequality, at no cost. Where multipliers refute it, the inequalities with a multiplier
/// other than 0 are the list; then each of it in turn, if it is still on it, is left out in a trial. Where the others have no plan, their
/// refutation makes the new list; else the inequality is needed. Each trial may make so many pivots, its plan is checked over its own
/// rows, and its multipliers over all rows. Members stand in the order of rows, and so do their plans, which have one value for each
/// variable of the problem.
///
/// `Stopped` comes exactly where a trial stops, with the first that does: `Budget` and `Width` where that is the first trial, and `Trial`
/// with its number, counted from 1, where it is a later one. Any other refusal means that memory ran out.
pub fn explain(
    alloc: Global,
    problem: &Problem<'_>,
    pivots: u64,
) -> Result<Option<Conflict>, ExplainFail>
    requires { IsPosedProblem problem.now }
    ensures end { IfOk result (λ found. explanation_seen found ≡ explained problem.now.rows.now problem.now.defs.now problem.now.vars.now pivots) }
    ensures stopped { IfErr result (Stops (explained problem.now.rows.now problem.now.defs.now problem.now.vars.now pivots)) }
    ensures conflict { IfOk result (λ found. IfSome found (IsConflict problem.now.rows.now problem.now.vars.now)) }
    ensures feasible { IfOk result (λ found. IfNone found (AdmitsSome problem.now.rows.now problem.now.vars.now)) }
{
    let multipliers = match trial(alloc, problem, &Listing::Every, pivots) {
        Ok(Finding::Plan(_)) => return Ok(None),
        Ok(Finding::Refutation(multipliers)) => multipliers,
        Err(stop) => return Err(first_fail(stop, pivots)),
    };
    let names = listed_names(alloc, problem.rows, &multipliers)?;
    let search = Search {
        multipliers,
        names: Vec::new(alloc),
        plans: Vec::new(alloc),
        trials: 0,
    };
    let conflict = searched(alloc, problem, search, &names, pivots)?;
    Ok(Some(conflict))
}

/// What is left of the list when each of these inequalities was tried.
fn searched(
    alloc: Global,
    problem: &Problem<'_>,
    search: Search,
    names: &[RowName],
    pivots: u64,
) -> Result<Conflict, ExplainFail>
    requires problem { IsPosedProblem problem.now }
    requires first { search.trials ≡ 0 }
    requires even { length search.names.items ≡ length search.plans.items }
    requires searched { SearchIs problem.now.rows.now problem.now.vars.now search names.now }
    ensures end { IfOk result (λ conflict. explanation_seen (Some conflict) ≡ walk_from problem.now.rows.now problem.now.defs.now problem.now.vars.now pivots search names.now) }
    ensures stopped { IfErr result (Stops (walk_from problem.now.rows.now problem.now.defs.now problem.now.vars.now pivots search names.now)) }
    ensures conflict { IfOk result (IsConflict problem.now.rows.now problem.now.vars.now) }
{
    let mut search = search;
    for name in names {
        search.leave_out(alloc, problem, *name, pivots)?;
    }
    Ok(search.conflict(alloc)?)
}

/// Why the first trial, which has every inequality, stopped.
pub(crate) fn first_fail(stop: NoAnswer, pivots: u64) -> ExplainFail
    requires { stop ≢ Nothing }
    ensures { IsFirstFail pivots stop result }
{
    match stop {
        NoAnswer::Nothing => unreachable!(),
        NoAnswer::Budget => ExplainFail::Stopped(Stop::Budget(pivots)),
        NoAnswer::Width(place) => ExplainFail::Stopped(Stop::Width(place)),
        NoAnswer::Memory => ExplainFail::Memory,
    }
}
