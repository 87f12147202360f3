//! Why no plan meets the rows, by guesses that the checker accepts, and by the exact method, or by nothing, where there are none.

ghost use Rattle.std.specs.Prelude.{◌≡◌, ◌∷◌, List, length, IfOk, IfErr, IfSome, IfNone, OnOk};
ghost use Rattle.row_problem.specs.Prelude.{RowName, IsRefutation};
ghost use Rattle.row_problem.specs.ProgramsOf.{IsPosedProblem};
ghost use Rattle.conflict_sets.specs.Conflicts.{AdmitsSome, IsConflict};
ghost use Rattle.conflict_sets.specs.Halts.{HaltsSome, HaltsTrial};
ghost use Rattle.conflict_sets.specs.Pieces.{IsFinding, listed_by};
ghost use Rattle.conflict_sets.specs.RoundedStops.{StopsSome};
ghost use Rattle.conflict_sets.specs.Searches.{SearchIs};
ghost use Rattle.conflict_sets.specs.Trials.{trial_end};

use crate::conflict::{Conflict, ExplainFail};
use crate::fallback::{Fallback, Halt, first_halt, trial_halt};
use crate::guessing::guessed;
use crate::listing::{Listing, is_listed, listed_names};
use crate::searching::Search;
use crate::shrinking::Shrinking;
use crate::trial::{Finding, trial};
use call_stages::{Stage, Watcher};
use certified_answers::NoAnswer;
use row_core::{Multipliers, RowName};
use row_problem::Problem;
use std::alloc::{AllocError, Global};

/// As `explain`, by guesses in numbers of limited accuracy first: a few inequalities that can't be met together, each of them
/// needed for that, or `None` where some plan meets all rows. Plans and multipliers are checked as those of `explain` are.
///
/// Each trial is made by guesses, and by the exact method where the checker accepts none of them; each guess and each exact trial may
/// make so many pivots. A long list is made shorter first: parts of it, a half and then smaller ones, are left out at once in trials by
/// guesses alone. Which inequalities are found isn't defined.
///
/// `Stopped` comes only where no guess was accepted in a trial and the exact method stops in the same trial, with its stop: `Budget` and
/// `Width` where that is the first trial, and `Trial` with its number where it is a later one. Trials are counted as they are made,
/// those of the first step too, the first after the first trial as 1. Any other refusal means that memory ran out.
pub fn explain_rounded(
    alloc: Global,
    problem: &Problem<'_>,
    pivots: u64,
    watcher: &mut dyn Watcher,
) -> Result<Option<Conflict>, ExplainFail>
    requires { IsPosedProblem problem.now }
    ensures stopped { IfErr result (StopsSome problem.now.rows.now problem.now.defs.now problem.now.vars.now pivots) }
    ensures conflict { IfOk result (λ found. IfSome found (IsConflict problem.now.rows.now problem.now.vars.now)) }
    ensures feasible { IfOk result (λ found. IfNone found (AdmitsSome problem.now.rows.now problem.now.vars.now)) }
{
    match explain_with(alloc, problem, pivots, Fallback::Exact, watcher) {
        Ok(found) => Ok(found),
        Err(Halt::Failed(fail)) => Err(fail),
        // The exact method follows in each trial.
        Err(Halt::Unguessed) => unreachable!(),
    }
}

/// The same by guesses alone, for linear programs that are too large for the exact method. `None` where the checker accepts no guess in
/// some trial; when this is so isn't defined, and nothing is known of the rows then. Refuses only out of memory.
pub fn explain_guessed(
    alloc: Global,
    problem: &Problem<'_>,
    pivots: u64,
    watcher: &mut dyn Watcher,
) -> Result<Option<Option<Conflict>>, AllocError>
    requires { IsPosedProblem problem.now }
    ensures conflict { IfOk result (λ given. IfSome given (λ found. IfSome found (IsConflict problem.now.rows.now problem.now.vars.now))) }
    ensures feasible { IfOk result (λ given. IfSome given (λ found. IfNone found (AdmitsSome problem.now.rows.now problem.now.vars.now))) }
{
    match explain_with(alloc, problem, pivots, Fallback::Nothing, watcher) {
        Ok(found) => Ok(Some(found)),
        Err(Halt::Unguessed) => Ok(None),
        Err(Halt::Failed(ExplainFail::Memory)) => Err(AllocError),
        // No exact trial is made that could stop.
        Err(Halt::Failed(ExplainFail::Stopped(_))) => unreachable!(),
    }
}

/// What trials by guesses find, with this after a trial of which no guess is accepted.
fn explain_with(
    alloc: Global,
    problem: &Problem<'_>,
    pivots: u64,
    fallback: Fallback,
    watcher: &mut dyn Watcher,
) -> Result<Option<Conflict>, Halt>
    requires { IsPosedProblem problem.now }
    ensures halted { IfErr result (HaltsSome fallback problem.now.rows.now problem.now.defs.now problem.now.vars.now pivots) }
    ensures conflict { IfOk result (λ found. IfSome found (IsConflict problem.now.rows.now problem.now.vars.now)) }
    ensures feasible { IfOk result (λ found. IfNone found (AdmitsSome problem.now.rows.now problem.now.vars.now)) }
{
    let mut start = Vec::new(alloc);
    match rounded_trial(
        alloc,
        problem,
        &Listing::Every,
        &mut start,
        pivots,
        fallback,
        watcher,
    ) {
        Ok(Finding::Plan(_)) => Ok(None),
        Ok(Finding::Refutation(multipliers)) => {
            let conflict = shortened(
                alloc,
                problem,
                multipliers,
                &mut start,
                pivots,
                fallback,
                watcher,
            )?;
            Ok(Some(conflict))
        }
        Err(stop) => Err(first_halt(stop, pivots)),
    }
}

/// Tries the equations and those of its inequalities that are listed: by guesses from the values of the trial before, and by what follows
/// where none is accepted.
fn rounded_trial(
    alloc: Global,
    problem: &Problem<'_>,
    listing: &Listing<'_>,
    start: &mut Vec<f64>,
    pivots: u64,
    fallback: Fallback,
    watcher: &mut dyn Watcher,
) -> Result<Finding, NoAnswer>
    requires { IsPosedProblem problem.now }
    ensures halted { IfErr result (HaltsTrial fallback (trial_end (listed_by listing.now) problem.now.rows.now problem.now.defs.now problem.now.vars.now pivots)) }
    ensures worth { IfOk result (IsFinding (listed_by listing.now) problem.now.rows.now problem.now.vars.now) }
{
    match guessed(alloc, problem, listing, start, pivots, watcher) {
        Ok(Some(finding)) => Ok(finding),
        Ok(None) => match fallback {
            Fallback::Exact => {
                watcher.see(Stage::Exact);
                trial(alloc, problem, listing, pivots)
            }
            Fallback::Nothing => Err(NoAnswer::Nothing),
        },
        Err(_) => Err(NoAnswer::Memory),
    }
}

/// The conflict that is left of the list of a refutation.
fn shortened(
    alloc: Global,
    problem: &Problem<'_>,
    multipliers: Multipliers,
    start: &mut Vec<f64>,
    pivots: u64,
    fallback: Fallback,
    watcher: &mut dyn Watcher,
) -> Result<Conflict, Halt>
    requires problem { IsPosedProblem problem.now }
    requires refutation { IsRefutation problem.now.rows.now problem.now.vars.now multipliers }
    ensures halted { IfErr result (HaltsSome fallback problem.now.rows.now problem.now.defs.now problem.now.vars.now pivots) }
    ensures conflict { IfOk result (IsConflict problem.now.rows.now problem.now.vars.now) }
{
    let mut shrinking = Shrinking {
        multipliers,
        trials: 0,
    };
    shrinking.shrink(alloc, problem, pivots, watcher)?;
    let names = listed_names(alloc, problem.rows, &shrinking.multipliers)?;
    let search = Search {
        multipliers: shrinking.multipliers,
        names: Vec::new(alloc),
        plans: Vec::new(alloc),
        trials: shrinking.trials,
    };
    searched(
        alloc, problem, search, &names, start, pivots, fallback, watcher,
    )
}

/// What is left of the list when each of these inequalities was tried.
fn searched(
    alloc: Global,
    problem: &Problem<'_>,
    search: Search,
    names: &[RowName],
    start: &mut Vec<f64>,
    pivots: u64,
    fallback: Fallback,
    watcher: &mut dyn Watcher,
) -> Result<Conflict, Halt>
    requires problem { IsPosedProblem problem.now }
    requires even { length search.names.items ≡ length search.plans.items }
    requires searched { SearchIs problem.now.rows.now problem.now.vars.now search names.now }
    ensures halted { IfErr result (HaltsSome fallback problem.now.rows.now problem.now.defs.now problem.now.vars.now pivots) }
    ensures conflict { IfOk result (IsConflict problem.now.rows.now problem.now.vars.now) }
{
    let mut search = search;
    for name in names {
        leave_out(
            alloc,
            problem,
            &mut search,
            *name,
            start,
            pivots,
            fallback,
            watcher,
        )?;
    }
    Ok(search.conflict(alloc)?)
}

/// Tries the list without this inequality, where it is still on it.
fn leave_out(
    alloc: Global,
    problem: &Problem<'_>,
    search: &mut Search,
    name: RowName,
    start: &mut Vec<f64>,
    pivots: u64,
    fallback: Fallback,
    watcher: &mut dyn Watcher,
) -> Result<(), Halt>
    requires problem { IsPosedProblem problem.now }
    requires even { length search.old.names.items ≡ length search.old.plans.items }
    requires refutation { IsRefutation problem.now.rows.now problem.now.vars.now search.old.multipliers }
    ensures even { OnOk result (length search.new.names.items ≡ length search.new.plans.items) }
    ensures halted { IfErr result (HaltsSome fallback problem.now.rows.now problem.now.defs.now problem.now.vars.now pivots) }
    ensures searched { OnOk result ((left : List RowName) → SearchIs problem.now.rows.now problem.now.vars.now search.old (name ∷ left) → SearchIs problem.now.rows.now problem.now.vars.now search.new left) }
{
    if !is_listed(&search.multipliers, name) {
        return Ok(());
    }
    // A count of trials that are made one after another never comes near its end.
    search.trials = search.trials.saturating_add(1);
    let listing = Listing::Others(&search.multipliers, name);
    match rounded_trial(alloc, problem, &listing, start, pivots, fallback, watcher) {
        Ok(finding) => {
            search.learn(name, finding)?;
            Ok(())
        }
        Err(stop) => Err(trial_halt(stop, search.trials, pivots)),
    }
}
