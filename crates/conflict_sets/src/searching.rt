//! The list of inequalities that a refutation uses, as one after another is tried.

ghost use Rattle.std.specs.Prelude.{◌≡◌, ◌≢◌, ◌+◌, ◌<◌, ◌≤◌, ◌^◌, ◌∷◌, List, length, map, IfOk, IfErr, OnOk};
ghost use Rattle.row_problem.specs.Prelude.{RowName, valued, Nothing};
ghost use Rattle.row_problem.specs.ProgramsOf.{IsPosedProblem};
ghost use Rattle.conflict_sets.specs.Searches.{SearchIs, all_needed, list_after, member_named, needed_after, walk_from};
ghost use Rattle.conflict_sets.specs.Walks.{IsTrialFail, Stops};

use crate::conflict::{Conflict, ExplainFail};
use crate::listing::{Listing, is_listed};
use crate::trial::{Finding, trial};
use certified_answers::NoAnswer;
use exact_num::Frac;
use row_core::{Multipliers, Plan, RowName};
use row_problem::Problem;
use simplex_core::{Stop, TrialStop};
use std::alloc::{AllocError, Global};

/// What is known after some trials.
#[derive(Drop)]
pub(crate) struct Search {
    /// The multipliers of the last refutation. The list is the inequalities with one other than 0.
    pub multipliers: Multipliers,
    /// The inequalities that were tried and are needed, in order.
    pub names: Vec<RowName>,
    /// For each of them the plan of the others on the list.
    pub plans: Vec<Plan>,
    /// The number of the last trial.
    pub trials: u64,
}

impl Search {
    /// Tries the list without this inequality, where it is still on it.
    pub fn leave_out(
        &mut self,
        alloc: Global,
        problem: &Problem<'_>,
        name: RowName,
        pivots: u64,
    ) -> Result<(), ExplainFail>
        requires problem { IsPosedProblem problem.now }
        requires counted { self.old.trials + 1 < 2 ^ 64 }
        requires even { length self.old.names.items ≡ length self.old.plans.items }
        ensures counted { OnOk result (self.new.trials ≤ self.old.trials + 1) }
        ensures even { OnOk result (length self.new.names.items ≡ length self.new.plans.items) }
        ensures walks { OnOk result ((left : List RowName) → walk_from problem.now.rows.now problem.now.defs.now problem.now.vars.now pivots self.old (name ∷ left) ≡ walk_from problem.now.rows.now problem.now.defs.now problem.now.vars.now pivots self.new left) }
        ensures stopped { IfErr result (λ fail. (left : List RowName) → Stops (walk_from problem.now.rows.now problem.now.defs.now problem.now.vars.now pivots self.old (name ∷ left)) fail) }
        ensures searched { OnOk result ((left : List RowName) → SearchIs problem.now.rows.now problem.now.vars.now self.old (name ∷ left) → SearchIs problem.now.rows.now problem.now.vars.now self.new left) }
    {
        if !is_listed(&self.multipliers, name) {
            return Ok(());
        }
        self.trials += 1;
        let listing = Listing::Others(&self.multipliers, name);
        match trial(alloc, problem, &listing, pivots) {
            Ok(finding) => {
                self.learn(name, finding)?;
                Ok(())
            }
            Err(stop) => Err(trial_fail(stop, self.trials, pivots)),
        }
    }

    /// What is known after a trial of the list without this inequality: with a plan it is needed, and with a refutation there is a new
    /// list.
    pub fn learn(&mut self, name: RowName, finding: Finding) -> Result<(), AllocError>
        requires even { length self.old.names.items ≡ length self.old.plans.items }
        ensures counted { OnOk result (self.new.trials ≡ self.old.trials) }
        ensures even { OnOk result (length self.new.names.items ≡ length self.new.plans.items) }
        ensures multipliers { OnOk result (self.new.multipliers ≡ list_after finding self.old.multipliers) }
        ensures needed { OnOk result (all_needed self.new ≡ needed_after name finding (all_needed self.old)) }
    {
        match finding {
            Finding::Plan(plan) => {
                self.names.push(name)?;
                self.plans.push(plan)?;
            }
            Finding::Refutation(multipliers) => self.multipliers = multipliers,
        }
        Ok(())
    }

    /// The inequalities that are needed, each with its multiplier and its plan.
    pub fn conflict(self, alloc: Global) -> Result<Conflict, AllocError>
        ensures members { IfOk result (λ conflict. map valued conflict.members.items ≡ map (member_named self.multipliers) self.names.items) }
        ensures plans { IfOk result (λ conflict. conflict.plans.items ≡ self.plans.items) }
    {
        let members = members_of(alloc, &self.names, &self.multipliers)?;
        Ok(Conflict {
            members,
            plans: self.plans,
        })
    }
}

/// Each name with its multiplier.
fn members_of(
    alloc: Global,
    names: &[RowName],
    multipliers: &Multipliers,
) -> Result<Vec<(RowName, Frac)>, AllocError>
    ensures { IfOk result (λ members. map valued members.items ≡ map (member_named multipliers.now) names.now) }
{
    let mut members = Vec::with_capacity(alloc, names.len())?;
    for name in names {
        members.push((*name, multipliers.value(*name)))?;
    }
    Ok(members)
}

/// Why the trial of this number stopped.
pub(crate) fn trial_fail(stop: NoAnswer, trial: u64, pivots: u64) -> ExplainFail
    requires { stop ≢ Nothing }
    ensures { IsTrialFail trial pivots stop result }
{
    match stop {
        NoAnswer::Nothing => unreachable!(),
        NoAnswer::Budget => ExplainFail::Stopped(Stop::Trial(trial, TrialStop::Budget(pivots))),
        NoAnswer::Width(place) => {
            ExplainFail::Stopped(Stop::Trial(trial, TrialStop::Width(place)))
        }
        NoAnswer::Memory => ExplainFail::Memory,
    }
}
