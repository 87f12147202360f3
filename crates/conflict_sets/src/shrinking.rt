//! A long list made shorter before its inequalities are tried one by one.

ghost use Rattle.std.specs.Prelude.{OnOk};
ghost use Rattle.row_problem.specs.ProgramsOf.{IsPosedProblem};
ghost use Rattle.row_problem.specs.Prelude.{IsRefutation};

use crate::guessing::refuted_by_guess;
use crate::listing::{Listing, listed_names};
use crate::trial::Finding;
use call_stages::Watcher;
use row_core::{Multipliers, RowName};
use row_problem::Problem;
use std::alloc::{AllocError, Global};

/// How often the parts are halved at most.
const ROUNDS: usize = 6;

/// The least number of inequalities that are left out at once.
const LEAST: usize = 4;

/// The list, and how many trials were made.
#[derive(Drop)]
pub(crate) struct Shrinking {
    /// The multipliers of the last refutation. The list is the inequalities with one other than 0.
    pub multipliers: Multipliers,
    /// The number of the last trial.
    pub trials: u64,
}

impl Shrinking {
    /// Leaves out parts of the list, a half first and then smaller ones, where guesses show that the rest has no plan.
    pub fn shrink(
        &mut self,
        alloc: Global,
        problem: &Problem<'_>,
        pivots: u64,
        watcher: &mut dyn Watcher,
    ) -> Result<(), AllocError>
        requires problem { IsPosedProblem problem.now }
        requires refutation { IsRefutation problem.now.rows.now problem.now.vars.now self.old.multipliers }
        ensures refutation { OnOk result (IsRefutation problem.now.rows.now problem.now.vars.now self.new.multipliers) }
    {
        let mut size = usize::MAX;
        for _ in 0..ROUNDS {
            let names = listed_names(alloc, problem.rows, &self.multipliers)?;
            size = (size / 2).min(names.len() / 2);
            if size < LEAST {
                return Ok(());
            }
            self.leave_out_parts(alloc, problem, &names, size, pivots, watcher)?;
        }
        Ok(())
    }

    /// Leaves out so many of these inequalities at once, one part after another, where the rest has no plan.
    fn leave_out_parts(
        &mut self,
        alloc: Global,
        problem: &Problem<'_>,
        names: &[RowName],
        size: usize,
        pivots: u64,
        watcher: &mut dyn Watcher,
    ) -> Result<(), AllocError>
        requires problem { IsPosedProblem problem.now }
        requires refutation { IsRefutation problem.now.rows.now problem.now.vars.now self.old.multipliers }
        ensures refutation { OnOk result (IsRefutation problem.now.rows.now problem.now.vars.now self.new.multipliers) }
    {
        let mut first: Option<RowName> = None;
        let mut count: usize = 0;
        for name in names {
            let start = first.unwrap_or(*name);
            count = count.saturating_add(1);
            if count >= size {
                self.leave_out_part(alloc, problem, start, *name, pivots, watcher)?;
                first = None;
                count = 0;
            } else {
                first = Some(start);
            }
        }
        Ok(())
    }

    /// Leaves out the inequalities from one name to another, where guesses show that the others on the list have no plan.
    fn leave_out_part(
        &mut self,
        alloc: Global,
        problem: &Problem<'_>,
        first: RowName,
        last: RowName,
        pivots: u64,
        watcher: &mut dyn Watcher,
    ) -> Result<(), AllocError>
        requires problem { IsPosedProblem problem.now }
        requires refutation { IsRefutation problem.now.rows.now problem.now.vars.now self.old.multipliers }
        ensures refutation { OnOk result (IsRefutation problem.now.rows.now problem.now.vars.now self.new.multipliers) }
    {
        // A count of trials that are made one after another never comes near its end.
        self.trials = self.trials.saturating_add(1);
        let listing = Listing::Outside(&self.multipliers, first, last);
        match refuted_by_guess(alloc, problem, &listing, pivots, watcher)? {
            Some(Finding::Refutation(multipliers)) => self.multipliers = multipliers,
            Some(Finding::Plan(_plan)) => {}
            None => {}
        }
        Ok(())
    }
}
