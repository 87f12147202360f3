//! The primal phase: the values stay at least 0, and the reduced costs are made so.

ghost use Rattle.std.specs.Prelude.{◌≤◌, IfOk};

use crate::choices::Pivot;
use crate::dual::DRIFT;
use crate::ending::{Counts, End, PhaseEnd, Turn, most_turns};
use crate::state::{State, constant};
use call_stages::{Stage, Watcher};
use sparse_factors::{at, put};
use std::alloc::AllocError;

impl State {
    /// The primal phase, with at most `limit` pivots.
    pub(crate) fn primal_phase(
        &mut self,
        limit: u64,
        watcher: &mut dyn Watcher,
    ) -> Result<PhaseEnd, AllocError>
        ensures { IfOk result (λ p. p.pivots ≤ limit) }
    {
        let mut counts = Counts::new();
        let mut weights = constant(self.alloc, 1.0, self.variables())?;
        self.tell_costs(watcher);
        for _ in 0..most_turns(limit) {
            if counts.since >= self.updates {
                if !self.renew()? {
                    break;
                }
                counts.since = 0;
                self.tell_costs(watcher);
            }
            if counts.pivots >= limit {
                break;
            }
            let turn = self.primal_turn(&mut weights, counts.since > 0)?;
            if let Some(end) = counts.after(turn, self.updates) {
                return Ok(PhaseEnd {
                    end,
                    pivots: counts.pivots,
                });
            }
        }
        Ok(PhaseEnd {
            end: End::Stopped,
            pivots: counts.pivots,
        })
    }

    /// Tells how far the reduced costs are from being at least 0.
    fn tell_costs(&self, watcher: &mut dyn Watcher) {
        watcher.see(Stage::Costs {
            pivots: self.made,
            below: self.costs_below(),
        });
    }

    /// One turn: a pivot, or why there is none.
    fn primal_turn(&mut self, weights: &mut Vec<f64>, aged: bool) -> Result<Turn, AllocError> {
        let Some(entering) = self.entering_variable(weights) else {
            return Ok(Turn::Ended(End::Optimal));
        };
        self.make_column(entering)?;
        let Some(leaving) = self.leaving_in_column() else {
            return Ok(Turn::Ended(End::Blocked));
        };
        self.make_inverse_row(leaving.at)?;
        self.make_row()?;
        let difference = leaving.size - self.row.value(entering);
        if aged && difference.abs() > DRIFT * (1.0 + leaving.size.abs()) {
            return Ok(Turn::Drifted);
        }
        self.step_primal_costs(weights, entering, leaving)?;
        self.step_primal_values(leaving);
        self.exchange(leaving.at, entering)?;
        Ok(Turn::Pivoted)
    }

    /// Takes the step in the reduced costs, and carries the weights.
    fn step_primal_costs(
        &mut self,
        weights: &mut Vec<f64>,
        entering: usize,
        leaving: Pivot,
    ) -> Result<(), AllocError> {
        let step = at(&self.reduced_costs, entering, 0.0) / leaving.size;
        let weight = at(weights, entering, 1.0);
        for variable in self.row.listed() {
            if *variable != entering {
                let entry = self.row.value(*variable);
                let reduced = at(&self.reduced_costs, *variable, 0.0) - step * entry;
                put(&mut self.reduced_costs, *variable, reduced);
                if reduced < -self.tolerance {
                    self.low_variables.note(*variable)?;
                }
                let part = entry / leaving.size;
                let next = part * part * weight;
                if at(weights, *variable, 1.0) < next {
                    put(weights, *variable, next);
                }
            }
        }
        put(&mut self.reduced_costs, entering, 0.0);
        if let Some(variable) = self.basis.variable(leaving.at) {
            let next = weight / (leaving.size * leaving.size);
            put(&mut self.reduced_costs, variable, -step);
            put(weights, variable, if next < 1.0 { 1.0 } else { next });
            if -step < -self.tolerance {
                self.low_variables.note(variable)?;
            }
        }
        Ok(())
    }

    /// Takes the step in the values.
    fn step_primal_values(&mut self, leaving: Pivot) {
        let value = at(&self.values, leaving.at, 0.0);
        let step = if value < 0.0 {
            0.0
        } else {
            value / leaving.size
        };
        for slot in self.column.listed() {
            if *slot != leaving.at {
                let next = at(&self.values, *slot, 0.0) - step * self.column.value(*slot);
                put(&mut self.values, *slot, next);
            }
        }
        put(&mut self.values, leaving.at, step);
    }
}
