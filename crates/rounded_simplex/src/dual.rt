//! The dual phase: the reduced costs stay at least 0, and the values are made so.

ghost use Rattle.std.specs.Prelude.{◌≤◌, IfOk};

use crate::choices::Pivot;
use crate::ending::{Counts, End, PhaseEnd, Turn, most_turns};
use crate::state::State;
use call_stages::{Stage, Watcher};
use sparse_factors::{at, put};
use std::alloc::AllocError;

/// So many choices in a row may be made again because of a wrong weight.
const MOST_CHOICES: u64 = 20;
/// A carried weight below this part of the true one is wrong.
const WRONG_PART: f64 = 0.25;
/// A weight is at least this and at most that.
const LEAST_WEIGHT: f64 = 1e-4;

const GREATEST_WEIGHT: f64 = 1e30;
/// By how much a pivot may differ between its row and its column.
pub(crate) const DRIFT: f64 = 1e-7;

impl State {
    /// The dual phase, with at most `limit` pivots; by steepest edge, or with weights that only grow.
    pub(crate) fn dual_phase(
        &mut self,
        steepest: bool,
        limit: u64,
        watcher: &mut dyn Watcher,
    ) -> Result<PhaseEnd, AllocError>
        ensures { IfOk result (λ p. p.pivots ≤ limit) }
    {
        let mut counts = Counts::new();
        let mut choices = MOST_CHOICES;
        self.tell_values(watcher);
        for _ in 0..most_turns(limit) {
            if counts.since >= self.updates {
                if !self.renew()? {
                    break;
                }
                self.shift_costs();
                counts.since = 0;
                self.tell_values(watcher);
            }
            if counts.pivots >= limit {
                break;
            }
            let turn = self.dual_turn(steepest, choices > 0, counts.since > 0)?;
            choices = match turn {
                Turn::Reweighed => choices.saturating_sub(1),
                _ => MOST_CHOICES,
            };
            if let Some(end) = counts.after(turn, self.updates) {
                return Ok(PhaseEnd {
                    end,
                    pivots: counts.pivots,
                });
            }
        }
        Ok(PhaseEnd {
            end: End::Stopped,
            pivots: counts.pivots,
        })
    }

    /// Tells how far the values are from being at least 0.
    fn tell_values(&self, watcher: &mut dyn Watcher) {
        watcher.see(Stage::Values {
            pivots: self.made,
            below: self.values_below(),
        });
    }

    /// One turn: a pivot, or why there is none.
    fn dual_turn(
        &mut self,
        steepest: bool,
        may_reweigh: bool,
        aged: bool,
    ) -> Result<Turn, AllocError> {
        let Some(slot) = self.leaving_slot() else {
            return Ok(Turn::Ended(End::Optimal));
        };
        self.make_inverse_row(slot)?;
        if steepest && self.correct_weight(slot) && may_reweigh {
            return Ok(Turn::Reweighed);
        }
        self.make_row()?;
        let Some(entering) = self.entering_in_row()? else {
            return Ok(Turn::Ended(End::Blocked));
        };
        self.make_column(entering.at)?;
        let pivot = self.column.value(slot);
        if aged && (pivot + entering.size).abs() > DRIFT * (1.0 + pivot.abs()) {
            return Ok(Turn::Drifted);
        }
        if steepest {
            self.make_steepest()?;
        }
        self.step_reduced_costs(slot, entering);
        self.step_values(slot, pivot, steepest);
        self.exchange(slot, entering.at)?;
        Ok(Turn::Pivoted)
    }

    /// Puts the true weight of a slot in the place of the carried one, and answers whether that was far too small.
    fn correct_weight(&mut self, slot: usize) -> bool {
        let mut weight = 0.0;
        for index in self.inverse_row.listed() {
            let value = self.inverse_row.value(*index);
            weight += value * value;
        }
        let carried = at(&self.weights, slot, 1.0);
        put(&mut self.weights, slot, weight);
        self.blocks.touch(slot);
        carried < WRONG_PART * weight
    }

    /// Takes the dual step. Where a reduced cost would fall below 0, its cost is raised.
    fn step_reduced_costs(&mut self, slot: usize, entering: Pivot) {
        let reduced = at(&self.reduced_costs, entering.at, 0.0);
        let step = if reduced < 0.0 {
            0.0
        } else {
            reduced / entering.size
        };
        for place in 0..self.row.listed().len() {
            let variable = at(self.row.listed(), place, usize::MAX);
            let reduced = at(&self.reduced_costs, variable, 0.0) + step * self.row.value(variable);
            put(&mut self.reduced_costs, variable, reduced);
            if reduced < 0.0 && variable != entering.at {
                self.shift_cost(variable);
            }
        }
        put(&mut self.reduced_costs, entering.at, 0.0);
        if let Some(leaving) = self.basis.variable(slot) {
            put(&mut self.reduced_costs, leaving, step);
        }
    }

    /// Takes the step in the values, and carries the weights.
    fn step_values(&mut self, slot: usize, pivot: f64, steepest: bool) {
        let step = at(&self.values, slot, 0.0) / pivot;
        let weight = at(&self.weights, slot, 1.0);
        for index in self.column.listed() {
            if *index != slot {
                let entry = self.column.value(*index);
                let value = at(&self.values, *index, 0.0) - step * entry;
                put(&mut self.values, *index, value);
                self.blocks.touch(*index);
                let part = entry / pivot;
                let carried = at(&self.weights, *index, 1.0);
                let next = if steepest {
                    steepest_weight(carried, part, self.steepest.value(*index), weight)
                } else {
                    growing_weight(carried, part * part * weight)
                };
                put(&mut self.weights, *index, next);
            }
        }
        put(&mut self.values, slot, step);
        let least = if steepest { LEAST_WEIGHT } else { 1.0 };
        put(
            &mut self.weights,
            slot,
            greater(weight / (pivot * pivot), least),
        );
    }
}

/// The next weight by dual steepest edge. One that isn't a number becomes the greatest.
fn steepest_weight(carried: f64, part: f64, inner: f64, weight: f64) -> f64 {
    let exact = carried - 2.0 * part * inner + part * part * weight;
    capped(greater(exact, LEAST_WEIGHT + part * part))
}

/// The greater of two weights.
fn growing_weight(carried: f64, other: f64) -> f64 {
    capped(greater(carried, other))
}

/// The greater of two numbers; the first where one isn't a number.
fn greater(first: f64, second: f64) -> f64 {
    if first < second { second } else { first }
}

/// A weight that isn't above the greatest.
fn capped(weight: f64) -> f64 {
    if weight < GREATEST_WEIGHT {
        weight
    } else {
        GREATEST_WEIGHT
    }
}
