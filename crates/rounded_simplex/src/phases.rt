//! The dual phase, the primal phase, and both again where the first pair leaves a value below 0.

ghost use Rattle.std.specs.Prelude.{◌≤◌, IfOk};

use crate::ending::{End, PhaseEnd};
use crate::scaling::{exponent, power_of_two};
use crate::state::State;
use call_stages::Watcher;
use sparse_factors::{at, put};
use std::alloc::AllocError;

/// So many times the phases may be begun again.
const MOST_ROUNDS: usize = 20;
/// The part of itself by which a cost is raised at most one and a half times.
const RAISE: f64 = 1e-5;
/// The part of a typical cost that is added to a cost before.
const TYPICAL_PART: f64 = 0.01;

/// How all phases together end.
#[derive(Clone, Copy)]
pub(crate) enum Finish {
    Optimal,
    NoPlan,
    GivenUp,
}

/// The end of all phases, and their pivots.
#[derive(Clone, Copy)]
pub(crate) struct Finished {
    pub(crate) finish: Finish,
    pub(crate) pivots: u64,
}

impl State {
    /// All phases, with at most `limit` pivots.
    pub(crate) fn run(
        &mut self,
        from_slacks: bool,
        limit: u64,
        watcher: &mut dyn Watcher,
    ) -> Result<Finished, AllocError>
        ensures { IfOk result (λ f. f.pivots ≤ limit) }
    {
        if !self.begin(from_slacks)? {
            return Ok(Finished {
                finish: Finish::GivenUp,
                pivots: 0,
            });
        }
        self.shift_costs();
        let mut dual = self.dual_phase(true, limit, watcher)?;
        let mut pivots = dual.pivots;
        for _ in 0..MOST_ROUNDS {
            let finish = match dual.end {
                End::Optimal => None,
                End::Blocked => Some(Finish::NoPlan),
                End::Stopped => Some(Finish::GivenUp),
            };
            if let Some(finish) = finish {
                return Ok(Finished { finish, pivots });
            }
            let primal = self.primal_from_here(limit - pivots, watcher)?;
            pivots += primal.pivots;
            match primal.end {
                End::Optimal => {}
                _ => break,
            }
            if self.leaving_slot().is_none() {
                return Ok(Finished {
                    finish: Finish::Optimal,
                    pivots,
                });
            }
            self.shift_costs();
            self.reset_weights();
            dual = self.dual_phase(false, limit - pivots, watcher)?;
            pivots += dual.pivots;
        }
        Ok(Finished {
            finish: Finish::GivenUp,
            pivots,
        })
    }

    /// Takes the costs of the dual phase, and makes the numbers of the first basis. The costs are raised where it is that of all slacks, at
    /// which few steps would differ otherwise; at another, columns enter at once. False where the numbers are useless.
    fn begin(&mut self, from_slacks: bool) -> Result<bool, AllocError> {
        if from_slacks {
            self.raise_costs();
            return self.renew();
        }
        self.take_costs();
        let is_well = self.renew()?;
        if is_well && self.enter_at_once() {
            self.renew()
        } else {
            Ok(is_well)
        }
    }

    /// The primal phase with its own costs.
    fn primal_from_here(
        &mut self,
        limit: u64,
        watcher: &mut dyn Watcher,
    ) -> Result<PhaseEnd, AllocError>
        ensures { IfOk result (λ p. p.pivots ≤ limit) }
    {
        for variable in 0..self.variables() {
            let cost = at(&self.program.lowered_costs, variable, 0.0);
            put(&mut self.costs, variable, cost);
        }
        if !self.renew()? {
            return Ok(PhaseEnd {
                end: End::Stopped,
                pivots: 0,
            });
        }
        self.primal_phase(limit, watcher)
    }

    /// Takes the costs of the dual phase as they are.
    fn take_costs(&mut self) {
        for column in 0..self.program.columns {
            let cost = at(&self.program.raised_costs, column, 0.0);
            put(&mut self.costs, column, cost);
        }
    }

    /// Takes the costs of the dual phase, each raised by a small part of itself, so that few of them are alike.
    fn raise_costs(&mut self) {
        let extra = TYPICAL_PART * self.typical_cost();
        let mut random = Random { state: 12345 };
        for column in 0..self.program.columns {
            let cost = at(&self.program.raised_costs, column, 0.0);
            let base = if cost < 0.0 { 0.0 } else { cost };
            let raised = base + RAISE * (cost.abs() + extra) * (0.5 + random.next());
            put(&mut self.costs, column, raised);
        }
    }

    /// The power of 2 whose exponent is the mean of those of the positive costs.
    fn typical_cost(&self) -> f64 {
        let mut sum = 0.0;
        let mut count = 0.0;
        for cost in self.program.raised_costs.iter() {
            if *cost > 0.0 {
                sum += exponent(*cost);
                count += 1.0;
            }
        }
        if count > 0.0 {
            power_of_two(sum / count)
        } else {
            1.0
        }
    }
}

/// Numbers that look like chance, the same at each run, by a linear congruence.
#[derive(Drop)]
struct Random {
    state: u32,
}

impl Random {
    /// The next one, at least 0 and below 1.
    fn next(&mut self) -> f64 {
        self.state = self.state.wrapping_mul(1664525).wrapping_add(1013904223);
        f64::from(self.state >> 8) / 16777216.0
    }
}
