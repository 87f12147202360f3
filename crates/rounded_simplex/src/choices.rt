//! Which variables leave and enter.

use crate::state::State;
use sparse_factors::at;

/// A pivot is at least this.
pub(crate) const LEAST_PIVOT: f64 = 5.9604644775390625e-8;

/// Where a pivot stands, and how large it is.
#[derive(Clone, Copy)]
pub(crate) struct Pivot {
    pub(crate) at: usize,
    pub(crate) size: f64,
}

/// A number, or 0 where it is below 0.
#[inline]
pub(crate) fn at_least_zero(number: f64) -> f64 {
    if number < 0.0 { 0.0 } else { number }
}

/// A place that may be chosen, and what speaks for it.
#[derive(Clone, Copy)]
pub(crate) struct Choice {
    pub(crate) place: usize,
    pub(crate) gain: f64,
}

/// The better of the best so far and another: the greater gain, of equal ones the lesser place.
#[inline]
pub(crate) fn better(best: Option<Choice>, other: Choice) -> Option<Choice> {
    if let Some(before) = best
        && (other.gain < before.gain || (other.gain == before.gain && before.place < other.place))
    {
        best
    } else {
        Some(other)
    }
}

/// Where a choice is.
pub(crate) fn place_of(choice: Option<Choice>) -> Option<usize> {
    match choice {
        Some(found) => Some(found.place),
        None => None,
    }
}

impl State {
    /// The slot to leave in the dual phase: the greatest square of a negative value beside its weight.
    pub(crate) fn leaving_slot(&mut self) -> Option<usize> {
        self.blocks
            .best(&self.values, &self.weights, -self.tolerance)
    }

    /// The variable to enter in the primal phase: the greatest square of a negative reduced cost beside its weight.
    pub(crate) fn entering_variable(&mut self, weights: &[f64]) -> Option<usize> {
        self.low_variables
            .keep_below(&self.reduced_costs, -self.tolerance);
        let mut best = None;
        for variable in self.low_variables.places() {
            if !self.basis.is_basic(*variable) {
                let reduced = at(&self.reduced_costs, *variable, 0.0);
                let choice = Choice {
                    place: *variable,
                    gain: reduced * reduced / at(weights, *variable, 1.0),
                };
                best = better(best, choice);
            }
        }
        place_of(best)
    }

    /// The slot to leave in the primal phase, by Harris's test; of equal pivots that of the least variable.
    pub(crate) fn leaving_in_column(&self) -> Option<Pivot> {
        let most = self.longest_primal_step();
        let mut best = None;
        let mut greatest = 0.0;
        let mut least = usize::MAX;
        for slot in self.column.listed() {
            let size = self.column.value(*slot);
            if size > LEAST_PIVOT && at_least_zero(at(&self.values, *slot, 0.0)) <= most * size {
                let variable = self.basis.variable(*slot).unwrap_or(usize::MAX);
                if size > greatest || (size == greatest && variable < least) {
                    greatest = size;
                    least = variable;
                    best = Some(Pivot { at: *slot, size });
                }
            }
        }
        best
    }

    /// How far the primal step may go.
    fn longest_primal_step(&self) -> f64 {
        let tolerance = self.tolerance * 0.5;
        let mut most = f64::MAX;
        for slot in self.column.listed() {
            let size = self.column.value(*slot);
            if size > LEAST_PIVOT {
                let step = (at_least_zero(at(&self.values, *slot, 0.0)) + tolerance) / size;
                if step < most {
                    most = step;
                }
            }
        }
        most
    }
}
