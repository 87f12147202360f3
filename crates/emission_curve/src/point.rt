//! What is found at a limit.

use exact_num::Frac;
use simplex_core::TrialStop;

/// What is found at a limit on the emissions of the model period, in the unit of the cost, and per unit of the emissions. The checker
/// has said yes to all of it.
#[derive(Clone, Copy, PartialEq, Eq)]
pub enum Point {
    /// Some plan at the limit costs `cost`. At every limit, each plan costs at least `cost` and `slope` times the difference of that
    /// limit from this one.
    Solved {
        cost: Frac,
        slope: Frac,
    },
    /// Some plan at the limit costs `cost`. At every limit, each plan costs at least `bound` and `slope` times the difference of that
    /// limit from this one.
    Rounded {
        cost: Frac,
        bound: Frac,
        slope: Frac,
    },
    /// No plan keeps the limit.
    Infeasible,
    /// For every whole number some plan at the limit costs less.
    Unbounded,
    /// The exact method came to none of these.
    Stopped(TrialStop),
}
