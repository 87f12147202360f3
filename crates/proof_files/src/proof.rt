//! What the file of a proof holds.

use row_core::{Multipliers, Plan};

/// What proves an answer.
#[derive(Drop)]
pub enum Proof {
    /// The plan has a value for each variable, and the multipliers prove a bound on what every plan costs.
    Optimum {
        plan: Plan,
        multipliers: Multipliers,
    },
    /// The multipliers show that there is no plan.
    Refutation {
        multipliers: Multipliers,
    },
    /// The plan has a value for each variable, and the cost falls along the direction. A variable without a value of the
    /// direction has the value 0.
    Descent {
        plan: Plan,
        direction: Plan,
    },
}
