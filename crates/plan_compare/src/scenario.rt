//! What is compared.

use exact_num::Frac;
use model_sets::Sets;
use row_core::Plan;

/// A plan over sets, with what it costs and a bound: no plan of its data costs less.
#[derive(Clone, Copy)]
pub struct Scenario<'a> {
    pub sets: &'a Sets,
    pub plan: &'a Plan,
    pub cost: Frac,
    pub bound: Frac,
}
