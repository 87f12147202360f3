//! The linear program that is solved.

use exact_num::Frac;
use row_core::{Row, Var};

/// A linear program: to minimise `z` under these rows, where `cost_own * z` and the sum of each variable times its number of
/// `cost` are `cost_rhs` together. NewCapacity and RateOfActivity aren't negative; Trade may be.
#[derive(Drop)]
pub struct Reduced {
    /// The rows.
    pub rows: Vec<Row>,
    /// The fraction by which the row of an equation was multiplied to give the row at the same place in `rows`.
    pub scales: Vec<Frac>,
    /// The variables, strictly ascending. To be solved, every variable of a row and of `cost` has to be among them.
    pub columns: Vec<Var>,
    /// The numbers of the cost, strictly ascending by variable.
    pub cost: Vec<(Var, i128)>,
    /// The right side of the cost.
    pub cost_rhs: i128,
    /// The number of `z`, above 0.
    pub cost_own: i128,
}
