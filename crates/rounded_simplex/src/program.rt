//! What is asked, and what is answered.

/// A linear program in rounded numbers: minimise c x where A x <= b and x >= 0.
///
/// The lists are taken as they are: an entry whose row isn't there is left out, a missing start or cost is 0, and a
/// number that isn't finite makes the answer `GivenUp`.
#[derive(Drop)]
pub struct LinearProgram {
    /// For each column, where its entries begin in `rows` and `values`; then where those of the last column end.
    pub starts: Vec<usize>,
    /// The row of each entry, by columns. A row stands at most once in a column.
    pub rows: Vec<usize>,
    /// The number of each entry, in the order of `rows`.
    pub values: Vec<f64>,
    /// b, by row. Its length is the number of rows.
    pub right_sides: Vec<f64>,
    /// Costs by column for the dual phase, which ends at a plan that meets the rows. Their count is the number of columns.
    pub raised_costs: Vec<f64>,
    /// Costs by column for the primal phase, which begins at that plan and ends at the answer.
    pub lowered_costs: Vec<f64>,
}

/// A plan and its multipliers, both rounded. Nothing is sure of them but how many they are.
#[derive(Drop)]
pub struct Guess {
    /// x, by column.
    pub values: Vec<f64>,
    /// By row: what the optimum falls by for each unit that the row's right side rises; at least 0 but for the tolerance.
    pub multipliers: Vec<f64>,
    /// How many pivots were made.
    pub pivots: u64,
    /// The basic variables at the end, ascending: a column by its number, and then the slack of each row. Another guess can start there.
    pub basis: Vec<usize>,
}

/// What the method ends with.
#[derive(Drop)]
pub enum Answer {
    /// A basis that is optimal within the tolerance.
    Solved(Guess),
    /// A row that no plan seems to meet. It may be wrong.
    NoPlan,
    /// The pivots ran out, the optimum seems unbounded, or the numbers became useless.
    GivenUp,
}
