//! What presolve did, so that it can be undone.

use exact_num::Frac;

/// A step of presolve.
#[derive(Drop)]
pub enum Step {
    /// The row has the right side 0 and positive entries alone, so these columns are 0.
    Zero {
        row: usize,
        columns: Vec<usize>,
    },
    /// The rows of one entry bound the column from below and from above by the same value.
    Equal {
        column: usize,
        value: Frac,
        below: usize,
        above: usize,
    },
    /// The column costs nothing and has negative entries alone, so it can be made as large as these rows want.
    Helper {
        column: usize,
        rows: Vec<usize>,
    },
}
