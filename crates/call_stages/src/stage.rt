//! Where a call is.

/// Where a call is.
#[derive(Clone, Copy)]
pub enum Stage {
    /// It reads a file.
    Reading,
    /// It makes the rows of a model.
    Rows,
    /// It removes the variables that rows define.
    Elimination,
    /// A simplex in floating point made so many pivots, and values are below 0 by so much together, each in its scale.
    Values { pivots: u64, below: f64 },
    /// The same, where all values are at least 0 and reduced costs are below 0 by so much together.
    Costs { pivots: u64, below: f64 },
    /// The exact simplex begins.
    Exact,
    /// Numbers are rounded, and carried back to all rows.
    Rounding,
    /// What was found is checked.
    Checks,
    /// It writes what it answers: from here on nothing else may be shown.
    Writing,
}
