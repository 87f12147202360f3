//! What a line or a record tells.

/// What one line or record of a file tells.
#[derive(Clone, Copy)]
pub enum Found {
    /// A value of the variable at this place, counted from 0.
    Value(usize, f64),
    /// It is of no variable of the model, and is passed over.
    Passed,
    /// It is no record.
    Blank,
    /// The solver has no plan.
    Nothing,
    /// The values end here.
    End,
    /// It breaks the form of the file.
    Wrong,
}
