//! What is shown of a plan, and how its numbers are printed.

/// A table of a plan.
#[derive(Clone, Copy, PartialEq, Eq)]
pub enum Table {
    /// The values of the kind of variables of this number, from 1 to 48.
    Values(u8),
    /// The values of each kind, one table after another, each after a line with its name.
    AllValues,
}

/// How the values of a table are printed.
#[derive(Clone, Copy, PartialEq, Eq)]
pub enum NumberForm {
    /// Rounded to six decimal places, halves away from zero.
    Decimals,
    /// As fractions in lowest terms.
    Fractions,
}
