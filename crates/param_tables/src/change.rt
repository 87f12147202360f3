//! Changes of values.

/// Which members of a subscript's set a change names.
#[derive(Clone, Copy, PartialEq, Eq, Debug)]
pub enum Members {
    /// Every member.
    Every,
    /// The member at this position, which counts from 0.
    One(u16),
    /// The years from the first to the last, both included, by their numbers. Of YEAR alone.
    Years { first: u16, last: u16 },
}

/// What a change does with a value.
#[derive(Clone, Copy, PartialEq, Eq, Debug)]
pub enum ChangeKind {
    /// The amount takes the value's place.
    Put,
    /// The value is multiplied by the amount, to the nearest billionth, halves away from 0.
    Multiply,
    /// The amount is added to the value.
    Add,
}

/// A change of the values of a used parameter.
#[derive(Drop)]
pub struct Change {
    /// The number of the parameter.
    pub param: u8,
    /// For each subscript of the parameter, in their order, which members of its set are named.
    pub members: Vec<Members>,
    /// What is done with each value at the indices of named members.
    pub kind: ChangeKind,
    /// With which number, in billionths, from -10^24 to 10^24.
    pub amount: i128,
}
