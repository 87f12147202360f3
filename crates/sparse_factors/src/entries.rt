//! Numbers with their places.

/// Less than this is taken for 0.
const DROP: f64 = 1e-14;

/// A number other than 0 and where it stands in its row or column.
#[derive(Clone, Copy)]
pub struct Entry {
    pub at: usize,
    pub value: f64,
}

/// Whether a number counts.
#[inline]
pub(crate) fn is_large(value: f64) -> bool {
    value > DROP || value < -DROP
}

/// Whether a number counts as 0. What isn't a number is neither large nor small.
#[inline]
pub(crate) fn is_small(value: f64) -> bool {
    value < DROP && value > -DROP
}
