//! Which attempt gave what is told.

/// What guesses begin from.
#[derive(Clone, Copy, PartialEq, Eq)]
pub enum Begun {
    /// Nothing: no values are given.
    FromNothing,
    /// The answer of another solver that has no values: it says that there is no plan, or no least cost.
    WithoutStart,
    /// So many values of variables; so many other values of the same file were passed over.
    FromValues { taken: u64, passed: u64 },
}

/// The attempt that gave what is told: the exact method, the first; the method on a grid, the second; or guesses, the third.
#[derive(Clone, Copy, PartialEq, Eq)]
pub enum FoundBy {
    ByMethod,
    OnGrid,
    ByGuesses(Begun),
}
