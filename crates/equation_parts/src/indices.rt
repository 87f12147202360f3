//! Indices and variables by the subscripts that they have.

use row_core::Index;

/// The index of subscripts that are all 0.
pub const ORIGIN: Index = Index {
    region: 0,
    other: 0,
    slice: 0,
    tech: 0,
    fuel: 0,
    emission: 0,
    mode: 0,
    year: 0,
};

/// The pattern that names subscripts of an index, as in `let index!(region r, year y) = name.index;`.
#[macro_export]
macro_rules! index {
    ($($field:ident $letter:ident),+) => { Index { $($field: $letter,)+ .. } };
}

/// The variable of a kind at an index that has these subscripts, as `variable!(NEW_CAPACITY; region r, tech t, year y)`; the
/// others are 0.
#[macro_export]
macro_rules! variable {
    ($kind:ident; $($field:ident $letter:ident),+) => {
        Var { kind: $kind, index: Index { $($field: $letter,)+ ..$crate::ORIGIN } }
    };
}
