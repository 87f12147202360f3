//! The row that says that the cost is at most a limit. It is a row of no named equation.

use crate::{Index, RowName};

/// The number of the row that limits the cost. It is no number of a named equation.
pub const SPAN: u8 = 65;

/// The name of that row, which has no subscripts.
pub const SPAN_NAME: RowName = RowName {
    eq: SPAN,
    index: Index {
        region: 0,
        other: 0,
        slice: 0,
        tech: 0,
        fuel: 0,
        emission: 0,
        mode: 0,
        year: 0,
    },
};
