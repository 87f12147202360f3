//! The grid's tableau.

ghost use Rattle.std.specs.Prelude.{[], ◌≡◌, pos};
ghost use Rattle.exact_num.specs.Range.{InRange};

use std::alloc::Global;

/// An entry of a line.
#[derive(Clone, Copy)]
pub(crate) struct Entry {
    pub(crate) column: usize,
    pub(crate) number: i128,
    ghost fits: { InRange number },
}

/// A number that stands in a column.
#[derive(Clone, Copy)]
pub(crate) struct Number {
    pub(crate) value: i128,
    ghost fits: { InRange value },
}

/// A line: its entries other than 0, in ascending order of columns, and its right side. A billion stands for 1.
#[derive(Drop)]
pub(crate) struct Line {
    pub(crate) entries: Vec<Entry>,
    pub(crate) right: i128,
    ghost right_fits: { InRange right },
}

/// The next entry of two lines that are merged, and what is left of them after it.
#[derive(Clone, Copy)]
pub(crate) struct Merging {
    pub(crate) column: usize,
    pub(crate) number: i128,
    pub(crate) left: usize,
    pub(crate) right: usize,
    ghost fits: { InRange number },
}

/// A row with its basic column, and the number that it was divided by, negative where it was multiplied by -1.
#[derive(Drop)]
pub(crate) struct GridRow {
    pub(crate) line: Line,
    pub(crate) basic: usize,
    pub(crate) scale: i128,
    ghost scale_fits: { InRange scale },
}

/// The phases of the method.
#[derive(Clone, Copy)]
pub(crate) enum Phase {
    /// x0 is still to be taken in.
    Start,
    /// x0 is basic.
    One,
    /// There is no x0.
    Two,
}

/// What is due.
#[derive(Clone, Copy)]
pub(crate) enum Due {
    /// A pivot in this row and this column.
    Pivot(usize, usize),
    /// In phase 2 no column can enter.
    Optimal,
    /// No column can enter while x0 is there, or no row can leave.
    Stuck,
}

/// A state between two pivots.
#[derive(Drop)]
pub(crate) struct State {
    pub(crate) rows: Vec<GridRow>,
    /// The line of z.
    pub(crate) cost: Line,
    /// The line of w, which is empty once x0 isn't there.
    pub(crate) artificial: Line,
    pub(crate) phase: Phase,
    /// The slack of the first row; the others follow.
    pub(crate) slack: usize,
    /// How many columns count: x0 is the last of them while it is there.
    pub(crate) columns: usize,
    pub(crate) pivots: u64,
    /// How many degenerate pivots followed one another, over both phases.
    pub(crate) degenerate: u64,
}

/// A line of no entries, with the right side 0.
pub(crate) fn no_line(alloc: Global) -> Line
    ensures entries { result.entries.items ≡ [] }
    ensures right { result.right ≡ pos 0 }
{
    Line {
        entries: Vec::new(alloc),
        right: 0,
    }
}
