//! x0's row in a round.

ghost use Rattle.exact_num.specs.Range.{InRange};

/// What a round needs of x0's row: its place, the column that enters, its entries at x0 and in that column, and its right side.
#[derive(Clone, Copy)]
pub(crate) struct Home {
    pub(crate) row: usize,
    pub(crate) column: usize,
    pub(crate) at_x0: i128,
    pub(crate) entry: i128,
    pub(crate) right: i128,
    ghost at_x0_fits: { InRange at_x0 },
    ghost entry_fits: { InRange entry },
    ghost right_fits: { InRange right },
}
