//! Rows of the linear program of an OSeMOSYS model, with the names of its variables and equations.
//!
//! The names and subscripts are those of the OSeMOSYS long code (Howells et al., "OSeMOSYS: The Open
//! Source Energy Modeling System", Energy Policy 39, 2011).
#![tactic(auto)]

ghost use Rattle.std.specs.Prelude.{IsTrue, ◌∷◌};
ghost use Rattle.row_core.specs.Numbers.{variables_of, numbers_of, ascends, none_zero, all_in_range, IsLowest};
ghost use Rattle.row_core.specs.Order.{var_cmp};

mod amounts;
mod combining;
mod copying;
mod cost_limit;
mod dividing;
pub mod equation_numbers;
mod equations;
mod evaluating;
mod index_order;
pub mod kind_numbers;
mod kinds;
mod left_side;
mod merging;
mod names;
mod place;
mod plans;
mod searching;
mod sort_keys;
mod sources;
mod subscripts;
mod terms;
mod writing;

pub use amounts::{minus_one, negative, one, plus, times, zero};
pub use combining::combine;
pub use copying::{copy_row, copy_rows};
pub use cost_limit::{SPAN, SPAN_NAME};
pub use dividing::{divide_all, divisor_of, quotient};
pub use equations::{row_has, row_word};
pub use evaluating::{add_term, eval, eval_against, fraction};
pub use kinds::{is_free, var_has, var_word};
pub use left_side::LeftSide;
pub use merging::{less, number_of};
pub use names::{push_row_name, push_var};
pub use place::{Place, Stopped};
pub use plans::{Multipliers, Plan};
pub use searching::look_up;
pub use sort_keys::sort_key;
pub use sources::RowSource;
pub use terms::{Term, Terms};
pub use writing::write_row;

/// The subscripts of a variable or an equation, each a position in its set, counted from 0.
/// A subscript that the kind or equation doesn't have is 0. Ordered by the fields as they stand here.
#[derive(Clone, Copy, PartialEq, Eq)]
pub struct Index {
    /// The region, `r`.
    pub region: u16,
    /// The other region of a trade, `rr`.
    pub other: u16,
    /// The timeslice, `l`.
    pub slice: u16,
    /// The technology, `t`.
    pub tech: u16,
    /// The fuel, `f`.
    pub fuel: u16,
    /// The emission, `e`.
    pub emission: u16,
    /// The mode of operation, `m`.
    pub mode: u16,
    /// The year, `y`.
    pub year: u16,
}

/// A variable: the number of its kind, from 1 to 48, and its subscripts. Ordered by kind, then by
/// subscripts.
#[derive(Clone, Copy, PartialEq, Eq, PartialOrd, Ord)]
pub struct Var {
    pub kind: u8,
    pub index: Index,
}

/// The name of a row: the number of its equation, from 1 to 64, and its subscripts; 65 is the number
/// of the row that limits the cost, `SPAN`. Ordered by equation, then by subscripts.
#[derive(Clone, Copy, PartialEq, Eq, PartialOrd, Ord)]
pub struct RowName {
    pub eq: u8,
    pub index: Index,
}

/// How the left side of a row stands to its right side.
#[derive(Clone, Copy, Debug, PartialEq, Eq)]
pub enum Sense {
    /// At least the right side, `>=`.
    Least,
    /// The right side, `=`.
    Equal,
    /// At most the right side, `<=`.
    Most,
}

/// A row: the sum of each variable times its number stands in `sense` to `rhs`.
///
/// Every number lies from -(2^127 - 1) to 2^127 - 1, and no number above 1 divides all of them, unless
/// all are 0.
#[derive(Drop)]
pub struct Row {
    pub name: RowName,
    pub sense: Sense,
    /// Strictly ascending by variable, with no 0.
    pub entries: Vec<(Var, i128)>,
    pub rhs: i128,
    pub ghost ascending: { IsTrue (ascends var_cmp (variables_of entries.items)) },
    pub ghost nonzero: { IsTrue (none_zero (numbers_of entries.items)) },
    pub ghost fits: { IsTrue (all_in_range (rhs ∷ numbers_of entries.items)) },
    pub ghost lowest: { IsLowest (rhs ∷ numbers_of entries.items) },
}
