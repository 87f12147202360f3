//! What is found of rows that are made one after another.

ghost use Rattle.std.specs.Prelude.{◌≤◌};

use crate::held_rows::HeldRows;
use row_core::Var;

/// What is found so far.
#[derive(Drop)]
pub(crate) struct Tally {
    /// How many rows and entries there are so far.
    pub(crate) rows: u64,
    pub(crate) entries: usize,
    /// How many rows stand before those of each equation, in the order of equations.
    pub(crate) before: Vec<u64>,
    /// Of each equation, and each kind of variable: whether it has an entry of the kind.
    pub(crate) kinds: Vec<bool>,
    /// The rows that are held.
    pub(crate) held: Vec<HeldRows>,
    /// The variables of the rows that aren't held.
    pub(crate) vars: Vec<Var>,
    pub(crate) ghost few: { entries ≤ 4000000 },
}
