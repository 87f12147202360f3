//! The factors of a basis.

use crate::arrays::filled;
use crate::lists::Lists;
use std::alloc::{AllocError, Global};

/// A late entry of U in a slot, and the next one of the same slot.
#[derive(Clone, Copy)]
pub(crate) struct Link {
    pub(crate) next: Option<usize>,
    pub(crate) slot: usize,
    pub(crate) value: f64,
}

/// L and U with the updates since they were made, all by slots.
#[derive(Drop)]
pub struct Factors {
    /// The number of slots when they were made.
    pub(crate) rows: usize,
    /// How many slots there are, with those of the updates.
    pub(crate) slots: usize,
    /// The slots before it held slacks.
    pub(crate) first: usize,
    pub(crate) diagonal: Vec<f64>,
    /// The columns of L, without its diagonal of ones.
    pub(crate) lower: Lists,
    pub(crate) lower_rows: Lists,
    /// The columns of U, without its diagonal.
    pub(crate) upper: Lists,
    /// The rows of U as it was made; what the updates added stands in `links`.
    pub(crate) upper_rows: Lists,
    pub(crate) heads: Vec<Option<usize>>,
    pub(crate) links: Vec<Link>,
    /// The slots that updates replaced.
    pub(crate) replaced: Vec<usize>,
    /// By update, the factors by which other slots are taken away from the replaced one.
    pub(crate) eliminations: Lists,
    pub(crate) retired: Vec<bool>,
}

impl Factors {
    /// Factors without numbers, of so many rows, of which the first belong to slacks, with room for so many slots.
    pub(crate) fn none(
        alloc: Global,
        rows: usize,
        first: usize,
        room: usize,
    ) -> Result<Factors, AllocError> {
        let heads = filled(alloc, None, room)?;
        let retired = filled(alloc, false, room)?;
        let eliminations = Lists::none(alloc)?;
        Ok(Factors {
            rows,
            slots: rows,
            first,
            diagonal: Vec::new(alloc),
            lower: Lists::unmade(alloc),
            lower_rows: Lists::unmade(alloc),
            upper: Lists::unmade(alloc),
            upper_rows: Lists::unmade(alloc),
            heads,
            links: Vec::new(alloc),
            replaced: Vec::new(alloc),
            eliminations,
            retired,
        })
    }

    /// How many slots there are, with those of the updates.
    pub fn slots(&self) -> usize {
        self.slots
    }
}
