//! The update of the factors after a pivot, by Forrest and Tomlin.

use crate::arrays::{at, put};
use crate::entries::Entry;
use crate::factors::{Factors, Link};
use crate::sparse_vector::SparseVector;
use std::alloc::AllocError;

impl Factors {
    /// Puts a column in the place of the one in `slot`, and answers its new slot, the last one.
    ///
    /// `spike` is what `ftran_keeping` made of the column, and `row` what `btran` made of the slot's unit vector.
    pub fn update(
        &mut self,
        slot: usize,
        spike: &SparseVector,
        row: &[Entry],
    ) -> Result<usize, AllocError> {
        let added = self.slots;
        let pivot = self.eliminate_row(slot, spike, row)?;
        for index in spike.listed() {
            let value = spike.value(*index);
            if *index != slot && value != 0.0 {
                self.upper.push(*index, value)?;
                self.link(*index, added, value)?;
            }
        }
        self.upper.close()?;
        put(&mut self.diagonal, added, pivot);
        put(&mut self.retired, slot, true);
        self.slots = added.saturating_add(1);
        Ok(added)
    }

    /// Keeps how the row of U in `slot` is eliminated, and answers what stays in the new column: the pivot.
    fn eliminate_row(
        &mut self,
        slot: usize,
        spike: &SparseVector,
        row: &[Entry],
    ) -> Result<f64, AllocError> {
        let old = at(&self.diagonal, slot, 1.0);
        let mut pivot = spike.value(slot);
        for entry in row {
            if entry.at != slot {
                let factor = -entry.value * old;
                self.eliminations.push(entry.at, factor)?;
                pivot -= factor * spike.value(entry.at);
            }
        }
        self.eliminations.close()?;
        self.replaced.push(slot)?;
        Ok(pivot)
    }

    /// Adds a late entry of U to the row of a slot.
    fn link(&mut self, row: usize, slot: usize, value: f64) -> Result<(), AllocError> {
        let place = self.links.len();
        let next = at(&self.heads, row, None);
        self.links.push(Link { next, slot, value })?;
        put(&mut self.heads, row, Some(place));
        Ok(())
    }
}
