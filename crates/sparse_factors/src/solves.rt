//! Solves with the factors.

use crate::arrays::at;
use crate::entries::{Entry, is_large, is_small};
use crate::factors::Factors;
use crate::sparse_vector::SparseVector;
use std::alloc::AllocError;

impl Factors {
    /// B x = a: `x` comes in as a by slots of the rows, and goes out as x by slots of the basic variables, gathered.
    pub fn ftran(&self, x: &mut SparseVector) -> Result<(), AllocError> {
        self.apply_lower(x);
        self.apply_updates(x);
        self.solve_upper(x);
        x.gather()
    }

    /// The same, but nothing is gathered: the numbers can be asked for, and aren't listed.
    pub fn ftran_unlisted(&self, x: &mut SparseVector) {
        self.apply_lower(x);
        self.apply_updates(x);
        self.solve_upper(x);
    }

    /// As `ftran`; `spike` becomes the new column of U, for an update.
    pub fn ftran_keeping(
        &self,
        x: &mut SparseVector,
        spike: &mut SparseVector,
    ) -> Result<(), AllocError> {
        self.apply_lower(x);
        self.apply_updates(x);
        x.gather()?;
        spike.copy_listed(x)?;
        self.solve_upper(x);
        x.gather()
    }

    /// y B = c: `x` comes in as c by slots of the basic variables, and goes out as y by slots of the rows, gathered.
    /// `row` becomes c divided by U, for an update.
    pub fn btran(&self, x: &mut SparseVector, row: &mut Vec<Entry>) -> Result<(), AllocError> {
        row.clear();
        self.divide_by_upper(x, row)?;
        self.apply_updates_transposed(x);
        let mut end = x.len();
        for _ in 0..x.len() {
            let Some(slot) = x.last_below(end) else {
                break;
            };
            if slot < self.first {
                break;
            }
            end = slot;
            let value = x.value(slot);
            if slot < self.rows && value != 0.0 {
                x.subtract(self.lower_rows.list(slot), value);
            }
        }
        x.gather()
    }

    /// Applies L, forwards.
    fn apply_lower(&self, x: &mut SparseVector) {
        let mut from = self.first;
        for _ in 0..x.len() {
            let Some(slot) = x.next(from) else {
                break;
            };
            from = slot.saturating_add(1);
            let value = x.value(slot);
            if slot < self.rows && value != 0.0 {
                x.subtract(self.lower.list(slot), value);
            }
        }
    }

    /// Applies the updates, in their order: each takes its slot's number, less a sum, to the new slot.
    fn apply_updates(&self, x: &mut SparseVector) {
        for (update, replaced) in self.replaced.iter().enumerate() {
            let mut value = x.value(*replaced);
            x.wipe(*replaced);
            for entry in self.eliminations.list(update) {
                value -= entry.value * x.value(entry.at);
            }
            if is_large(value) {
                x.set(self.rows.saturating_add(update), value);
            }
        }
    }

    /// Solves with U, backwards.
    fn solve_upper(&self, x: &mut SparseVector) {
        let mut end = x.len();
        for _ in 0..x.len() {
            let Some(slot) = x.last_below(end) else {
                break;
            };
            if slot < self.first {
                break;
            }
            end = slot;
            let value = x.value(slot);
            if at(&self.retired, slot, true) || is_small(value) {
                x.wipe(slot);
            } else {
                let quotient = value / at(&self.diagonal, slot, 1.0);
                x.set(slot, quotient);
                x.subtract(self.upper.list(slot), quotient);
            }
        }
        for replaced in self.replaced.iter() {
            x.wipe(*replaced);
        }
    }

    /// Solves with U transposed, forwards, and keeps the solution in `row`.
    fn divide_by_upper(
        &self,
        x: &mut SparseVector,
        row: &mut Vec<Entry>,
    ) -> Result<(), AllocError> {
        let mut from = 0;
        for _ in 0..x.len() {
            let Some(slot) = x.next(from) else {
                break;
            };
            from = slot.saturating_add(1);
            let value = x.value(slot);
            if at(&self.retired, slot, true) || is_small(value) {
                x.wipe(slot);
            } else {
                let quotient = value / at(&self.diagonal, slot, 1.0);
                x.set(slot, quotient);
                row.push(Entry {
                    at: slot,
                    value: quotient,
                })?;
                if slot < self.rows {
                    x.subtract(self.upper_rows.list(slot), quotient);
                }
                self.subtract_links(x, slot, quotient);
            }
        }
        Ok(())
    }

    /// Takes `factor` times a slot's late entries away.
    fn subtract_links(&self, x: &mut SparseVector, slot: usize, factor: f64) {
        let mut next = at(&self.heads, slot, None);
        for _ in 0..self.links.len() {
            let Some(place) = next else {
                break;
            };
            if place >= self.links.len() {
                break;
            }
            let link = self.links[place];
            x.set(link.slot, x.value(link.slot) - factor * link.value);
            next = link.next;
        }
    }

    /// Applies the updates transposed, from the last to the first.
    fn apply_updates_transposed(&self, x: &mut SparseVector) {
        for update in (0..self.replaced.len()).rev() {
            let slot = self.rows.saturating_add(update);
            let value = x.value(slot);
            if value != 0.0 {
                x.wipe(slot);
                x.set(self.replaced[update], value);
                x.subtract(self.eliminations.list(update), value);
            }
        }
    }
}
