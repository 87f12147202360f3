//! The best choice in each block of slots, so that a choice looks again only at the blocks in which something changed.

use crate::choices::{Choice, better, place_of};
use sparse_factors::{at, put};
use std::alloc::{AllocError, Global};

/// A block has 2^8 slots.
const BLOCK: u32 = 8;

/// The best choice of each block of slots, and whether something of it has changed since.
#[derive(Drop)]
pub(crate) struct Blocks {
    best: Vec<Option<Choice>>,
    is_stale: Vec<bool>,
}

impl Blocks {
    /// Blocks of so many slots of which nothing is known.
    pub(crate) fn unknown(alloc: Global, slots: usize) -> Result<Blocks, AllocError> {
        let count = (slots >> BLOCK).saturating_add(1);
        let mut best = Vec::with_capacity(alloc, count)?;
        let mut is_stale = Vec::with_capacity(alloc, count)?;
        for _ in 0..count {
            best.push(None)?;
            is_stale.push(true)?;
        }
        Ok(Blocks { best, is_stale })
    }

    /// Something of a slot has changed.
    #[inline]
    pub(crate) fn touch(&mut self, slot: usize) {
        put(&mut self.is_stale, slot >> BLOCK, true);
    }

    /// Something of all slots has changed.
    pub(crate) fn touch_all(&mut self) {
        for stale in self.is_stale.iter_mut() {
            *stale = true;
        }
    }

    /// The slot with the greatest square of a value beside its weight, among the values below this; of equal ones the first.
    pub(crate) fn best(&mut self, values: &[f64], weights: &[f64], least: f64) -> Option<usize> {
        let mut best = None;
        for block in 0..self.best.len() {
            if at(&self.is_stale, block, true) {
                let first = block << BLOCK;
                put(
                    &mut self.best,
                    block,
                    best_from(values, weights, least, first),
                );
                put(&mut self.is_stale, block, false);
            }
            if let Some(choice) = at(&self.best, block, None) {
                best = better(best, choice);
            }
        }
        place_of(best)
    }
}

/// The best choice in the block that begins with a slot.
fn best_from(values: &[f64], weights: &[f64], least: f64, first: usize) -> Option<Choice> {
    let mut best = None;
    for place in first..first.saturating_add(1 << BLOCK) {
        let value = at(values, place, 0.0);
        if value < least {
            let gain = value * value / at(weights, place, 1.0);
            best = better(best, Choice { place, gain });
        }
    }
    best
}
