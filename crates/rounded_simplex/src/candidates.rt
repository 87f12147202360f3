//! Places whose numbers may be below 0, so that a choice needn't look at all of them.

use sparse_factors::{at, put};
use std::alloc::{AllocError, Global};

/// A list of places, each at most once.
#[derive(Drop)]
pub(crate) struct Candidates {
    listed: Vec<usize>,
    is_listed: Vec<bool>,
}

impl Candidates {
    /// None of so many places.
    pub(crate) fn none(alloc: Global, places: usize) -> Result<Candidates, AllocError> {
        let mut is_listed = Vec::with_capacity(alloc, places)?;
        for _ in 0..places {
            is_listed.push(false)?;
        }
        Ok(Candidates {
            listed: Vec::new(alloc),
            is_listed,
        })
    }

    /// The places, in no order that means anything.
    pub(crate) fn places(&self) -> &[usize] {
        &self.listed
    }

    /// Lists a place, if it isn't listed.
    #[inline]
    pub(crate) fn note(&mut self, place: usize) -> Result<(), AllocError> {
        if !at(&self.is_listed, place, true) {
            put(&mut self.is_listed, place, true);
            self.listed.push(place)?;
        }
        Ok(())
    }

    /// Lists the places whose numbers are below this, besides those that are listed.
    pub(crate) fn note_below(&mut self, numbers: &[f64], least: f64) -> Result<(), AllocError> {
        for (place, number) in numbers.iter().enumerate() {
            if *number < least {
                self.note(place)?;
            }
        }
        Ok(())
    }

    /// Leaves the places whose numbers are below this.
    pub(crate) fn keep_below(&mut self, numbers: &[f64], least: f64) {
        let mut kept = 0usize;
        for index in 0..self.listed.len() {
            let place = at(&self.listed, index, usize::MAX);
            if at(numbers, place, 0.0) < least {
                put(&mut self.listed, kept, place);
                kept = kept.saturating_add(1);
            } else {
                put(&mut self.is_listed, place, false);
            }
        }
        self.listed.truncate(kept);
    }
}
