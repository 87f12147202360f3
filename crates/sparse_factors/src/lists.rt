//! Rows or columns of a matrix, each a list of entries.

use crate::arrays::{at, count_up, filled, put};
use crate::entries::Entry;
use std::alloc::{AllocError, Global};

/// Lists of entries, one after the other in one list.
#[derive(Drop)]
pub struct Lists {
    /// Where each list begins, and where the last one ends.
    starts: Vec<usize>,
    entries: Vec<Entry>,
}

impl Lists {
    /// No list.
    pub fn none(alloc: Global) -> Result<Lists, AllocError> {
        Ok(Lists {
            starts: filled(alloc, 0, 1)?,
            entries: Vec::new(alloc),
        })
    }

    /// What stands until lists are made.
    pub(crate) fn unmade(alloc: Global) -> Lists {
        Lists {
            starts: Vec::new(alloc),
            entries: Vec::new(alloc),
        }
    }

    /// Adds an entry to the list that is being made.
    #[inline]
    pub fn push(&mut self, at: usize, value: f64) -> Result<(), AllocError> {
        self.entries.push(Entry { at, value })?;
        Ok(())
    }

    /// Ends the list that is being made.
    pub fn close(&mut self) -> Result<(), AllocError> {
        self.starts.push(self.entries.len())?;
        Ok(())
    }

    /// A list, empty where there is none.
    #[inline]
    pub fn list(&self, number: usize) -> &[Entry] {
        let start = at(&self.starts, number, 0);
        let end = at(&self.starts, number.saturating_add(1), 0);
        match self.entries.get(start..end) {
            Some(list) => list,
            None => &[],
        }
    }

    /// How many lists there are.
    pub fn count(&self) -> usize {
        self.starts.len().saturating_sub(1)
    }

    /// How many entries there are.
    pub fn size(&self) -> usize {
        self.entries.len()
    }

    /// Puts `names[at]` in the place of each `at`.
    pub(crate) fn rename(&mut self, names: &[usize]) {
        for entry in self.entries.iter_mut() {
            entry.at = at(names, entry.at, usize::MAX);
        }
    }

    /// The columns where these are the rows, or the other way round; `count` of them, each in ascending order.
    pub fn transposed(&self, alloc: Global, count: usize) -> Result<Lists, AllocError> {
        let mut starts = self.starts_of_transposed(alloc, count)?;
        let mut entries = filled(alloc, Entry { at: 0, value: 0.0 }, self.entries.len())?;
        for number in 0..self.starts.len() {
            for entry in self.list(number) {
                let place = at(&starts, entry.at, usize::MAX);
                put(
                    &mut entries,
                    place,
                    Entry {
                        at: number,
                        value: entry.value,
                    },
                );
                put(&mut starts, entry.at, place.saturating_add(1));
            }
        }
        starts.insert(0, 0)?;
        starts.truncate(count.saturating_add(1));
        Ok(Lists { starts, entries })
    }

    /// Where each list of the transposed matrix begins.
    fn starts_of_transposed(&self, alloc: Global, count: usize) -> Result<Vec<usize>, AllocError> {
        let mut starts = filled(alloc, 0, count)?;
        for entry in self.entries.iter() {
            count_up(&mut starts, entry.at);
        }
        let mut sum: usize = 0;
        for start in starts.iter_mut() {
            let size = *start;
            *start = sum;
            sum = sum.saturating_add(size);
        }
        Ok(starts)
    }
}
