//! A set of indices, as bits.

use crate::arrays::{at, filled};
use std::alloc::{AllocError, Global};

/// A set of indices below a bound, 64 to a word.
#[derive(Drop)]
pub(crate) struct Marks {
    words: Vec<u64>,
}

impl Marks {
    /// No index below `count`.
    pub(crate) fn none(alloc: Global, count: usize) -> Result<Marks, AllocError> {
        let words = filled(alloc, 0, (count >> 6).saturating_add(1))?;
        Ok(Marks { words })
    }

    /// Adds an index.
    #[inline]
    pub(crate) fn insert(&mut self, index: usize) {
        let word = index >> 6;
        if word < self.words.len() {
            self.words[word] |= 1 << (index & 63);
        }
    }

    /// Takes an index out.
    #[inline]
    pub(crate) fn remove(&mut self, index: usize) {
        let word = index >> 6;
        if word < self.words.len() {
            self.words[word] &= !(1 << (index & 63));
        }
    }

    /// Whether an index is in the set.
    #[inline]
    pub(crate) fn contains(&self, index: usize) -> bool {
        (at(&self.words, index >> 6, 0) >> (index & 63)) & 1 == 1
    }

    /// The bits of a word; none past the end.
    #[inline]
    pub(crate) fn word(&self, word: usize) -> u64 {
        at(&self.words, word, 0)
    }

    /// Takes all indices out.
    pub(crate) fn clear(&mut self) {
        for word in self.words.iter_mut() {
            *word = 0;
        }
    }

    /// The words, to be written.
    pub(crate) fn words_mut(&mut self) -> &mut [u64] {
        &mut self.words
    }

    /// The first index from `from` on.
    #[inline]
    pub(crate) fn next(&self, from: usize) -> Option<usize> {
        let first = from >> 6;
        if first >= self.words.len() {
            return None;
        }
        let here = self.words[first] & (u64::MAX << (from & 63));
        if here != 0 {
            return Some(lowest(first, here));
        }
        for word in first + 1..self.words.len() {
            let bits = self.words[word];
            if bits != 0 {
                return Some(lowest(word, bits));
            }
        }
        None
    }

    /// The last index below `end`.
    #[inline]
    pub(crate) fn last_below(&self, end: usize) -> Option<usize> {
        let mut word = end >> 6;
        if word < self.words.len() {
            let here = self.words[word] & !(u64::MAX << (end & 63));
            if here != 0 {
                return Some(highest(word, here));
            }
        } else {
            word = self.words.len();
        }
        for below in (0..word).rev() {
            let bits = self.words[below];
            if bits != 0 {
                return Some(highest(below, bits));
            }
        }
        None
    }
}

/// The index of a word's lowest bit.
#[inline]
fn lowest(word: usize, bits: u64) -> usize {
    (word << 6) | bits.trailing_zeros() as usize
}

/// The index of a word's highest bit.
#[inline]
fn highest(word: usize, bits: u64) -> usize {
    (word << 6) | 63_u32.saturating_sub(bits.leading_zeros()) as usize
}
