//! A vector of which only a few numbers aren't 0.

use crate::arrays::{at, filled, put};
use crate::entries::{Entry, is_large};
use crate::marks::Marks;
use std::alloc::{AllocError, Global};

/// Numbers by index, with the set of the indices at which they may be other than 0, and a list of these.
///
/// The list is made by `gather`, ascending, and holds until the next change.
#[derive(Drop)]
pub struct SparseVector {
    values: Vec<f64>,
    marks: Marks,
    listed: Vec<usize>,
}

impl SparseVector {
    /// So many zeros.
    pub fn zeros(alloc: Global, count: usize) -> Result<SparseVector, AllocError> {
        Ok(SparseVector {
            values: filled(alloc, 0.0, count)?,
            marks: Marks::none(alloc, count)?,
            listed: Vec::new(alloc),
        })
    }

    /// How many numbers there are.
    pub fn len(&self) -> usize {
        self.values.len()
    }

    /// Makes all numbers 0.
    pub fn clear(&mut self) {
        let values = self.values.as_mut_slice();
        let words = self.marks.words_mut();
        for (word, bits) in words.iter_mut().enumerate() {
            if *bits != 0 {
                clear_word(values, word, *bits);
                *bits = 0;
            }
        }
        self.listed.clear();
    }

    /// The number at an index.
    #[inline]
    pub fn value(&self, index: usize) -> f64 {
        at(&self.values, index, 0.0)
    }

    /// Writes a number.
    #[inline]
    pub fn set(&mut self, index: usize, value: f64) {
        put(&mut self.values, index, value);
        self.marks.insert(index);
    }

    /// Makes a number 0 that isn't counted any more.
    #[inline]
    pub(crate) fn wipe(&mut self, index: usize) {
        put(&mut self.values, index, 0.0);
    }

    /// The first index from `from` on whose number may be other than 0.
    #[inline]
    pub fn next(&self, from: usize) -> Option<usize> {
        self.marks.next(from)
    }

    /// The last index below `end` whose number may be other than 0.
    #[inline]
    pub fn last_below(&self, end: usize) -> Option<usize> {
        self.marks.last_below(end)
    }

    /// Takes `factor` times the entries away.
    #[inline]
    pub fn subtract(&mut self, entries: &[Entry], factor: f64) {
        let values = self.values.as_mut_slice();
        let words = self.marks.words_mut();
        for entry in entries {
            let index = entry.at;
            let word = index >> 6;
            if index < values.len() && word < words.len() {
                values[index] -= factor * entry.value;
                words[word] |= 1 << (index & 63);
            }
        }
    }

    /// Lists the indices of numbers that aren't 0, and makes those 0 that are nearly.
    pub fn gather(&mut self) -> Result<(), AllocError> {
        self.listed.clear();
        let values = self.values.as_mut_slice();
        let words = self.marks.words_mut();
        for (word, bits) in words.iter_mut().enumerate() {
            if *bits != 0 {
                *bits = gather_word(values, word, *bits, &mut self.listed)?;
            }
        }
        Ok(())
    }

    /// Lists the indices outside of a set as `gather` does, and makes the numbers at those inside 0.
    pub(crate) fn gather_outside(&mut self, inside: &Marks) -> Result<(), AllocError> {
        self.listed.clear();
        let values = self.values.as_mut_slice();
        let words = self.marks.words_mut();
        for (word, bits) in words.iter_mut().enumerate() {
            if *bits != 0 {
                let inner = *bits & inside.word(word);
                clear_word(values, word, inner);
                *bits = gather_word(values, word, *bits ^ inner, &mut self.listed)?;
            }
        }
        Ok(())
    }

    /// The indices that were listed.
    pub fn listed(&self) -> &[usize] {
        &self.listed
    }

    /// Takes the listed numbers of another vector in place of its own.
    pub fn copy_listed(&mut self, other: &SparseVector) -> Result<(), AllocError> {
        self.clear();
        for index in other.listed() {
            self.set(*index, other.value(*index));
        }
        self.listed.extend_from_slice(other.listed())
    }
}

/// Makes the numbers 0 whose bits are set in a word.
fn clear_word(values: &mut [f64], word: usize, bits: u64) {
    let mut left = bits;
    for _ in 0..64 {
        if left == 0 {
            break;
        }
        put(values, (word << 6) | left.trailing_zeros() as usize, 0.0);
        left &= left - 1;
    }
}

/// Lists the numbers of a word that count, makes the others 0, and answers the bits of those that are listed.
fn gather_word(
    values: &mut [f64],
    word: usize,
    bits: u64,
    listed: &mut Vec<usize>,
) -> Result<u64, AllocError> {
    let mut left = bits;
    let mut kept = bits;
    for _ in 0..64 {
        if left == 0 {
            break;
        }
        let index = (word << 6) | left.trailing_zeros() as usize;
        let rest = left & (left - 1);
        if is_large(at(values, index, 0.0)) {
            listed.push(index)?;
        } else {
            put(values, index, 0.0);
            kept &= !(left ^ rest);
        }
        left = rest;
    }
    Ok(kept)
}
