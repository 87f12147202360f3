//! The places of the names of an index, and values with them.

ghost use Rattle.std.specs.Prelude.{◌≡◌, ◌≤◌, ◌<◌, ◌++◌, ◌∷◌, [], OnOk, length, slice_index_or, take};

use crate::blocks::Mark;
use std::alloc::AllocError;
use std::mem::size_of;

/// The places of the names of an index, five at most.
#[derive(Clone, Copy)]
pub(crate) struct NamePlaces {
    count: u32,
    places: [u32; 5],
    ghost fits: { count ≤ 5 },
}

impl NamePlaces {
    /// No places.
    pub(crate) fn new() -> NamePlaces
        ensures { take result.count result.places ≡ [] }
    {
        NamePlaces {
            count: 0,
            places: [0; 5],
        }
    }

    /// A place at which the next name of this index may stand: where it stood in the index before. A guess: nothing rests on it.
    #[inline(always)]
    pub(crate) fn remembered(&self, index: NamePlaces) -> u32 {
        if index.count < 5 {
            self.places[index.count as usize]
        } else {
            0
        }
    }

    /// How many places there are.
    #[inline(always)]
    pub(crate) fn count(&self) -> usize
        ensures { result ≡ length (take self.now.count self.now.places) }
    {
        self.count as usize
    }

    /// The place of the name of this subscript, counted from 0.
    #[inline(always)]
    pub(crate) fn get(&self, subscript: usize) -> u32
        requires { subscript < length (take self.now.count self.now.places) }
        ensures { result ≡ slice_index_or (take self.now.count self.now.places) subscript 0 }
    {
        self.places[subscript]
    }

    /// Adds a place. The index of a parameter has never more than five.
    #[inline(always)]
    pub(crate) fn push(&mut self, place: u32) -> Result<(), AllocError>
        ensures { OnOk result (take self.new.count self.new.places ≡ take self.old.count self.old.places ++ place ∷ []) }
    {
        if self.count >= 5 {
            return Err(AllocError);
        }
        self.places[self.count as usize] = place;
        self.count += 1;
        Ok(())
    }
}

/// A value, with the places of the names of its index.
#[derive(Clone, Copy)]
pub(crate) struct KeptValue {
    pub(crate) index: NamePlaces,
    pub(crate) at: Mark,
    pub(crate) value: i128,
}

const _: () = prove!(size_of::<KeptValue>() == 48);
