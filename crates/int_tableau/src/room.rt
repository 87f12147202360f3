//! Room in which a line is made before it takes its place, used again by each line.

use std::alloc::Global;

#[derive(Drop)]
pub(crate) struct Room {
    pub(crate) alloc: Global,
    /// A line in 64 bits.
    pub(crate) narrow: Vec<(usize, i64)>,
    /// A line in 128 bits.
    pub(crate) wide: Vec<(usize, i128)>,
    /// The entries of a line and of another that it is made of, where one of them is kept in 64 bits.
    pub(crate) line: Vec<(usize, i128)>,
    pub(crate) other: Vec<(usize, i128)>,
}

impl Room {
    pub(crate) fn new(alloc: Global) -> Room {
        Room {
            alloc,
            narrow: Vec::new(alloc),
            wide: Vec::new(alloc),
            line: Vec::new(alloc),
            other: Vec::new(alloc),
        }
    }
}
