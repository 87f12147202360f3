//! Sparse LU factors of a basis of a linear program in f64, with their solves and updates.
//!
//! Nothing here can fail but for memory: a number outside a list reads as nothing and is written nowhere, and numbers
//! that aren't finite are computed on.
#![tactic(auto)]

mod arrays;
mod basis;
mod entries;
mod factoring;
mod factors;
mod lists;
mod marks;
mod middle;
mod singles;
mod solves;
mod sparse_vector;
mod update;
mod waiting;

pub use arrays::{at, put};
pub use basis::Basis;
pub use entries::Entry;
pub use factoring::factor;
pub use factors::Factors;
pub use lists::Lists;
pub use sparse_vector::SparseVector;
