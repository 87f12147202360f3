//! The files of a request, read from a shelf one after another, each to its end.
#![tactic(auto)]

mod marked;
mod taking;
mod whole;

pub use marked::{Contents, RequestFile, Stopped, read_files};
pub use taking::Taker;
pub use whole::ReadEnd;
