//! The edges of a program: files that are read in pieces, and one place that is written to.
//!
//! `Shelf` and `Sink` say what a caller may rely on, also where nothing is known of the bytes.
//! `MemShelf` and `MemSink` keep all in memory and fail where they are told to, `SureShelf` and
//! `SureSink` nowhere but where there is no room; `DiskShelf` and `OutSink` stand over the system's
//! files and standard output.
#![tactic(auto)]

mod disk_shelf;
mod failing;
mod mem_shelf;
mod mem_sink;
mod out_sink;
mod records;
mod sure_shelf;
mod sure_sink;
mod traits;

pub use disk_shelf::DiskShelf;
pub use mem_shelf::MemShelf;
pub use mem_sink::MemSink;
pub use out_sink::OutSink;
pub use sure_shelf::SureShelf;
pub use sure_sink::SureSink;
pub use traits::{Failed, OpenFault, Shelf, Sink};
