//! Tests of the program over files and text in memory, on which no crate stands: what no file of cases can tell.
#![tactic(auto)]

#[cfg(test)]
mod calls;
#[cfg(test)]
mod check_files;
#[cfg(test)]
mod faults;
#[cfg(test)]
mod long_files;
#[cfg(test)]
mod pieces;
#[cfg(test)]
mod plan_records;
mod sure;

pub use sure::run_surely;
