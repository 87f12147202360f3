//! Tests of the equations' text over sources that make rows one by one. Small data sections for these tests and those of the program, and
//! the MPS text of the base example.
#![tactic(auto)]

mod base_example;
#[cfg(test)]
mod counted;
mod data_sections;
#[cfg(test)]
mod sections;

pub use base_example::base_text;
pub use data_sections::section;
