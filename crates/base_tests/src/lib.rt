//! Tests of the base crates, on which no crate stands: files and output, long numbers, the MPS text of columns, made data files.
#![tactic(auto)]

#[cfg(test)]
mod edges;
#[cfg(test)]
mod made_files;
#[cfg(test)]
mod mps_columns;
#[cfg(test)]
mod readings;
