//! What proves an answer, as one CSV file (RFC 4180): the values of a plan, those of a direction, and multipliers, each in a
//! record of its own below one header.
#![tactic(auto)]

mod laws;
mod names;
mod proof;
mod reading;
mod writing;

pub use laws::{proof_telling_laws, written_proof_laws};
pub use proof::Proof;
pub use reading::read_proof;
pub use writing::{descent_text, optimum_text, refutation_text};
