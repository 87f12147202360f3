//! What `solve` answers over accepted data: an end of the exact method, or why there is none; and what `make` says in a few lines of
//! the model that it makes.
//!
//! `solve` makes the book of rows and solves it, where it isn't too large, by the exact method or first by the rounded one (`rounding`); then come `ends` (the answer for a solution, or for the stop of
//! the method) and `texts` (what is shown of a solution, with its one line in `line`). `summary` puts the counts before the few lines of `make`; `starting` begins guesses from
//! the values of a file; `promises` has the law on the prices of a report, and `readback` that on what the file of a proof is read as.
#![tactic(auto)]

mod ends;
mod line;
mod promises;
mod readback;
mod rounding;
mod second;
mod solve;
mod starting;
mod summary;
mod texts;

pub use promises::promise_laws;
pub use solve::{Shown, Wanted, answer_solve, shown_of, wanted_by};
pub use starting::answer_from;
pub use summary::answer_summary;
