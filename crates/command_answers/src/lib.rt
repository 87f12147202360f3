//! What the commands of the program share over the bytes of a data file: its data or what refuses it, statuses with their lines,
//! and what is answered where the rows of the named equations can't be made.
//!
//! A command's own crate stands on this one: it takes accepted data (`accepting`), makes the book of rows (`books` where that can't be
//! made), and answers with a status and a text (`answer`). Stops of a method and their lines are in `stops` and `lines`, the names of places in
//! `places`, and members that words of a command name in `named_members`.
#![tactic(auto)]

mod accepting;
mod amounts;
mod answer;
mod books;
mod lines;
mod methods;
mod named_members;
mod places;
mod plan_fault_lines;
mod proved;
mod refusal_lines;
mod status;
mod stops;

pub use accepting::{Whole, accept, accept_read, accept_whole, acceptance_laws};
pub use amounts::{push_amount, push_count, push_with_number};
pub use answer::{Answer, refuse_reduced, refuse_start, refuse_words};
pub use books::{made_book, refuse_book, refuse_large};
pub use command_words::WordFault;
pub use lines::{push_trial_stop, stop_line, too_long_line};
pub use methods::{
    BookProgram, definers, eliminate_book, guess_book, guess_rows, problem_laws, problem_of,
    second_book, solve_book,
};
pub use named_members::find_member;
pub use places::{push_place, push_with_row, push_with_var};
pub use plan_fault_lines::{multiplier_fault_line, plan_fault_line, proof_fault_line};
pub use proved::{AcceptedProof, Worth};
pub use simplex_core::{Stop, TrialStop};
pub use status::{ReadStop, Refusal, Status};
pub use stops::{stop_at, stop_at_budget, stop_at_trial, stop_on_book, stop_on_elimination};
