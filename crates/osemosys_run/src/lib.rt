//! The program, over any shelf of files and any sink for the text.
//!
//! A call does its work in this order: `command_words` says which command over which files (`files`); `request_files` reads them, each whole;
//! `answering` says what is answered for their contents, by the functions of the commands' crates, with no shelf and no sink; and `delivering` puts
//! the text into the sink (`sending`); the equations of `mps` are written as they are made (`equations`). `run` puts them together. What
//! several commands make together stands in a module of its own (`table_file`, `page_file`, `compared`, `making`, `warned`). The laws say what
//! follows from what is due.
#![tactic(auto)]

mod accepting;
mod answering;
mod compare_laws;
mod compared;
mod completing;
mod delivering;
mod equations;
mod files;
mod making;
mod mps_program;
mod page_file;
mod promised;
mod reply;
mod run;
mod scenarios;
mod sending;
mod shown_ends;
mod shown_proofs;
mod table_file;
mod warned;

pub use command_answers::{ReadStop, Refusal, Status, Stop, TrialStop, WordFault};
pub use run::{osemosys, osemosys_watched};
