//! The words of the command line: the command that they ask for, with its files and options, or what is wrong with them.
//!
//! `forms` has the table of options and that of forms, and says which form fits; `parsing` reads words and options, by `clap`; `values` has the numbers and words that
//! options have, and `limits` those of `curve`; `making` makes the command of each form, and `command` reads all words.
#![tactic(auto)]

mod command;
mod fault;
mod forms;
mod limits;
mod making;
mod parsing;
mod values;

pub use command::{Command, CompareShow, MakeShow, Request, SolveMethod, SolveShow, read_command};
pub use fault::WordFault;
pub use parsing::spelled_parts;
