//! The answers of linear programming solvers to the text that `osemosys mps` writes, and the files of plans, read into values
//! to start a search from. The values are a guess: nothing rests on them but where the search begins.
#![tactic(auto)]

mod answer;
mod coin;
mod floats;
mod form;
mod found;
mod glpsol;
mod highs;
mod lines;
mod names;
mod numbers;
mod reading;
mod start;
mod tables;
mod words;

pub use answer::{Answer, AnswerFail};
pub use form::Form;
pub use found::Found;
pub use reading::read_answer;
pub use start::StartValues;
