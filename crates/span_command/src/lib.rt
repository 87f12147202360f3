//! What `span` answers over accepted data: between which values the capacity of a technology that is built in a region and a year lies
//! in all plans near the least cost, each shown by a plan.
//!
//! `span` takes the words and makes the book of rows; `sized` looks at the size of its linear program; `method` solves it and looks for the
//! span, or first `rounding` by the rounded method, both over the rows of the book (`book_spans`). Then come `ends` (the answer for a span, and for each stop), `texts` (what is
//! written of a span) and `places` (the names of places, with the row that limits the cost).
#![tactic(auto)]

mod book_spans;
mod ends;
mod method;
mod places;
mod rounding;
mod sized;
mod span;
mod texts;
mod wanted;

pub use span::answer_span;
pub use wanted::Wanted;
