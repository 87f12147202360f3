//! The data section of GNU MathProg, read into blocks of sets and parameters.
//!
//! The grammar is that of the GNU MathProg manual, in the profile of docs/DATA.md. The names of sets and
//! parameters are those of the OSeMOSYS long code (Howells et al., "OSeMOSYS: The Open Source Energy
//! Modeling System", Energy Policy 39, 2011).
#![tactic(auto)]

mod blocks;
mod byte_reader;
mod closing;
mod fault;
mod lexeme;
mod lexer;
mod name_places;
mod pieces;
mod reading;
mod span_reader;
mod spans;
mod statements;
mod subscripts;
mod token;
mod token_list;
mod token_reader;
mod values;
mod words;

pub use blocks::{Blocks, Mark, Name, ParamBlock, SetBlock};
pub use fault::{DataFault, ReadFail};
pub use model_sets::{param_word, set_word};
pub use pieces::PieceReader;
pub use reading::{read_blocks, verdict_laws};
pub use token::Token;
pub use token_list::{lexing_laws, tokens};
pub use values::Values;
