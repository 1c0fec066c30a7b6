//! The tokens of the text form of programs.
#![tactic(auto)]

mod error;
mod front;
mod lexing;
mod token;

pub use error::LexError;
pub use lexing::{lex, longest_law, pieces_law, written_law};
pub use token::{Placed, Sign, Token};
