//! Programs in the text form, read.
#![tactic(auto)]

mod cursor;
mod error;
mod fault;
mod items;
mod laws;
mod limits;
mod parsing;
mod program;
mod selections;
mod statements;
mod tokens;
mod values;

pub use error::ParseError;
pub use laws::text_law;
pub use parsing::parse;
