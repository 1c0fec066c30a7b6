//! Programs in the text form, printed.
#![tactic(auto)]

mod error;
mod expressible;
mod print;
mod program;
mod selection;
mod statement;
mod text;
mod value;

pub use error::Inexpressible;
pub use text::print_text;
