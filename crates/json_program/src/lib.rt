//! Programs as JSON: reading them with the first fault at its place, and writing them and what they give.
#![tactic(auto)]

mod comparison;
mod counts;
mod error;
mod field;
mod limits;
mod program;
mod reading;
mod selection;
mod statement;
mod write;
mod written;

pub use error::JsonError;
pub use reading::read_json;
pub use write::{write_json, write_selection, write_string};
