//! Source programs and their meaning.
#![tactic(auto)]

mod meaning;
mod program;
mod selection;
mod statement;

pub use meaning::{Choice, choice_of_source};
pub use program::{Program, Rule};
pub use selection::{Account, Selection, Share, ThreeDs};
pub use statement::{Comparison, NumberTest, Statement, ValueForm};
