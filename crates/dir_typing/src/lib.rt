//! Typing of source programs: numbers for names, or the first fault.
#![tactic(auto)]

mod comparison;
mod dir;
mod fault;
mod numbering;
mod program;
mod selection;
mod typing;

pub use dir::{DirComparison, DirRule, DirStatement, DirValue};
pub use fault::{Place, TypeFault};
pub use program::DirProgram;
pub use typing::type_program;
