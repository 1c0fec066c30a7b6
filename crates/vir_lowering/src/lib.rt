//! Lowering: one atom for each comparison, those of a condition grouped by slot.
#![tactic(auto)]

mod atom;
mod condition;
mod laws;
mod lowering;
mod program;
mod vir;

pub use laws::{fits_law, keeps_law};
pub use lowering::lower;
pub use program::VirProgram;
pub use vir::{VirRule, VirStatement};
