//! The checker of certificates: whether the items of a certificate prove that no payment satisfies a problem.
#![tactic(auto)]

mod candidate;
mod chain;
mod finding;
mod laws;
mod nodes;
mod notes;
mod options;
mod premises;
mod reasons;
mod scratch;
mod trail;
mod walk;

pub use laws::{representatives_law, tries_law};
pub use scratch::Scratch;
pub use walk::{Verdict, check, check_in};
