//! Graphs of nodes over the slots of a payment: whether a node holds of a payment, and what is known of a node where
//! verdicts on its atoms are known.
#![tactic(auto)]

mod builder;
mod error;
mod graph;
mod laws;
mod node;
mod truth;

pub use builder::Builder;
pub use error::BuildError;
pub use graph::Graph;
pub use laws::{agree_law, more_law, sound_law, total_law, undecided_law};
pub use node::{Edge, Relation};
pub use truth::holds;
