//! What is left open to the slots of a problem's atoms under a list of assumptions.
#![tactic(auto)]

mod laws;
mod nodes;
mod picks;
mod slots;
mod store;

pub use laws::{context_law, payment_law};
pub use store::Store;
