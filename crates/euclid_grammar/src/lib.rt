//! The grammar of the text form: trees, the tokens that spell them, the limits, and where a text has its first fault.
#![tactic(auto)]

mod counts;
mod laws;

pub use counts::Counts;
pub use laws::{limits_law, quoted_law};
