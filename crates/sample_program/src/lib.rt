//! Samples: the program that a seed makes, and the settings to try it under.
#![tactic(auto)]

mod comparison;
mod draws;
mod laws;
mod program;
mod settings;

pub use laws::{settings_law, small_law, typed_law, within_law};
pub use program::sample_program;
pub use settings::sample_settings;
