//! Targets: what a payment has to meet so that a rule, or the default, decides on it, and what the search answers on that.
#![tactic(auto)]

mod atoms;
mod laws;
mod numbered;
mod paths;
mod problem;
mod report;
mod shared;
mod taken;
mod targets;

pub use laws::reaches_law;
pub use report::report_all;
pub use targets::{Targets, problem_for};
