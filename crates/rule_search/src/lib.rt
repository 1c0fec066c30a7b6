//! The search for a payment that satisfies a problem, or for a certificate that there is none.
#![tactic(auto)]

mod choosing;
mod greedy;
mod judging;
mod naming;
mod proposing;
mod retracing;
mod searching;
mod solving;
mod verdicts;

pub use searching::search;
