//! Problems: what a payment has to meet, certificates that no payment meets it, when they prove it, and traces of a search
//! that spent its budget.
#![tactic(auto)]

mod certificate;
mod fitting;
mod laws;
mod problem;
mod satisfying;

pub use certificate::{Certificate, Item, Report, Trace};
pub use fitting::problem_fits;
pub use laws::{
    bound_law, drop_law, fits_law, goal_law, live_law, outcome_law, proof_law, reading_law,
    settled_law,
};
pub use problem::{Literal, Problem};
pub use satisfying::sat;
