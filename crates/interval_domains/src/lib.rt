//! Sets of options of a slot, by which an analysis keeps what its assumptions leave open.
#![tactic(auto)]

mod coverage;
mod domain;
mod interval;
mod intervals;
mod pieces;
mod slot_set;
mod texts;
mod values;
mod variants;

pub use domain::SlotDomain;
pub use slot_set::SlotSet;
