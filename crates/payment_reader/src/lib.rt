//! Payments as JSON: reading them, and writing them.
#![tactic(auto)]

mod error;
mod field;
mod metadata;
mod reading;
mod write;

pub use error::PaymentError;
pub use reading::read_payment;
pub use write::write_payment;
