//! Certificates and traces as files of lines: reading and writing them.
#![tactic(auto)]

mod atoms;
mod error;
mod fields;
mod laws;
mod lines;
mod named;
mod read;
mod spelling;
mod write;

pub use error::CertError;
pub use laws::{one_spelling_law, prefix_law, reads_back_law};
pub use read::read_certificate;
pub use write::{write_certificate, write_trace};
