//! Where files are read from, and where answers are written to.
#![tactic(auto)]

mod mem_shelf;
mod mem_sink;
mod system;
mod traits;

pub use mem_shelf::MemShelf;
pub use mem_sink::MemSink;
pub use system::{DirShelf, StdSink};
pub use traits::{ReadError, Shelf, Sink, SinkFailed};
