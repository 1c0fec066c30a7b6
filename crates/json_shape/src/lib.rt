//! JSON by path: reading bytes, taking a field, a text, a number or a list, going over the items of a list, and the fault
//! with its place where JSON has another shape.
#![tactic(auto)]

mod error;
mod items;
mod path;
mod reading;
mod shape;

pub use error::ShapeError;
pub use items::{CountingReader, Reader, each, each_counted};
pub use path::{Path, path_law};
pub use reading::read;
pub use shape::{field, list_up_to, optional, text_up_to, whole};
