//! Keys, slots, values, payments and atoms: what every other crate speaks of.
#![tactic(auto)]

mod atom;
mod built_in;
mod entries;
mod key;
mod laws;
mod names;
mod payment;
mod seq;
mod slot;
mod stop;
mod table;
mod table_file;
mod text;
mod word;

pub use atom::{Atom, Op, Test, Verdict3, atom_holds, option_law};
pub use entries::{Entries, Under};
pub use key::Kind;
pub use laws::{atom_law, forces_law, left_law, legal_law, slot_law};
pub use payment::{Payment, put_law};
pub use seq::{Copied, Seq};
pub use slot::{Datum, Slot};
pub use stop::{NoMemory, NotUtf8, Stop};
pub use table::{KeyTable, TableError};
pub use text::Text;
pub use word::is_word;
