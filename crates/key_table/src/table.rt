ghost use Rattle.std.specs.Prelude.{◌≡◌, ◌<◌, ◌≤◌, ◌+◌, [], length, Some, None, IfSome, slice_get, option_map, OnOk, OnErr, true};
ghost use Rattle.key_table.specs.Tables.{names_in, find_key, name_at, domain_at, kind_at, variants_at, find_variant, bounds_at, is_domain, is_table, slot_fits, datum_fits};
ghost use Rattle.key_table.specs.NameLists.{with_key};
ghost use Rattle.key_table.specs.Names.{is_name, is_among};
ghost use Rattle.key_table.specs.Atoms.{atom_fits};

use crate::key::Domain;
use crate::{Atom, Datum, Kind, NoMemory, Slot};
use indexmap::IndexMap;
use std::alloc::Global;
use std::marker::Model;
use std::str;
use thiserror::Error;

/// The first fault of a key table file: its code, and the number of the key at which it stands, where there is one.
#[derive(Clone, Copy, Debug, PartialEq, Eq, Error)]
#[error("the key table has fault {code}")]
pub struct TableError {
    pub code: u8,
    pub key: Option<u32>,
}

/// A table of at most 256 keys, each with its name, its kind, and its variants or bounds. Keys and variants have
/// numbers, from 0 in the order of the table.
#[derive(Drop)]
pub struct KeyTable {
    keys: IndexMap<String, Domain>,
}

impl Model for KeyTable {
    ghost use Rattle.std.specs.Prelude.{◌≡◌, map, length, ◌≤◌, true};
    ghost use Rattle.key_table.specs.Tables.{Table, is_table};

    ghost Value = { Table };

    ghost use Rattle.key_table.specs.KeyViews.{key_view};

    ghost view = { λ t. map key_view t.keys.entries };

    ghost invariant = { λ t. (length t.keys.entries ≤ 256) × (is_table (map key_view t.keys.entries) ≡ true) };
}

impl KeyTable {
    ghost use Rattle.key_table.specs.KeyViews.{domain_view};

    pub(crate) fn new(alloc: Global) -> KeyTable
        ensures { result ≡ [] }
    {
        KeyTable {
            keys: IndexMap::new(alloc),
        }
    }

    /// Gives the key this domain. A new key goes last.
    pub(crate) fn add(&mut self, alloc: Global, name: &str, domain: Domain) -> Result<(), NoMemory>
        requires room { length self.old < 256 }
        requires named { is_name name.now ≡ true }
        requires well_made { is_domain (domain_view domain) ≡ true }
        ensures ok { OnOk result (self.new ≡ with_key self.old name.now (domain_view domain)) }
        ensures count { length self.new ≤ length self.old + 1 }
    {
        let name = String::from_str(alloc, name)?;
        self.keys.insert(name, domain)?;
        Ok(())
    }

    // What may stand at a key's slots.
    fn domain(&self, key: u32) -> Option<&Domain>
        ensures { option_map (λ d. domain_view d.now) result ≡ domain_at key self.now }
    {
        match self.keys.get_index(key as usize) {
            Some((_, domain)) => Some(domain),
            None => None,
        }
    }

    /// The number of keys.
    pub fn count(&self) -> u32
        ensures value { result ≡ length self.now }
        ensures most { length self.now ≤ 256 }
        ensures well_made { is_table self.now ≡ true }
    {
        self.keys.len() as u32
    }

    /// The number of the key with a name, found by its hash. `None` exactly where no key has it.
    pub fn find(&self, name: &[u8]) -> Option<u32>
        ensures number { result ≡ find_key name.now self.now }
        ensures within { IfSome result (λ key. key < length self.now) }
    {
        let keys = &self.keys;
        let Ok(name) = str::from_utf8(name) else {
            return None;
        };
        match keys.get_index_of(name) {
            Some(key) => Some(key as u32),
            None => None,
        }
    }

    /// Whether a key has the name.
    pub(crate) fn has(&self, name: &str) -> bool
        ensures { result ≡ is_among name.now (names_in self.now) }
    {
        self.keys.contains_key(name)
    }

    /// The name of a key.
    pub fn name_of(&self, key: u32) -> &[u8]
        requires { key < length self.now }
        ensures { name_at key self.now ≡ Some result.now }
    {
        self.name_as_str(key).as_bytes()
    }

    /// The same name as a text.
    pub fn name_as_str(&self, key: u32) -> &str
        requires { key < length self.now }
        ensures { name_at key self.now ≡ Some result.now }
    {
        match self.keys.get_index(key as usize) {
            Some((name, _)) => name.as_str(),
            None => unreachable!(),
        }
    }

    /// The kind of a key.
    pub fn kind_of(&self, key: u32) -> Kind
        requires { key < length self.now }
        ensures { kind_at key self.now ≡ Some result }
    {
        match self.domain(key) {
            Some(domain) => domain.kind(),
            None => unreachable!(),
        }
    }

    /// The number of variants of a key, 0 where it is no enum.
    pub fn variants(&self, key: u32) -> u32
        ensures { result ≡ length (variants_at key self.now) }
    {
        match self.domain(key) {
            Some(Domain::Enum(names)) => names.count(),
            _ => 0,
        }
    }

    /// The number of the variant with a name, found by its hash. `None` exactly where the key is no enum or has no
    /// such variant.
    pub fn variant(&self, key: u32, name: &[u8]) -> Option<u32>
        ensures number { result ≡ find_variant key name.now self.now }
        ensures within { IfSome result (λ v. v < length (variants_at key self.now)) }
    {
        match self.domain(key) {
            Some(Domain::Enum(names)) => names.find(name),
            _ => None,
        }
    }

    /// The name of a variant of an enum key.
    pub fn variant_name(&self, key: u32, variant: u32) -> &[u8]
        requires { variant < length (variants_at key self.now) }
        ensures { slice_get (variants_at key self.now) variant ≡ Some result.now }
    {
        self.variant_as_str(key, variant).as_bytes()
    }

    /// The same name as a text.
    pub fn variant_as_str(&self, key: u32, variant: u32) -> &str
        requires { variant < length (variants_at key self.now) }
        ensures { slice_get (variants_at key self.now) variant ≡ Some result.now }
    {
        match self.domain(key) {
            Some(Domain::Enum(names)) => names.get(variant),
            _ => unreachable!(),
        }
    }

    /// The least and the greatest legal number of a number key.
    pub fn bounds(&self, key: u32) -> (i64, i64)
        requires { kind_at key self.now ≡ Some Kind.Number }
        ensures { bounds_at key self.now ≡ Some result }
    {
        match self.domain(key) {
            Some(Domain::Number(least, greatest)) => (*least, *greatest),
            _ => unreachable!(),
        }
    }

    /// Whether the slot is legal: its key is in the table, and it has a sub name, of at most 255 bytes, exactly where the
    /// key is metadata.
    pub fn slot_fits(&self, slot: &Slot) -> bool
        ensures { result ≡ slot_fits self.now slot.now }
    {
        match self.domain(slot.key) {
            Some(domain) => domain.has_sub(slot.sub.as_ref()),
            None => false,
        }
    }

    /// Whether the slot is legal and the value is legal there: it is a variant of the key, a number within its bounds, or
    /// a text of at most 1,024 bytes under a text or metadata key.
    pub fn datum_fits(&self, slot: &Slot, datum: &Datum) -> bool
        ensures { result ≡ datum_fits self.now slot.now datum.now }
    {
        match self.domain(slot.key) {
            Some(domain) => domain.has_sub(slot.sub.as_ref()) && domain.allows(datum),
            None => false,
        }
    }

    /// Whether the atom fits: its slot is legal, each test has the kind of its key, each variant is one of the key,
    /// each text has at most 255 bytes, and there are at most 4,096 tests. Numbers in tests may lie outside the bounds.
    pub fn atom_fits(&self, atom: &Atom) -> bool
        ensures { result ≡ atom_fits self.now atom.now }
    {
        match self.domain(atom.slot.key) {
            Some(domain) => domain.has_sub(atom.slot.sub.as_ref())
                && domain.fits_all(atom.tests.as_slice()),
            None => false,
        }
    }
}
