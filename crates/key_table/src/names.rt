ghost use Rattle.std.specs.Prelude.{◌≡◌, ◌<◌, ◌≤◌, ◌+◌, [], length, map, bytes_eq, position, slice_get, Some, IfSome, IfOk, OnOk, OnErr, true, not};
ghost use Rattle.std.specs.List.{list_all};
ghost use Rattle.key_table.specs.NameLists.{with_name, with_names};
ghost use Rattle.key_table.specs.Names.{is_name, is_among, are_names};

use crate::NoMemory;
use indexmap::IndexSet;
use std::alloc::Global;
use std::marker::Model;
use std::str;

/// At most 1,024 names in order, each once and found by its hash. Contracts see the list of them.
#[derive(Drop)]
pub(crate) struct Names {
    names: IndexSet<String>,
}

impl Model for Names {
    ghost use Rattle.std.specs.Prelude.{◌≡◌, ℕ, List, map, length, ◌≤◌, true, string_bytes};

    ghost Value = { List (List ℕ) };

    ghost view = { λ n. map string_bytes n.names.keys };

    ghost use Rattle.key_table.specs.Names.{are_names};

    ghost invariant = { λ n. (length n.names.keys ≤ 1024) × (are_names (map string_bytes n.names.keys) ≡ true) };
}

impl Names {
    pub(crate) fn new(alloc: Global) -> Names
        ensures { result ≡ [] }
    {
        Names {
            names: IndexSet::new(alloc),
        }
    }

    /// The names of `words`, in their order.
    pub(crate) fn of(alloc: Global, words: &[&str]) -> Result<Names, NoMemory>
        requires few { length words.now ≤ 1024 }
        requires named { list_all is_name (map (λ w. w.now) words.now) ≡ true }
        ensures { IfOk result (λ n. n ≡ with_names (map (λ w. w.now) words.now)) }
    {
        let mut names = Names::new(alloc);
        for word in words {
            names.add(alloc, word)?;
        }
        Ok(names)
    }

    /// Adds the name last, unless it is there, and says whether it is new.
    pub(crate) fn add(&mut self, alloc: Global, name: &str) -> Result<bool, NoMemory>
        requires room { length self.old < 1024 }
        requires named { is_name name.now ≡ true }
        ensures ok { OnOk result (self.new ≡ with_name self.old name.now) }
        ensures is_new { IfOk result (λ is_new. is_new ≡ not (is_among name.now self.old)) }
        ensures count { length self.new ≤ length self.old + 1 }
    {
        let name = String::from_str(alloc, name)?;
        Ok(self.names.insert(name)?)
    }

    pub(crate) fn count(&self) -> u32
        ensures value { result ≡ length self.now }
        ensures most { length self.now ≤ 1024 }
        ensures named { are_names self.now ≡ true }
    {
        self.names.len() as u32
    }

    /// The place of a name, by its hash.
    pub(crate) fn find(&self, name: &[u8]) -> Option<u32>
        ensures place { result ≡ position (λ n. bytes_eq name.now n) self.now }
        ensures within { IfSome result (λ place. place < length self.now) }
    {
        let names = &self.names;
        let Ok(name) = str::from_utf8(name) else {
            return None;
        };
        match names.get_index_of(name) {
            Some(place) => Some(place as u32),
            None => None,
        }
    }

    /// The name at a place.
    pub(crate) fn get(&self, place: u32) -> &str
        requires { place < length self.now }
        ensures { slice_get self.now place ≡ Some result.now }
    {
        match self.names.get_index(place as usize) {
            Some(name) => name.as_str(),
            None => unreachable!(),
        }
    }
}
