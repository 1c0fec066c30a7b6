ghost use Rattle.std.specs.Prelude.{◌≡◌, [], ◌++◌, length};
ghost use Rattle.std.specs.Iterator.{at_most};
ghost use Rattle.std.specs.Map.Iter.{TakesFirst, deref_pair};
ghost use Rattle.key_table.specs.Places.{entries_of, AreFilled};

use crate::{Datum, Slot};
use std::marker::Model;
use std::slice;

/// The entries of a payment that are left, in order.
// Those of one run, and the runs after it, of which none is empty.
#[derive(Drop)]
pub struct Entries<'a> {
    run: slice::Iter<'a, (Slot, Datum)>,
    later: slice::Iter<'a, Vec<(Slot, Datum)>>,
}

impl<'a> Model for Entries<'a> {
    ghost use Rattle.std.specs.Prelude.{◌++◌, List};
    ghost use Rattle.std.specs.Slice.Iter.{iter_rest};
    ghost use Rattle.key_table.specs.declared.slot.Slot.{Slot};
    ghost use Rattle.key_table.specs.declared.slot.Datum.{Datum};
    ghost use Rattle.key_table.specs.Places.{entries_of, AreFilled};

    ghost Value = { List (Slot × Datum) };

    ghost view = { λ e. iter_rest e.run ++ entries_of (iter_rest e.later) };

    ghost invariant = { λ e. AreFilled (iter_rest e.later) };
}

impl<'a> Entries<'a> {
    /// The entries of a run, and of the runs after it.
    pub(crate) fn new(run: &'a [(Slot, Datum)], later: &'a [Vec<(Slot, Datum)>]) -> Entries<'a>
        requires { AreFilled later.now }
        ensures { result ≡ run.now ++ entries_of later.now }
    {
        Entries {
            run: run.iter(),
            later: later.iter(),
        }
    }

    /// No entries.
    pub(crate) fn none() -> Entries<'a>
        ensures { result ≡ [] }
    {
        Entries::new(&[], &[])
    }
}

impl<'a> Iterator for Entries<'a> {
    type Item = (&'a Slot, &'a Datum);

    ghost next_gives = { TakesFirst deref_pair };

    ghost remaining = { λ s. at_most (length s) };

    fn next(&mut self) -> Option<(&'a Slot, &'a Datum)> {
        if let Some(entry) = self.run.next() {
            return Some((&entry.0, &entry.1));
        }
        self.run = self.later.next()?.iter();
        let entry = self.run.next()?;
        Some((&entry.0, &entry.1))
    }
}

/// The entries under a key that are left, in order.
// What is left of all entries from the key's first on, up to another key.
#[derive(Drop)]
pub struct Under<'a> {
    key: u32,
    entries: Entries<'a>,
}

impl<'a> Model for Under<'a> {
    ghost use Rattle.std.specs.Prelude.{◌==◌, List};
    ghost use Rattle.key_table.specs.declared.slot.Slot.{Slot};
    ghost use Rattle.key_table.specs.declared.slot.Datum.{Datum};
    ghost use Rattle.key_table.specs.Places.{front_under};

    ghost Value = { List (Slot × Datum) };

    ghost view = { λ u. front_under u.key u.entries };
}

impl<'a> Under<'a> {
    ghost use Rattle.key_table.specs.Places.{front_under};

    /// The entries under a key with which the entries begin.
    pub(crate) fn new(key: u32, entries: Entries<'a>) -> Under<'a>
        ensures { result ≡ front_under key entries.entry }
    {
        Under { key, entries }
    }
}

impl<'a> Iterator for Under<'a> {
    type Item = (&'a Slot, &'a Datum);

    ghost next_gives = { TakesFirst deref_pair };

    ghost remaining = { λ s. at_most (length s) };

    #[tactic(auto, using(crate::proofs::UnderKeys::front_under_here))]
    fn next(&mut self) -> Option<(&'a Slot, &'a Datum)> {
        match self.entries.next() {
            Some((slot, datum)) if slot.key == self.key => Some((slot, datum)),
            _ => {
                self.entries = Entries::none();
                None
            }
        }
    }
}
