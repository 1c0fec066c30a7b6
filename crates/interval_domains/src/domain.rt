ghost use Rattle.std.specs.Prelude.{◌≡◌, ◌<◌, length, true, false, not, ◌&&◌, IfOk};
ghost use Rattle.std.specs.List.{All};
ghost use Rattle.std.specs.Option.{option_map_or};
ghost use Rattle.key_table.specs.declared.slot.Datum as datum;
ghost use Rattle.key_table.specs.Tables.{slot_fits, domain_at, allows};
ghost use Rattle.key_table.specs.Options.{is_option, holds_of};
ghost use Rattle.interval_domains.specs.Finding.{Tells};
ghost use Rattle.interval_domains.specs.TextLists.{HasShortText};
ghost use Rattle.interval_domains.specs.Members.{members, slot_of, has_value, IsPicked};

use crate::SlotSet;
use crate::intervals::Intervals;
use crate::texts::TextList;
use crate::values::Values;
use crate::variants::VariantSet;
use key_table::{Atom, Datum, KeyTable, Kind, NoMemory, Slot, Verdict3};
use std::alloc::Global;

/// A set of options of a slot: variants, intervals of numbers, these texts, or all legal texts but these, each with or
/// without absence.
#[derive(Drop)]
pub struct SlotDomain {
    slot: Slot,
    absent: bool,
    values: Values,
}

impl SlotDomain {
    /// All options of a slot that is legal in the table: absence, and each value that is legal there.
    pub fn full(alloc: Global, table: &KeyTable, slot: &Slot) -> Result<SlotDomain, NoMemory>
        requires { slot_fits table.now slot.now ≡ true }
        ensures slot { IfOk result (λ d. slot_of d ≡ slot.now) }
        ensures options { IfOk result (λ d. members d ≡ is_option table.now slot.now) }
    {
        let values = all_values(alloc, table, slot.key)?;
        Ok(SlotDomain {
            slot: slot.copy()?,
            absent: true,
            values,
        })
    }

    /// An equal set of the same slot.
    pub fn copy(&self, alloc: Global) -> Result<SlotDomain, NoMemory>
        ensures { IfOk result (λ d. d ≡ self.now) }
    {
        Ok(SlotDomain {
            slot: self.slot.copy()?,
            absent: self.absent,
            values: self.values.copy(alloc)?,
        })
    }

    /// The slot whose options these are.
    pub fn slot(&self) -> &Slot
        ensures { result.now ≡ slot_of self.now }
    {
        &self.slot
    }
}

impl SlotSet for SlotDomain {
    ghost slot = { slot_of };

    ghost members = { members };

    fn keep(
        &mut self,
        alloc: Global,
        table: &KeyTable,
        atom: &Atom,
        truth: bool,
    ) -> Result<(), NoMemory> {
        let inside = truth != atom.none_of;
        let values = self.values.kept(alloc, atom.tests.as_slice(), inside)?;
        self.absent = is_kept(self.absent, truth);
        self.values = values;
        Ok(())
    }

    fn verdict(&self, table: &KeyTable, atom: &Atom) -> Verdict3 {
        match (self.has_true(atom), self.has_false(atom)) {
            (true, true) => Verdict3::Undecided,
            (true, false) => Verdict3::Entailed,
            (false, _) => Verdict3::Refuted,
        }
    }

    fn is_void(&self) -> bool {
        !self.absent && !self.values.has_some()
    }

    fn pick(&self, alloc: Global) -> Result<Option<Datum>, NoMemory> {
        picked(alloc, self.absent, &self.values)
    }
}

impl SlotDomain {
    // Whether the atom is true on some option.
    fn has_true(&self, atom: &Atom) -> bool
        requires { All HasShortText atom.now.tests }
        ensures { Tells (λ o. members self.now o && holds_of atom.now o) result }
    {
        let tests = atom.tests.as_slice();
        if atom.none_of {
            self.values.has_failing(tests)
        } else {
            self.values.has_passing(tests)
        }
    }

    // Whether the atom is false on some option, as it is on absence.
    fn has_false(&self, atom: &Atom) -> bool
        requires { All HasShortText atom.now.tests }
        ensures { Tells (λ o. members self.now o && not (holds_of atom.now o)) result }
    {
        let tests = atom.tests.as_slice();
        if self.absent {
            true
        } else if atom.none_of {
            self.values.has_passing(tests)
        } else {
            self.values.has_failing(tests)
        }
    }
}

// Whether absence stays, of which no atom is true.
fn is_kept(absent: bool, truth: bool) -> bool
    ensures { result ≡ (absent && not truth) }
{
    absent && !truth
}

// Absence where it is there, and else the value that comes first.
fn picked(alloc: Global, absent: bool, values: &Values) -> Result<Option<Datum>, NoMemory>
    ensures { IfOk result (IsPicked absent (has_value values.now)) }
{
    if absent {
        Ok(None)
    } else {
        values.first(alloc)
    }
}

// All values that are legal at a key's slots.
fn all_values(alloc: Global, table: &KeyTable, key: u32) -> Result<Values, NoMemory>
    requires { key < length table.now }
    ensures { IfOk result (λ vs. (d : datum.Datum) → has_value vs d ≡ option_map_or (λ domain. allows domain d) (domain_at key table.now) false) }
{
    match table.kind_of(key) {
        Kind::Enum => Ok(Values::Variants(VariantSet::all(alloc, table.variants(key))?)),
        Kind::Number => {
            let (least, greatest) = table.bounds(key);
            Ok(Values::Numbers(Intervals::between(alloc, least, greatest)?))
        }
        Kind::Text | Kind::Metadata => Ok(Values::OtherTexts(TextList::new(alloc))),
    }
}
