ghost use Rattle.std.specs.Prelude.{◌≡◌, true, OnOk, OnErr, IfOk};
ghost use Rattle.std.specs.Bool.{MatchBool};
ghost use Rattle.key_table.specs.declared.slot.Slot as slots;
ghost use Rattle.key_table.specs.Atoms.{atom_fits};
ghost use Rattle.key_table.specs.OptionSets.{Options, HasOption, IsVerdict, kept};
ghost use Rattle.interval_domains.specs.Picks.{HasNoOption, IsPick};

use key_table::{Atom, Datum, KeyTable, NoMemory, Verdict3};
use std::alloc::Global;

/// A set of options of one slot. The options of a slot are absence, and each value that is legal there. An atom is true
/// on the values that pass its tests, and never on absence. No call changes the slot.
pub trait SlotSet {
    ghost slot: { Self → slots.Slot };

    ghost members: { Self → Options };

    /// Given an atom on this slot that fits the table, and a truth: leaves exactly the options in the set on which the
    /// atom has this truth. For want of memory it leaves the set as it was.
    fn keep(
        &mut self,
        alloc: Global,
        table: &KeyTable,
        atom: &Atom,
        truth: bool,
    ) -> Result<(), NoMemory>
        requires fits { atom_fits table.now atom.now ≡ true }
        requires own { atom.now.slot ≡ slot self.old }
        ensures slot { slot self.new ≡ slot self.old }
        ensures ok { OnOk result (members self.new ≡ kept atom.now truth (members self.old)) }
        ensures err { OnErr result (self.new ≡ self.old) };

    /// What the set, which has some option, tells of an atom on this slot that fits the table: `Entailed` where it is
    /// true on every option in the set, `Refuted` where it is true on none, and else `Undecided`.
    fn verdict(&self, table: &KeyTable, atom: &Atom) -> Verdict3
        requires fits { atom_fits table.now atom.now ≡ true }
        requires own { atom.now.slot ≡ slot self.now }
        requires filled { HasOption (members self.now) }
        ensures { IsVerdict (members self.now) atom.now result };

    /// Whether no option is in the set.
    fn is_void(&self) -> bool
        ensures { MatchBool result (HasNoOption (members self.now)) (HasOption (members self.now)) };

    /// An option of the set, which has some: absence, as `None`, where it is in the set. Else the least variant, the
    /// least number, or of texts that of 256 letters `a` where it is in the set, and else the least by bytes.
    fn pick(&self, alloc: Global) -> Result<Option<Datum>, NoMemory>
        requires { HasOption (members self.now) }
        ensures { IfOk result (IsPick (members self.now)) };
}
