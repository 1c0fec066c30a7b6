ghost use Rattle.std.specs.Prelude.{◌≡◌, true};
ghost use Rattle.key_table.specs.declared.atom.Atom.{Atom};
ghost use Rattle.key_table.specs.declared.slot.Slot.{Slot};
ghost use Rattle.key_table.specs.Slots.{slot_cmp, SameSlotLaw};
ghost use Rattle.key_table.specs.Payments.{PutLegalLaw, FoundLegalLaw};
ghost use Rattle.key_table.specs.Contexts.{AssumedLaw, MoreLaw, VerdictLaw, LeftLaw};

use crate::{Atom, Slot};

/// A legal payment stays legal where a value that fits is put. A payment whose slots ascend is legal where what is found
/// at each slot fits there.
pub fn legal_law()
    ensures put { PutLegalLaw }
    ensures found { FoundLegalLaw }
{}

/// Slots that compare equal are equal, and their order is the one by keys and sub names.
pub fn slot_law()
    ensures same { SameSlotLaw }
    ensures order { (s t : Slot) → ⟦<Slot as Ord>⟧.cmp s t ≡ slot_cmp s t }
    ensures equal { (s t : Slot) → ⟦<Slot as PartialEq>⟧.eq s t ≡ true → s ≡ t }
{}

/// Atoms that are found equal are equal.
pub fn atom_law()
    ensures { (a b : Atom) → ⟦<Atom as PartialEq>⟧.eq a b ≡ true → a ≡ b }
{}

/// An assumption is forced, and what fewer assumptions force, more assumptions force.
pub fn forces_law()
    ensures assumed { AssumedLaw }
    ensures more { MoreLaw }
{}

/// The options that a context leaves to a slot as a set, and the verdict of an atom on that set.
pub fn left_law()
    ensures options { LeftLaw }
    ensures verdict { VerdictLaw }
{}
