ghost use Rattle.std.specs.Prelude.{◌≡◌, ◌++◌, [], IfOk, OnOk, map, fold};
ghost use Rattle.vir_lowering.specs.Atoms.{atom_of};
ghost use Rattle.std.specs.List.{list_any};
ghost use Rattle.vir_lowering.specs.Grouped.{is_slot, atoms_at, grouped};
ghost use Rattle.vir_lowering.specs.Groups.{with_atom, atoms_of_groups};

use crate::atom::atom_of;
use dir_typing::DirComparison;
use indexmap::IndexMap;
use key_table::{Atom, NoMemory, Seq, Slot};
use std::alloc::Global;

/// How many comparisons are compared with each other. The slots of more are found by hash.
const FEW: usize = 16;

/// The atoms of the comparisons by their slots: the slots in order of first appearance, the atoms of a slot in source
/// order.
pub(crate) fn condition(alloc: Global, comparisons: &[DirComparison]) -> Result<Seq<Atom>, NoMemory>
    ensures { IfOk result (λ c. c ≡ grouped (map atom_of comparisons.now)) }
{
    if comparisons.len() <= FEW {
        by_comparing(alloc, comparisons)
    } else {
        by_hash(alloc, comparisons)
    }
}

// At each slot that is new, all atoms at that slot.
fn by_comparing(alloc: Global, comparisons: &[DirComparison]) -> Result<Seq<Atom>, NoMemory>
    ensures { IfOk result (λ c. c ≡ grouped (map atom_of comparisons.now)) }
{
    let mut atoms = Seq::with_capacity(alloc, comparisons.len())?;
    for (i, comparison) in comparisons.iter().enumerate() {
        if !stands_among(&comparison.slot, &comparisons[..i]) {
            add_all_at(alloc, &mut atoms, &comparison.slot, comparisons)?;
        }
    }
    Ok(atoms)
}

// Whether one of the comparisons has the slot.
fn stands_among(slot: &Slot, comparisons: &[DirComparison]) -> bool
    ensures { result ≡ list_any (λ (c : DirComparison). is_slot slot.now c.slot) comparisons.now }
{
    comparisons
        .iter()
        .any(|comparison| is_slot(slot, &comparison.slot))
}

#[tactic(auto, using(crate::proofs::SameSlots::slots_alike))]
fn is_slot(slot: &Slot, other: &Slot) -> bool
    ensures { result ≡ is_slot slot.now other.now }
{
    slot == other
}

// Adds the atoms at a slot, in source order.
fn add_all_at(
    alloc: Global,
    atoms: &mut Seq<Atom>,
    slot: &Slot,
    comparisons: &[DirComparison],
) -> Result<(), NoMemory>
    ensures { OnOk result (atoms.new ≡ atoms.old ++ atoms_at (map atom_of comparisons.now) slot.now) }
{
    for comparison in comparisons {
        if is_slot(&comparison.slot, slot) {
            atoms.push(atom_of(alloc, comparison)?)?;
        }
    }
    Ok(())
}

// The groups of the slots, one after another.
#[tactic(auto, using(crate::proofs::GroupedAtoms::groups_joined))]
fn by_hash(alloc: Global, comparisons: &[DirComparison]) -> Result<Seq<Atom>, NoMemory>
    ensures { IfOk result (λ c. c ≡ grouped (map atom_of comparisons.now)) }
{
    let groups = groups_of(alloc, comparisons)?;
    joined(alloc, &groups)
}

// The atoms of the comparisons, a group for each slot.
fn groups_of(
    alloc: Global,
    comparisons: &[DirComparison],
) -> Result<IndexMap<Slot, Seq<Atom>>, NoMemory>
    ensures { IfOk result (λ g. g.entries ≡ fold with_atom [] (map atom_of comparisons.now)) }
{
    let mut groups = IndexMap::new(alloc);
    for comparison in comparisons {
        add(alloc, &mut groups, atom_of(alloc, comparison)?)?;
    }
    Ok(groups)
}

// Adds an atom to the group of its slot. The group of a new slot goes last.
#[tactic(auto, using(crate::proofs::GroupedAtoms::entry_added))]
fn add(alloc: Global, groups: &mut IndexMap<Slot, Seq<Atom>>, atom: Atom) -> Result<(), NoMemory>
    ensures { OnOk result (groups.new.entries ≡ with_atom groups.old.entries atom) }
{
    let slot = atom.slot.copy()?;
    let group = groups.entry(slot)?.or_insert(Seq::new(alloc));
    group.push(atom)?;
    Ok(())
}

// The atoms of all groups, one group after another.
fn joined(alloc: Global, groups: &IndexMap<Slot, Seq<Atom>>) -> Result<Seq<Atom>, NoMemory>
    ensures { IfOk result (λ a. a ≡ atoms_of_groups groups.now.entries) }
{
    let mut atoms = Seq::new(alloc);
    for (_, group) in groups {
        append(&mut atoms, group.as_slice())?;
    }
    Ok(atoms)
}

fn append(atoms: &mut Seq<Atom>, group: &[Atom]) -> Result<(), NoMemory>
    ensures { OnOk result (atoms.new ≡ atoms.old ++ group.now) }
{
    for atom in group {
        atoms.push(atom.copy()?)?;
    }
    Ok(())
}
