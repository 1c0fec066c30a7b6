ghost use Rattle.std.specs.Prelude.{◌≡◌, ◌<◌, ℕ, [], length, map, slice_get, true, Some, IfOk};
ghost use Rattle.std.specs.List.{All, Contains};
ghost use Rattle.key_table.specs.declared.slot.Slot.{Slot};
ghost use Rattle.key_table.specs.declared.atom.Atom.{Atom};
ghost use Rattle.key_table.specs.Tables.{slot_fits};
ghost use Rattle.interval_domains.specs.Members.{slot_of};
ghost use Rattle.domain_store.specs.Kept.{atom_at, ArePlaces, AreNodePlaces, AreFull};

use constraint_graph::Graph;
use indexmap::IndexSet;
use interval_domains::SlotDomain;
use key_table::{Atom, KeyTable, NoMemory, Slot, slot_law};
use std::alloc::Global;

/// Adds the slots of the atoms, each once, and gives for each atom the place of its slot.
pub(crate) fn slot_places(
    alloc: Global,
    slots: &mut IndexSet<Slot>,
    atoms: &[Atom],
) -> Result<Vec<usize>, NoMemory>
    requires { slots.old.keys ≡ [] }
    ensures { IfOk result (λ places. ArePlaces atoms.now slots.new.keys places.items) }
{
    slot_law();
    let mut places = Vec::with_capacity(alloc, atoms.len())?;
    for atom in atoms {
        let (place, _) = slots.insert_full(atom.slot.copy()?)?;
        places.push(place)?;
    }
    Ok(places)
}

/// For each node of a graph the place of its atom's slot, 0 where it has no atom.
pub(crate) fn node_places(
    alloc: Global,
    slots: &IndexSet<Slot>,
    graph: &Graph,
) -> Result<Vec<usize>, NoMemory>
    requires { (node : ℕ) (atom : Atom) → atom_at graph.now node ≡ Some (Some atom) → Contains slots.now.keys atom.slot }
    ensures { IfOk result (λ places. AreNodePlaces graph.now slots.now.keys places.items) }
{
    let mut places = Vec::with_capacity(alloc, graph.count() as usize)?;
    for node in 0..graph.count() {
        places.push(node_place(slots, graph, node))?;
    }
    Ok(places)
}

// The place of the slot of a node's atom, 0 where it has no atom.
fn node_place(slots: &IndexSet<Slot>, graph: &Graph, node: u32) -> usize
    requires node { node < length graph.now }
    requires there { (atom : Atom) → atom_at graph.now node ≡ Some (Some atom) → Contains slots.now.keys atom.slot }
    ensures { (atom : Atom) → atom_at graph.now node ≡ Some (Some atom) → slice_get slots.now.keys result ≡ Some atom.slot }
{
    match graph.atom(node) {
        Some(atom) => place_of(slots, &atom.slot),
        None => 0,
    }
}

// The place of a slot that is there.
fn place_of(slots: &IndexSet<Slot>, slot: &Slot) -> usize
    requires { Contains slots.now.keys slot.now }
    ensures { slice_get slots.now.keys result ≡ Some slot.now }
{
    slot_law();
    match slots.get_index_of(slot) {
        Some(place) => place,
        None => unreachable!(),
    }
}

/// All options of each slot.
pub(crate) fn full_domains(
    alloc: Global,
    table: &KeyTable,
    slots: &IndexSet<Slot>,
) -> Result<Vec<SlotDomain>, NoMemory>
    requires { All (λ (s : Slot). slot_fits table.now s ≡ true) slots.now.keys }
    ensures slots { IfOk result (λ domains. map slot_of domains.items ≡ slots.now.keys) }
    ensures full { IfOk result (λ domains. AreFull table.now domains.items) }
{
    let mut domains = Vec::with_capacity(alloc, slots.len())?;
    for slot in slots {
        domains.push(SlotDomain::full(alloc, table, slot)?)?;
    }
    Ok(domains)
}
