ghost use Rattle.std.specs.Prelude.{◌≡◌, ◌++◌, ◌∷◌, [], List, Some, slice_get, IfOk, OnOk, option_copied};
ghost use Rattle.std.specs.Option.{option_to_list};
ghost use Rattle.key_table.specs.declared.atom.Atom.{Atom};
ghost use Rattle.constraint_graph.specs.Graphs.{atoms_of};
ghost use Rattle.rule_report.specs.Numbered.{IsGrown, AreNumbersOf};

use constraint_graph::Graph;
use indexmap::IndexSet;
use key_table::{Atom, NoMemory, Seq, atom_law};
use std::alloc::Global;

/// The numbers of some atoms, of which a new one gets the next number. So many that a number has no room are want of memory.
pub(crate) fn number_atoms(
    alloc: Global,
    atoms: &mut IndexSet<Atom>,
    condition: &[Atom],
) -> Result<Seq<u32>, NoMemory>
    ensures grown { OnOk result (IsGrown atoms.old.keys atoms.new.keys) }
    ensures right { IfOk result (λ numbers. AreNumbersOf atoms.new.keys numbers condition.now) }
{
    let mut numbers = Seq::with_capacity(alloc, condition.len())?;
    for atom in condition {
        push_number(atoms, atom, &mut numbers)?;
    }
    Ok(numbers)
}

/// The numbers of the atoms of a graph's test nodes, node by node.
pub(crate) fn number_graph(
    alloc: Global,
    atoms: &mut IndexSet<Atom>,
    graph: &Graph,
) -> Result<Seq<u32>, NoMemory>
    ensures grown { OnOk result (IsGrown atoms.old.keys atoms.new.keys) }
    ensures right { IfOk result (λ numbers. AreNumbersOf atoms.new.keys numbers (atoms_of graph.now)) }
{
    let mut numbers = Seq::new(alloc);
    for node in 0..graph.count() {
        push_number_of_node(atoms, graph.atom(node), &mut numbers)?;
    }
    Ok(numbers)
}

// The number of a node's atom, where it has one, stands last.
fn push_number_of_node(
    atoms: &mut IndexSet<Atom>,
    atom: Option<&Atom>,
    numbers: &mut Seq<u32>,
) -> Result<(), NoMemory>
    ensures grown { OnOk result (IsGrown atoms.old.keys atoms.new.keys) }
    ensures right { (there : List Atom) → AreNumbersOf atoms.old.keys numbers.old there → OnOk result (AreNumbersOf atoms.new.keys numbers.new (there ++ option_to_list (option_copied atom.entry))) }
{
    match atom {
        Some(atom) => push_number(atoms, atom, numbers),
        None => Ok(()),
    }
}

// The number of an atom stands last.
fn push_number(
    atoms: &mut IndexSet<Atom>,
    atom: &Atom,
    numbers: &mut Seq<u32>,
) -> Result<(), NoMemory>
    ensures grown { OnOk result (IsGrown atoms.old.keys atoms.new.keys) }
    ensures right { (there : List Atom) → AreNumbersOf atoms.old.keys numbers.old there → OnOk result (AreNumbersOf atoms.new.keys numbers.new (there ++ atom.now ∷ [])) }
{
    let number = number_of(atoms, atom)?;
    numbers.push(number)
}

// The number of an atom. A new one gets the next number.
fn number_of(atoms: &mut IndexSet<Atom>, atom: &Atom) -> Result<u32, NoMemory>
    ensures grown { OnOk result (IsGrown atoms.old.keys atoms.new.keys) }
    ensures right { IfOk result (λ number. slice_get atoms.new.keys number ≡ Some atom.now) }
{
    atom_law();
    let (place, _) = atoms.insert_full(atom.copy()?)?;
    number(place)
}

/// A place as a number. Where it has no room in one, that is want of memory.
pub(crate) fn number(place: usize) -> Result<u32, NoMemory>
    ensures { IfOk result (λ number. number ≡ place) }
{
    match u32::try_from(place) {
        Ok(number) => Ok(number),
        Err(_) => Err(NoMemory),
    }
}
