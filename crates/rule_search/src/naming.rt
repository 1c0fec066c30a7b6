ghost use Rattle.std.specs.Prelude.{◌≡◌, ◌<◌, ◌^◌, ◌==◌, [], ◌++◌, IfOk, OnOk, IfSome, length, map, true, slice_get};
ghost use Rattle.std.specs.List.{list_any, AllByRecursion, filter_map, cons_option};
ghost use Rattle.rule_search.specs.Naming.{atom_of, numbers_of, firsts, place_of, renumbered};

use indexmap::IndexSet;
use key_table::{Atom, NoMemory, Seq};
use rule_problem::Item;
use std::alloc::Global;

// The numbers of the atoms that the items name, each once, in order of first naming.
fn numbers_in(alloc: Global, items: &[Item]) -> Result<IndexSet<u32>, NoMemory>
    ensures { IfOk result (λ numbers. numbers.keys ≡ firsts (numbers_of items.now)) }
{
    let mut numbers = IndexSet::new(alloc);
    for item in items {
        if let Some(number) = atom_of(*item) {
            numbers.insert(number)?;
        }
    }
    Ok(numbers)
}

// The number of the atom that an item names.
fn atom_of(item: Item) -> Option<u32>
    ensures { result ≡ atom_of item }
{
    match item {
        Item::Split(number) => Some(number),
        Item::Void(number) => Some(number),
        _ => None,
    }
}

// The items, with the atoms' numbers among the given ones.
fn renumbered(alloc: Global, numbers: &IndexSet<u32>, items: &[Item]) -> Result<Seq<Item>, NoMemory>
    requires few { length numbers.now.keys < 2 ^ 32 }
    requires named { AllByRecursion (λ x. list_any (λ y. x == y) numbers.now.keys ≡ true) (numbers_of items.now) }
    ensures { IfOk result (λ list. list ≡ map (renumbered (place_of numbers.now.keys)) items.now) }
{
    let mut list = Seq::new(alloc);
    for item in items {
        list.push(with_number(numbers, *item))?;
    }
    Ok(list)
}

fn with_number(numbers: &IndexSet<u32>, item: Item) -> Item
    requires few { length numbers.now.keys < 2 ^ 32 }
    requires named { IfSome (atom_of item) (λ x. list_any (λ y. x == y) numbers.now.keys ≡ true) }
    ensures { result ≡ renumbered (place_of numbers.now.keys) item }
{
    match item {
        Item::Split(number) => Item::Split(place(numbers, number)),
        Item::Void(number) => Item::Void(place(numbers, number)),
        other => other,
    }
}

// The place of a number.
fn place(numbers: &IndexSet<u32>, number: u32) -> u32
    requires few { length numbers.now.keys < 2 ^ 32 }
    requires there { list_any (λ y. number == y) numbers.now.keys ≡ true }
    ensures { result ≡ place_of numbers.now.keys number }
{
    match numbers.get_index_of(&number) {
        Some(place) => place as u32,
        None => unreachable!(),
    }
}

// The atoms with these numbers.
fn atoms_at(alloc: Global, atoms: &[Atom], numbers: &IndexSet<u32>) -> Result<Seq<Atom>, NoMemory>
    ensures { IfOk result (λ list. list ≡ filter_map (slice_get atoms.now) numbers.now.keys) }
{
    let mut list = Seq::new(alloc);
    for number in numbers.as_slice() {
        push_atom(&mut list, atoms, *number)?;
    }
    Ok(list)
}

// Adds the atom with a number, if there is one.
fn push_atom(list: &mut Seq<Atom>, atoms: &[Atom], number: u32) -> Result<(), NoMemory>
    ensures { OnOk result (list.new ≡ list.old ++ cons_option (slice_get atoms.now number) []) }
{
    match atoms.get(number as usize) {
        Some(atom) => list.push(atom.copy()?),
        None => Ok(()),
    }
}

/// The atoms that the items name by their numbers, each once, and the items with the atoms' numbers among these.
pub(crate) fn spelled(
    alloc: Global,
    atoms: &[Atom],
    items: &[Item],
) -> Result<(Seq<Atom>, Seq<Item>), NoMemory>
    requires few { length (numbers_of items.now) < 2 ^ 32 }
    ensures atoms { IfOk result (λ s. s.0 ≡ filter_map (slice_get atoms.now) (firsts (numbers_of items.now))) }
    ensures items { IfOk result (λ s. s.1 ≡ map (renumbered (place_of (firsts (numbers_of items.now)))) items.now) }
{
    let numbers = numbers_in(alloc, items)?;
    let list = renumbered(alloc, &numbers, items)?;
    Ok((atoms_at(alloc, atoms, &numbers)?, list))
}
