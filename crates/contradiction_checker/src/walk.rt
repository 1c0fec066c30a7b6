ghost use Rattle.std.specs.Prelude.{◌≡◌, ◌<◌, ◌≤◌, ◌+◌, ◌^◌, length, vec_len, slice_get, IfOk, MatchOption, None, true, false};
ghost use Rattle.std.specs.List.{list_all};
ghost use Rattle.key_table.specs.Atoms.{atom_fits};
ghost use Rattle.key_table.specs.Payments.{Entries};
ghost use Rattle.rule_problem.specs.Problems.{problem_fits, sat};
ghost use Rattle.rule_problem.specs.Proving.{split_of, Proves};
ghost use Rattle.contradiction_checker.specs.Assumed.{context_of};
ghost use Rattle.contradiction_checker.specs.Decisions.{reason_holds};
ghost use Rattle.contradiction_checker.specs.Findings.{AreFound, test_at};
ghost use Rattle.contradiction_checker.specs.Rooms.{HasRoomFor, Extends};
ghost use Rattle.contradiction_checker.specs.Trails.{IsLinked, HasRoom, Widens};
ghost use Rattle.contradiction_checker.specs.Judging.{Judges, SplitsOn, EndsAt};

use crate::notes::Notes;
use crate::premises::Premises;
use crate::scratch::Scratch;
use crate::trail::Trail;
use constraint_graph::agree_law;
use key_table::{Atom, KeyTable, NoMemory, atom_law};
use rule_problem::{Certificate, Item, Problem, outcome_law, proof_law};
use std::alloc::Global;

/// What a certificate is judged to be: that its items prove, or that they do not, and at which item. Items are counted from 0
/// in preorder.
#[derive(Clone, Copy, Debug, PartialEq, Eq)]
pub enum Verdict {
    Accepted,
    Rejected(u32),
}

/// Judges whether the items of a certificate prove that no payment satisfies the problem. Accepted exactly where they do, and
/// then none does. Else rejected at the first item that fails, at the number of items where these end too early, or at the
/// first item that is left over. The problem and each atom of the certificate fit the table.
pub fn check(
    alloc: Global,
    table: &KeyTable,
    problem: &Problem,
    certificate: &Certificate,
) -> Result<Verdict, NoMemory>
    requires problem { problem_fits table.now problem.now ≡ true }
    requires atoms { list_all (atom_fits table.now) certificate.now.atoms ≡ true }
    requires few_atoms { length certificate.now.atoms < 2 ^ 32 }
    requires few_items { length certificate.now.items < 2 ^ 32 }
    ensures judged { IfOk result (Judges table.now problem.now certificate.now) }
    ensures exact { IfOk result (λ verdict. Proves table.now problem.now certificate.now → verdict ≡ Verdict.Accepted) }
    ensures sound { IfOk result (λ verdict. verdict ≡ Verdict.Accepted → (payment : Entries) → sat table.now problem.now payment ≡ false) }
{
    let certified = certificate.atoms.as_slice().len() as u32;
    let asked = problem.atoms.as_slice().len();
    let atoms = u32::try_from(asked).unwrap_or(certified).max(certified);
    let items = certificate.items.as_slice().len() as u32;
    let mut scratch = Scratch::for_sizes(alloc, atoms, items, problem.graph.count())?;
    Ok(check_in(table, problem, certificate, &mut scratch))
}

/// The verdict of `check`, in room for the certificate's atoms and items and for the graph's nodes that was taken before. It
/// takes no memory, and leaves the room as it was.
pub fn check_in(
    table: &KeyTable,
    problem: &Problem,
    certificate: &Certificate,
    scratch: &mut Scratch,
) -> Verdict
    requires problem { problem_fits table.now problem.now ≡ true }
    requires atoms { list_all (atom_fits table.now) certificate.now.atoms ≡ true }
    requires room_for_atoms { length certificate.now.atoms ≤ scratch.old.0 }
    requires room_for_items { length certificate.now.items ≤ scratch.old.1 }
    requires room_for_nodes { length problem.now.graph ≤ scratch.old.2 }
    ensures judged { Judges table.now problem.now certificate.now result }
    ensures exact { Proves table.now problem.now certificate.now → result ≡ Verdict.Accepted }
    ensures sound { result ≡ Verdict.Accepted → (payment : Entries) → sat table.now problem.now payment ≡ false }
    ensures room { scratch.new ≡ scratch.old }
{
    outcome_law();
    proof_law();
    walk(
        table,
        problem,
        certificate.atoms.as_slice(),
        certificate.items.as_slice(),
        &mut scratch.trail,
        &mut scratch.notes,
    )
}

// Goes over the items with one list of assumptions. Those that are true are the splits whose false side is to come.
fn walk(
    table: &KeyTable,
    problem: &Problem,
    atoms: &[Atom],
    items: &[Item],
    trail: &mut Trail,
    notes: &mut Notes,
) -> Verdict
    requires problem { problem_fits table.now problem.now ≡ true }
    requires atoms { list_all (atom_fits table.now) atoms.now ≡ true }
    requires few { length items.now < 2 ^ 32 }
    requires few_atoms { length atoms.now < 2 ^ 32 }
    requires room { HasRoom (length atoms.now) (length items.now) trail.old }
    requires room_for_notes { HasRoomFor (length items.now) (length problem.now.graph) notes.old }
    ensures value { Judges table.now problem.now (record { atoms = atoms.now; items = items.now }) result }
    ensures room { Widens trail.old trail.new }
    ensures room_for_notes { Extends notes.old notes.new }
{
    atom_law();
    agree_law();
    trail.clear(atoms.len() as u32);
    notes.clear(problem.atoms.as_slice().len(), problem.graph.count());
    for (i, item) in items.iter().enumerate() {
        if let Some(atom) = atom_of_split(atoms, *item) {
            trail.push(atoms, atom);
            continue;
        }
        if !reason_holds(table, problem, atoms, trail, *item, notes) {
            return Verdict::Rejected(i as u32);
        }
        if !trail.turn(atoms) {
            return at_end(i + 1, items.len());
        }
    }
    Verdict::Rejected(items.len() as u32)
}

// The verdict where all that was to be proved is proved before the item `next`.
fn at_end(next: usize, count: usize) -> Verdict
    requires within { next ≤ count }
    requires few { count < 2 ^ 32 }
    ensures { EndsAt next count result }
{
    if next == count {
        Verdict::Accepted
    } else {
        Verdict::Rejected(next as u32)
    }
}

// The number of the atom on which an item splits.
fn atom_of_split(atoms: &[Atom], item: Item) -> Option<u32>
    ensures { MatchOption result (split_of atoms.now item ≡ None) (SplitsOn atoms.now item) }
{
    match item {
        Item::Split(x) => ((x as usize) < atoms.len()).then_some(x),
        _ => None,
    }
}

// Whether an item is a reason that holds under the assumptions.
fn reason_holds(
    table: &KeyTable,
    problem: &Problem,
    atoms: &[Atom],
    trail: &Trail,
    item: Item,
    notes: &mut Notes,
) -> bool
    requires linked { IsLinked atoms.now trail.now }
    requires room { HasRoomFor (vec_len trail.now.assumed) (length problem.now.graph) notes.old }
    requires of_atoms { AreFound table.now atoms.now trail.now (slice_get problem.now.atoms) notes.old.of_atoms.items }
    requires of_nodes { AreFound table.now atoms.now trail.now (test_at problem.now.graph) notes.old.of_nodes.items }
    ensures value { result ≡ reason_holds table.now problem.now atoms.now (context_of atoms.now trail.now.assumed.items) item }
    ensures of_atoms { AreFound table.now atoms.now trail.now (slice_get problem.now.atoms) notes.new.of_atoms.items }
    ensures of_nodes { AreFound table.now atoms.now trail.now (test_at problem.now.graph) notes.new.of_nodes.items }
    ensures room { Extends notes.old notes.new }
{
    let premises = Premises {
        table,
        atoms,
        trail,
    };
    premises.reason_holds(problem, item, notes)
}
