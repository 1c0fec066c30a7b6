ghost use Rattle.std.specs.Prelude.{◌≡◌, ◌&&◌, ◌↔◌, IfOk, not, true, false, Some, slice_get, IsTrue};
ghost use Rattle.std.specs.List.{list_any, Contains};
ghost use Rattle.key_table.specs.declared.atom.Verdict3.TheVariants.{Undecided};
ghost use Rattle.constraint_graph.specs.Graphs.{atoms_of};
ghost use Rattle.domain_store.specs.Stores.{context_of};
ghost use Rattle.domain_store.specs.Verdicts.{HasGoalVerdict};
ghost use Rattle.rule_problem.specs.Open.{IsOpen, Matters};
ghost use Rattle.rule_search.specs.Told.{is_forced, AreVerdicts};
ghost use Rattle.rule_search.specs.Choosing.{stands_in, stands_in_open, stands_in_wants, IsLiveAt};
ghost use Rattle.rule_search.specs.Standings.{AreNumbered};

use crate::proposing::Guide;
use crate::verdicts::{has_entailed, is_forced, is_refuted};
use domain_store::Store;
use key_table::{Atom, NoMemory, Seq, Verdict3};
use rule_problem::{Literal, fits_law, goal_law, live_law};
use std::alloc::Global;

/// The number of a live atom, by the verdicts of the atoms and of the goal: the one that is proposed, if it is live.
pub(crate) fn choose(
    alloc: Global,
    store: &Store<'_>,
    guide: &Guide,
    verdicts: &[Verdict3],
    goal: Verdict3,
) -> Result<u32, NoMemory>
    requires numbered { AreNumbered store.now.problem }
    requires verdicts { AreVerdicts store.now verdicts.now }
    requires goal { HasGoalVerdict store.now goal }
    requires is_open { IsOpen store.now.table store.now.problem (context_of store.now) }
    ensures { IfOk result (IsLiveAt store.now) }
{
    match guide.proposed(alloc, store.problem(), verdicts, goal)? {
        Some(atom) if is_live(store, verdicts, goal, atom) => Ok(atom),
        _ => Ok(first_live(store, verdicts, goal)),
    }
}

// The first live atom.
fn first_live(store: &Store<'_>, verdicts: &[Verdict3], goal: Verdict3) -> u32
    requires numbered { AreNumbered store.now.problem }
    requires verdicts { AreVerdicts store.now verdicts.now }
    requires goal { HasGoalVerdict store.now goal }
    requires is_open { IsOpen store.now.table store.now.problem (context_of store.now) }
    ensures { IsLiveAt store.now result }
{
    live_law();
    fits_law();
    let count = store.problem().atoms.as_slice().len() as u32;
    for atom in 0..count {
        if is_live(store, verdicts, goal, atom) {
            return atom;
        }
    }
    unreachable!()
}

// Whether the atom with a number is live.
fn is_live(store: &Store<'_>, verdicts: &[Verdict3], goal: Verdict3, number: u32) -> bool
    requires numbered { AreNumbered store.now.problem }
    requires verdicts { AreVerdicts store.now verdicts.now }
    requires goal { HasGoalVerdict store.now goal }
    ensures live { result ≡ true → IsLiveAt store.now number }
    ensures dead { IsLiveAt store.now number → result ≡ true }
{
    match store.problem().atoms.as_slice().get(number as usize) {
        Some(atom) => {
            is_undecided(verdicts, number) && matters(store, verdicts, goal, number, atom)
        }
        None => false,
    }
}

// Whether no truth is forced on the atom.
fn is_undecided(verdicts: &[Verdict3], atom: u32) -> bool
    ensures { result ≡ (not (is_forced verdicts.now atom true) && not (is_forced verdicts.now atom false)) }
{
    !is_forced(verdicts, atom, true) && !is_forced(verdicts, atom, false)
}

// Whether the atom with a number stands where it matters.
fn matters(
    store: &Store<'_>,
    verdicts: &[Verdict3],
    goal: Verdict3,
    number: u32,
    atom: &Atom,
) -> bool
    requires numbered { AreNumbered store.now.problem }
    requires verdicts { AreVerdicts store.now verdicts.now }
    requires goal { HasGoalVerdict store.now goal }
    requires there { slice_get store.now.problem.atoms number ≡ Some atom.now }
    ensures yes { result ≡ true → Matters store.now.table store.now.problem (context_of store.now) atom.now }
    ensures no { Matters store.now.table store.now.problem (context_of store.now) atom.now → result ≡ true }
{
    goal_law();
    let problem = store.problem();
    if stands_in_wants(verdicts, problem.wants.as_slice(), number) {
        return true;
    }
    if stands_in_open(verdicts, problem.bars.as_slice(), number) {
        return true;
    }
    awaits_goal(store, goal, atom)
}

// Whether the goal is undecided, and the atom is one of the graph.
fn awaits_goal(store: &Store<'_>, goal: Verdict3, atom: &Atom) -> bool
    ensures { IsTrue result ↔ ((goal ≡ Undecided) × Contains (atoms_of store.now.problem.graph) atom.now) }
{
    let problem = store.problem();
    match goal {
        Verdict3::Undecided => problem.graph.has_atom(problem.goal, atom),
        Verdict3::Entailed | Verdict3::Refuted => false,
    }
}

// Whether the atom stands in a path without a refuted literal of a want that has no entailed path.
fn stands_in_wants(verdicts: &[Verdict3], wants: &[Seq<Seq<Literal>>], atom: u32) -> bool
    ensures { result ≡ stands_in_wants verdicts.now atom wants.now }
{
    wants.iter().any(|paths| {
        !has_entailed(verdicts, paths.as_slice())
            && stands_in_open(verdicts, paths.as_slice(), atom)
    })
}

// Whether the atom stands in a path without a refuted literal.
fn stands_in_open(verdicts: &[Verdict3], paths: &[Seq<Literal>], atom: u32) -> bool
    ensures { result ≡ list_any (stands_in_open verdicts.now atom) paths.now }
{
    paths.iter().any(|path| {
        stands_in(path.as_slice(), atom) && !is_refuted(verdicts, path.as_slice())
    })
}

// Whether the atom stands in the path.
fn stands_in(path: &[Literal], atom: u32) -> bool
    ensures { result ≡ stands_in atom path.now }
{
    path.iter().any(|literal| literal.atom == atom)
}
