ghost use Rattle.std.specs.Prelude.{◌≡◌, ◌<◌, ◌≤◌, IfOk, IfSome, OnOk, true, length};
ghost use Rattle.key_table.specs.declared.atom.Verdict3.TheVariants.{Undecided};
ghost use Rattle.domain_store.specs.Stores.{context_of, more};
ghost use Rattle.domain_store.specs.Verdicts.{AtomHasVerdict};
ghost use Rattle.rule_problem.specs.Literals.{AreEntailed, HasRefuted, AreRefuted};
ghost use Rattle.rule_search.specs.Retracing.{IsReason, ProvesUpTo};
ghost use Rattle.rule_search.specs.Told.{IsForced};

use domain_store::{Store, context_law};
use key_table::{NoMemory, Seq, Verdict3, atom_law};
use rule_problem::{Item, Literal};
use std::alloc::Global;

/// Where the items from a place on end that prove under the assumptions, if they do.
#[cycle(after)]
pub(crate) fn after(
    alloc: Global,
    store: &mut Store<'_>,
    items: &[Item],
    at: usize,
) -> Result<Option<usize>, NoMemory>
    requires within { at ≤ length items.now }
    ensures proves { IfOk result (λ end. IfSome end (ProvesUpTo store.old items.now at)) }
    ensures within { IfOk result (λ end. IfSome end (λ end. end ≤ length items.now)) }
    ensures longer { IfOk result (λ end. IfSome end (λ end. at < end)) }
    ensures store { OnOk result (store.new ≡ store.old) }
{
    atom_law();
    context_law();
    if at == items.len() {
        return Ok(None);
    }
    match items[at] {
        Item::Split(atom) if is_undecided(store, atom) => {
            match side(alloc, store, items, at + 1, atom, true)? {
                Some(middle) => side(alloc, store, items, middle, atom, false),
                None => Ok(None),
            }
        }
        item => {
            if holds(alloc, store, item)? {
                Ok(Some(at + 1))
            } else {
                Ok(None)
            }
        }
    }
}

// The same with one more assumption.
#[cycle(after)]
fn side(
    alloc: Global,
    store: &mut Store<'_>,
    items: &[Item],
    at: usize,
    atom: u32,
    truth: bool,
) -> Result<Option<usize>, NoMemory>
    requires within { at ≤ length items.now }
    requires known { atom < length store.old.problem.atoms }
    requires undecided { AtomHasVerdict store.old atom Undecided }
    ensures proves { IfOk result (λ end. IfSome end (ProvesUpTo (more store.old atom truth) items.now at)) }
    ensures within { IfOk result (λ end. IfSome end (λ end. end ≤ length items.now)) }
    ensures longer { IfOk result (λ end. IfSome end (λ end. at < end)) }
    ensures store { OnOk result (store.new ≡ store.old) }
{
    store.assume(alloc, atom, truth)?;
    let end = after(alloc, store, items, at)?;
    store.undo();
    Ok(end)
}

/// Whether the atom is one of the problem's, and undecided.
pub(crate) fn is_undecided(store: &Store<'_>, atom: u32) -> bool
    ensures known { result ≡ true → atom < length store.now.problem.atoms }
    ensures undecided { result ≡ true → AtomHasVerdict store.now atom Undecided }
{
    (atom as usize) < store.problem().atoms.as_slice().len()
        && matches!(store.atom_verdict(atom), Verdict3::Undecided)
}

// Whether the item is a reason that holds.
fn holds(alloc: Global, store: &Store<'_>, item: Item) -> Result<bool, NoMemory>
    ensures { IfOk result (λ holds. holds ≡ true → IsReason store.now item) }
{
    let problem = store.problem();
    match item {
        Item::Want(number) => match problem.wants.as_slice().get(number as usize) {
            Some(paths) => Ok(are_refuted(store, paths.as_slice())),
            None => Ok(false),
        },
        Item::Bar(number) => match problem.bars.as_slice().get(number as usize) {
            Some(bar) => Ok(is_entailed(store, bar.as_slice())),
            None => Ok(false),
        },
        Item::Goal => Ok(matches!(store.goal_verdict(alloc)?, Verdict3::Refuted)),
        Item::Split(_) | Item::Void(_) | Item::Todo => Ok(false),
    }
}

// Whether each path has a refuted literal.
fn are_refuted(store: &Store<'_>, paths: &[Seq<Literal>]) -> bool
    ensures { result ≡ true → AreRefuted store.now.table (context_of store.now) store.now.problem.atoms paths.now }
{
    for path in paths {
        if !is_refuted(store, path.as_slice()) {
            return false;
        }
    }
    true
}

/// Whether some literal of a path is refuted.
pub(crate) fn is_refuted(store: &Store<'_>, path: &[Literal]) -> bool
    ensures { result ≡ true → HasRefuted store.now.table (context_of store.now) store.now.problem.atoms path.now }
{
    for literal in path {
        if is_forced(store, literal.atom, !literal.want) {
            return true;
        }
    }
    false
}

// Whether all literals of a path are entailed.
fn is_entailed(store: &Store<'_>, path: &[Literal]) -> bool
    ensures { result ≡ true → AreEntailed store.now.table (context_of store.now) store.now.problem.atoms path.now }
{
    for literal in path {
        if !is_forced(store, literal.atom, literal.want) {
            return false;
        }
    }
    true
}

// Whether the truth is forced on an atom.
fn is_forced(store: &Store<'_>, atom: u32, truth: bool) -> bool
    ensures { result ≡ true → IsForced store.now atom truth }
{
    if atom as usize >= store.problem().atoms.as_slice().len() {
        return false;
    }
    match store.atom_verdict(atom) {
        Verdict3::Entailed => truth,
        Verdict3::Refuted => !truth,
        Verdict3::Undecided => false,
    }
}
