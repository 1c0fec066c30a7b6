ghost use Rattle.std.specs.Prelude.{◌≡◌, ◌+◌, ◌-◌, ◌^◌, ◌<◌, ◌≤◌, ◌++◌, IfOk, OnOk, take, drop, vec_len, true, ◌∷◌, []};
ghost use Rattle.domain_store.specs.Stores.{context_of, more};
ghost use Rattle.rule_problem.specs.declared.certificate.Item.TheVariants.{Split};
ghost use Rattle.rule_problem.specs.Open.{IsOpen};
ghost use Rattle.rule_search.specs.Choosing.{IsLiveAt};
ghost use Rattle.rule_search.specs.Finding.{Finds, Continues};
ghost use Rattle.rule_search.specs.Retracing.{ProvesFrom};
ghost use Rattle.rule_search.specs.Standings.{AreNumbered};

use crate::choosing::choose;
use crate::judging::{Standing, judge};
use crate::proposing::Guide;
use crate::retracing::after;
use domain_store::{Store, context_law};
use key_table::{NoMemory, Verdict3};
use rule_problem::{Item, drop_law};
use std::alloc::Global;

/// What a search finds: the assumptions now settle the problem; no payment has the truths of the assumptions, by so many
/// splits; or the budget is spent.
#[derive(Clone, Copy)]
pub(crate) enum Outcome {
    Reach,
    Never(u32),
    Spent,
}

/// What a search works on: what proposes its splits, the items that it has in hand, the verdicts of the atoms where it last
/// looked, and how many splits may still be explored while splits are trimmed.
#[derive(Drop)]
pub(crate) struct Work {
    pub(crate) guide: Guide,
    pub(crate) items: Vec<Item>,
    pub(crate) verdicts: Vec<Verdict3>,
    pub(crate) trims: u64,
}

// What comes next under assumptions: an outcome, or a split on a live atom.
#[derive(Clone, Copy)]
pub(crate) enum Next {
    Ends(Outcome),
    Splits(u32),
}

/// Searches under the assumptions of the store, with a budget of splits. The items that it finds are added to those in
/// hand. It goes as deep as the tree of splits, so it keeps nothing on the stack but what a level needs.
#[cycle(solve)]
pub(crate) fn solve(
    alloc: Global,
    store: &mut Store<'_>,
    work: &mut Work,
    budget: u32,
) -> Result<Outcome, NoMemory>
    requires { AreNumbered store.old.problem }
    ensures { IfOk result (Finds store.old store.old store.new budget work.old.items.items work.new.items.items) }
{
    match go_on(alloc, store, work, budget)? {
        Next::Ends(outcome) => Ok(outcome),
        Next::Splits(atom) => branch(alloc, store, work, atom, budget - 1),
    }
}

#[inline(never)]
fn go_on(alloc: Global, store: &Store<'_>, work: &mut Work, budget: u32) -> Result<Next, NoMemory>
    requires { AreNumbered store.now.problem }
    ensures { IfOk result (Continues store.now budget work.old.items.items work.new.items.items) }
{
    match judge(alloc, store, &mut work.verdicts)? {
        Standing::Closed(item) => {
            work.items.push(item)?;
            Ok(Next::Ends(Outcome::Never(0)))
        }
        Standing::Settled => Ok(Next::Ends(Outcome::Reach)),
        Standing::Open(_) if budget == 0 => {
            work.items.push(Item::Todo)?;
            Ok(Next::Ends(Outcome::Spent))
        }
        Standing::Open(goal) => {
            let atom = choose(alloc, store, &work.guide, &work.verdicts, goal)?;
            Ok(Next::Splits(atom))
        }
    }
}

// Searches with the atom true and then with the atom false. While splits are trimmed, a side whose items prove without the
// atom is all that is needed.
#[cycle(solve)]
fn branch(
    alloc: Global,
    store: &mut Store<'_>,
    work: &mut Work,
    atom: u32,
    budget: u32,
) -> Result<Outcome, NoMemory>
    requires numbered { AreNumbered store.old.problem }
    requires room { budget + 1 < 2 ^ 32 }
    requires is_open { IsOpen store.old.table store.old.problem (context_of store.old) }
    requires live { IsLiveAt store.old atom }
    ensures { IfOk result (Finds store.old store.old store.new (budget + 1) work.old.items.items work.new.items.items) }
{
    context_law();
    drop_law();
    let start = work.items.len();
    explore(work, atom)?;
    let left = match side(alloc, store, work, atom, true, budget)? {
        Outcome::Never(left) => left,
        Outcome::Spent => {
            work.items.push(Item::Todo)?;
            return Ok(Outcome::Spent);
        }
        Outcome::Reach => return Ok(Outcome::Reach),
    };
    if stands_alone(alloc, store, work, start + 1)? {
        cut(alloc, &mut work.items, start, start + 1)?;
        return Ok(Outcome::Never(left));
    }
    let middle = work.items.len();
    let right = match side(alloc, store, work, atom, false, budget - left)? {
        Outcome::Never(right) => right,
        Outcome::Spent => return Ok(Outcome::Spent),
        Outcome::Reach => return Ok(Outcome::Reach),
    };
    if stands_alone(alloc, store, work, middle)? {
        cut(alloc, &mut work.items, start, middle)?;
        return Ok(Outcome::Never(right));
    }
    Ok(Outcome::Never(1 + left + right))
}

// One more split is explored.
#[inline(never)]
fn explore(work: &mut Work, atom: u32) -> Result<(), NoMemory>
    ensures { OnOk result (work.new.items.items ≡ work.old.items.items ++ Split atom ∷ []) }
{
    work.items.push(Item::Split(atom))?;
    work.trims = work.trims.saturating_sub(1);
    Ok(())
}

// Searches with one more assumption, which is taken back unless the problem is settled.
#[cycle(solve)]
fn side(
    alloc: Global,
    store: &mut Store<'_>,
    work: &mut Work,
    atom: u32,
    truth: bool,
    budget: u32,
) -> Result<Outcome, NoMemory>
    requires numbered { AreNumbered store.old.problem }
    requires live { IsLiveAt store.old atom }
    ensures { IfOk result (Finds (more store.old atom truth) store.old store.new budget work.old.items.items work.new.items.items) }
{
    store.assume(alloc, atom, truth)?;
    match solve(alloc, store, work, budget)? {
        Outcome::Reach => Ok(Outcome::Reach),
        Outcome::Never(splits) => {
            store.undo();
            Ok(Outcome::Never(splits))
        }
        Outcome::Spent => {
            store.undo();
            Ok(Outcome::Spent)
        }
    }
}

// Whether splits are still trimmed, and the items from a place on prove without the split above them.
#[inline(never)]
fn stands_alone(
    alloc: Global,
    store: &mut Store<'_>,
    work: &Work,
    from: usize,
) -> Result<bool, NoMemory>
    requires { from ≤ vec_len work.now.items }
    ensures proves { IfOk result (λ alone. alone ≡ true → ProvesFrom store.old work.now.items.items from) }
    ensures store { OnOk result (store.new ≡ store.old) }
{
    if work.trims == 0 {
        return Ok(false);
    }
    match after(alloc, store, &work.items, from)? {
        Some(_) => Ok(true),
        None => Ok(false),
    }
}

// Takes away the items from one place up to another.
#[inline(never)]
fn cut(alloc: Global, items: &mut Vec<Item>, start: usize, end: usize) -> Result<(), NoMemory>
    requires start { start ≤ end }
    requires end { end ≤ vec_len items.old }
    ensures { OnOk result (items.new.items ≡ take start items.old.items ++ drop end items.old.items) }
{
    let kept = Vec::from_slice(alloc, &items[end..])?;
    items.truncate(start);
    items.extend_from_slice(&kept)?;
    Ok(())
}
