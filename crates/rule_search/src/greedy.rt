ghost use Rattle.std.specs.Prelude.{◌≡◌, [], None, IfOk, IfSome, OnOk, true, false};
ghost use Rattle.rule_search.specs.Finding.{IsOfSame, Settles};
ghost use Rattle.rule_search.specs.Reports.{IsReached};
ghost use Rattle.rule_search.specs.Standings.{AreNumbered};

use crate::judging::{Standing, judge};
use crate::proposing::Guide;
use crate::retracing::{is_refuted, is_undecided};
use crate::verdicts::ask;
use domain_store::{Store, payment_law};
use key_table::{NoMemory, Payment, Seq};
use rule_problem::{Literal, Problem, settled_law};
use std::alloc::Global;

/// Looks for a payment in one go: assumes for each want, for the goal and for each bar what still waits, and judges once. Where
/// that leaves something open or closes, there is no answer, and the store is as it was. With a budget of no split it does not
/// look.
pub(crate) fn payment_at_once(
    alloc: Global,
    store: &mut Store<'_>,
    problem: &Problem,
    guide: &Guide,
    budget: u32,
) -> Result<Option<Payment>, NoMemory>
    requires numbered { AreNumbered store.old.problem }
    requires begun { store.old.assumptions ≡ [] }
    ensures found { IfOk result (λ payment. IfSome payment (IsReached store.old.table store.old.problem)) }
    ensures none { IfOk result (λ payment. payment ≡ None → store.new ≡ store.old) }
{
    settled_law();
    payment_law();
    if budget == 0 {
        return Ok(None);
    }
    if !settles(alloc, store, problem, guide)? {
        return Ok(None);
    }
    let payment = store.payment(alloc)?;
    Ok(Some(payment))
}

// Whether what is assumed settles the problem. It is taken back where it does not.
fn settles(
    alloc: Global,
    store: &mut Store<'_>,
    problem: &Problem,
    guide: &Guide,
) -> Result<bool, NoMemory>
    requires numbered { AreNumbered store.old.problem }
    requires begun { store.old.assumptions ≡ [] }
    ensures settled { IfOk result (λ yes. yes ≡ true → Settles store.old store.new) }
    ensures unsettled { IfOk result (λ yes. yes ≡ false → store.new ≡ store.old) }
{
    meet_wants(alloc, store, problem)?;
    meet_goal(alloc, store, problem, guide)?;
    refute_bars(alloc, store, problem)?;
    let mut verdicts = Vec::new(alloc);
    match judge(alloc, store, &mut verdicts)? {
        Standing::Settled => Ok(true),
        Standing::Closed(_) | Standing::Open(_) => {
            clear(store);
            Ok(false)
        }
    }
}

// Takes back all assumptions.
fn clear(store: &mut Store<'_>)
    ensures same { IsOfSame store.old store.new }
    ensures none { store.new.assumptions ≡ [] }
{
    let count = store.assumptions().len();
    for _ in 0..count {
        store.undo();
    }
}

fn meet_wants(alloc: Global, store: &mut Store<'_>, problem: &Problem) -> Result<(), NoMemory>
    ensures { OnOk result (IsOfSame store.old store.new) }
{
    for paths in problem.wants.as_slice() {
        meet_want(alloc, store, paths.as_slice())?;
    }
    Ok(())
}

// Assumes the first path without a refuted literal.
fn meet_want(alloc: Global, store: &mut Store<'_>, paths: &[Seq<Literal>]) -> Result<(), NoMemory>
    ensures { OnOk result (IsOfSame store.old store.new) }
{
    for path in paths {
        if !is_refuted(store, path.as_slice()) {
            return assume_all(alloc, store, path.as_slice());
        }
    }
    Ok(())
}

fn meet_goal(
    alloc: Global,
    store: &mut Store<'_>,
    problem: &Problem,
    guide: &Guide,
) -> Result<(), NoMemory>
    requires { AreNumbered store.old.problem }
    ensures { OnOk result (IsOfSame store.old store.new) }
{
    let mut verdicts = Vec::new(alloc);
    ask(store, &mut verdicts)?;
    let literals = guide.toward_goal(alloc, problem, &verdicts)?;
    assume_all(alloc, store, &literals)
}

// Assumes each literal whose atom is undecided when it is its turn.
fn assume_all(alloc: Global, store: &mut Store<'_>, literals: &[Literal]) -> Result<(), NoMemory>
    ensures { OnOk result (IsOfSame store.old store.new) }
{
    for literal in literals {
        if is_undecided(store, literal.atom) {
            store.assume(alloc, literal.atom, literal.want)?;
        }
    }
    Ok(())
}

// Refutes a literal of each bar, up to a bar that has none to refute.
fn refute_bars(alloc: Global, store: &mut Store<'_>, problem: &Problem) -> Result<(), NoMemory>
    ensures { OnOk result (IsOfSame store.old store.new) }
{
    for bar in problem.bars.as_slice() {
        if !refute_bar(alloc, store, bar.as_slice())? {
            return Ok(());
        }
    }
    Ok(())
}

// Whether some literal of the bar is refuted, if need be the first that is undecided.
fn refute_bar(alloc: Global, store: &mut Store<'_>, bar: &[Literal]) -> Result<bool, NoMemory>
    ensures { OnOk result (IsOfSame store.old store.new) }
{
    if is_refuted(store, bar) {
        return Ok(true);
    }
    for literal in bar {
        if is_undecided(store, literal.atom) {
            store.assume(alloc, literal.atom, !literal.want)?;
            return Ok(true);
        }
    }
    Ok(false)
}
