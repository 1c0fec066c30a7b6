ghost use Rattle.std.specs.Prelude.{◌≡◌, IfOk, OnOk};
ghost use Rattle.std.specs.List.{list_all, position};
ghost use Rattle.rule_search.specs.Told.{is_entailed, has_entailed, are_refuted, are_met, AreVerdicts};
ghost use Rattle.rule_search.specs.Standings.{AreNumbered, Stands};

use crate::verdicts::{are_refuted, ask, has_entailed, is_entailed};
use domain_store::Store;
use key_table::{NoMemory, Seq, Verdict3, left_law};
use rule_problem::{Item, Literal, goal_law};
use std::alloc::Global;

/// How things stand under some assumptions: a reason holds, all is met, or neither, with this verdict of the goal.
#[derive(Clone, Copy)]
pub(crate) enum Standing {
    Closed(Item),
    Settled,
    Open(Verdict3),
}

/// Judges the assumptions, and leaves the verdicts of the problem's atoms.
pub(crate) fn judge(
    alloc: Global,
    store: &Store<'_>,
    verdicts: &mut Vec<Verdict3>,
) -> Result<Standing, NoMemory>
    requires { AreNumbered store.now.problem }
    ensures stands { IfOk result (Stands store.now) }
    ensures verdicts { OnOk result (AreVerdicts store.now verdicts.new.items) }
{
    ask(store, verdicts)?;
    judged(alloc, store, verdicts)
}

// Judges by the verdicts of the atoms. The goal is asked for only where no bar and no want fails.
fn judged(alloc: Global, store: &Store<'_>, verdicts: &[Verdict3]) -> Result<Standing, NoMemory>
    requires numbered { AreNumbered store.now.problem }
    requires verdicts { AreVerdicts store.now verdicts.now }
    ensures { IfOk result (Stands store.now) }
{
    left_law();
    goal_law();
    let _open = store.assumptions();
    let problem = store.problem();
    let bars = problem.bars.as_slice();
    let wants = problem.wants.as_slice();
    if let Some(bar) = failing_bar(verdicts, bars) {
        return Ok(Standing::Closed(Item::Bar(bar as u32)));
    }
    if let Some(want) = failing_want(verdicts, wants) {
        return Ok(Standing::Closed(Item::Want(want as u32)));
    }
    match store.goal_verdict(alloc)? {
        Verdict3::Refuted => Ok(Standing::Closed(Item::Goal)),
        Verdict3::Entailed => {
            if are_met(verdicts, wants, bars) {
                Ok(Standing::Settled)
            } else {
                Ok(Standing::Open(Verdict3::Entailed))
            }
        }
        Verdict3::Undecided => Ok(Standing::Open(Verdict3::Undecided)),
    }
}

// The number of the first bar all of whose literals are entailed.
fn failing_bar(verdicts: &[Verdict3], bars: &[Seq<Literal>]) -> Option<usize>
    ensures { result ≡ position (is_entailed verdicts.now) bars.now }
{
    bars.iter()
        .position(|bar| is_entailed(verdicts, bar.as_slice()))
}

// The number of the first want each of whose paths has a refuted literal.
fn failing_want(verdicts: &[Verdict3], wants: &[Seq<Seq<Literal>>]) -> Option<usize>
    ensures { result ≡ position (are_refuted verdicts.now) wants.now }
{
    wants
        .iter()
        .position(|paths| are_refuted(verdicts, paths.as_slice()))
}

// Whether each want has a path that is entailed, and each bar a refuted literal.
fn are_met(verdicts: &[Verdict3], wants: &[Seq<Seq<Literal>>], bars: &[Seq<Literal>]) -> bool
    ensures { result ≡ are_met verdicts.now wants.now bars.now }
{
    each_has_entailed(verdicts, wants) && are_refuted(verdicts, bars)
}

// Whether each want has a path that is entailed.
fn each_has_entailed(verdicts: &[Verdict3], wants: &[Seq<Seq<Literal>>]) -> bool
    ensures { result ≡ list_all (has_entailed verdicts.now) wants.now }
{
    wants
        .iter()
        .all(|paths| has_entailed(verdicts, paths.as_slice()))
}
