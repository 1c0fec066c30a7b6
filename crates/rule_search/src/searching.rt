ghost use Rattle.std.specs.Prelude.{◌≡◌, ◌<◌, ◌^◌, [], length, true, IfOk};
ghost use Rattle.rule_problem.specs.declared.certificate.Report.TheVariants.{Spent};
ghost use Rattle.rule_problem.specs.declared.certificate.Trace.{Trace};
ghost use Rattle.rule_problem.specs.Problems.{problem_fits};
ghost use Rattle.rule_search.specs.Reports.{IsReport, NamesFew};
ghost use Rattle.rule_search.specs.Standings.{AreNumbered};

use crate::greedy::payment_at_once;
use crate::naming::spelled;
use crate::proposing::{Guide, Order};
use crate::solving::{Outcome, Work, solve};
use domain_store::{Store, payment_law};
use key_table::{KeyTable, NoMemory, atom_law};
use rule_problem::{Certificate, Problem, Report, Trace, reading_law, settled_law};
use std::alloc::Global;

// How many splits the first run may spend, in which little is asked of their order.
const FIRST: u32 = 2000;

/// Looks for a payment that satisfies the problem, which fits the table. The answer is such a payment, with values at slots
/// of the problem's atoms alone; or a certificate that there is none, whose splits are all proper and at most as many as the
/// budget; or a trace of exactly the budget. With `a` atoms and a budget of at least `2^a - 1` it is no trace.
pub fn search(
    alloc: Global,
    table: &KeyTable,
    problem: &Problem,
    budget: u32,
) -> Result<Report, NoMemory>
    requires fits { problem_fits table.now problem.now ≡ true }
    requires few_atoms { length problem.now.atoms < 2 ^ 32 }
    requires few_wants { length problem.now.wants < 2 ^ 32 }
    requires few_bars { length problem.now.bars < 2 ^ 32 }
    ensures report { IfOk result (IsReport table.now problem.now budget) }
    ensures named { IfOk result (NamesFew problem.now budget) }
{
    atom_law();
    let mut store = Store::new(alloc, table, problem)?;
    let guide = Guide::new(alloc, problem, Order::First)?;
    match payment_at_once(alloc, &mut store, problem, &guide, budget)? {
        Some(payment) => Ok(Report::Reach(payment)),
        None => runs(alloc, &mut store, guide, budget),
    }
}

// A first run by the guide, and where that spends what it may, one by another order.
fn runs(alloc: Global, store: &mut Store<'_>, guide: Guide, budget: u32) -> Result<Report, NoMemory>
    requires numbered { AreNumbered store.old.problem }
    requires begun { store.old.assumptions ≡ [] }
    ensures report { IfOk result (IsReport store.old.table store.old.problem budget) }
    ensures named { IfOk result (NamesFew store.old.problem budget) }
{
    match run(alloc, store, guide, budget.min(FIRST))? {
        Report::Spent(_) if budget > FIRST => {
            let guide = Guide::new(alloc, store.problem(), Order::Heaviest)?;
            run(alloc, store, guide, budget)
        }
        report => Ok(report),
    }
}

// One run. Where it spends its budget, the store is as it was.
fn run(alloc: Global, store: &mut Store<'_>, guide: Guide, budget: u32) -> Result<Report, NoMemory>
    requires numbered { AreNumbered store.old.problem }
    requires begun { store.old.assumptions ≡ [] }
    ensures report { IfOk result (IsReport store.old.table store.old.problem budget) }
    ensures named { IfOk result (NamesFew store.old.problem budget) }
    ensures spent { IfOk result (λ report. (trace : Trace) → report ≡ Spent trace → store.new ≡ store.old) }
{
    atom_law();
    settled_law();
    payment_law();
    reading_law();
    let items = Vec::new(alloc);
    let mut work = Work {
        guide,
        items,
        verdicts: Vec::new(alloc),
        trims: 4 * budget as u64,
    };
    match solve(alloc, store, &mut work, budget)? {
        Outcome::Reach => Ok(Report::Reach(store.payment(alloc)?)),
        Outcome::Never(_) => {
            let problem = store.problem();
            let (atoms, items) = spelled(alloc, problem.atoms.as_slice(), &work.items)?;
            Ok(Report::Never(Certificate { atoms, items }))
        }
        Outcome::Spent => {
            let problem = store.problem();
            let (atoms, items) = spelled(alloc, problem.atoms.as_slice(), &work.items)?;
            Ok(Report::Spent(Trace { atoms, items }))
        }
    }
}
