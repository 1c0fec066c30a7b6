//! What a search answers on a problem with a budget, judged by the checkers and by the payment.

use crate::cases::expanded;
use crate::certificates::{KEYS, problem, verdict};
use contradiction_checker::Verdict;
use key_table::KeyTable;
use rule_problem::{Item, Problem, Report, problem_fits, sat};
use rule_search::search;
use std::alloc::Global;
use std::test::Fail;

// How many atoms, wants and bars a problem has here at most.
const MOST: usize = 10_000;

// Each case is a problem, as those of certificates are written, and behind the dashes what a search answers with a budget.
const CASES: &str = "atoms any 3 >:200, any 3 >:100
wants +0
bars +1
graph all
--
spent 0
never 1
never 3
===
atoms any 3 >:200, any 3 >:100
wants +0
graph all
--
spent 0
reach 1
===
graph all
--
reach 0
===
graph any
--
never 0
===
atoms any 0 variant:0, any 3 >:5
bars -0
graph value 0 variant:0, value 3 >:5, all, edge -0 2, edge +1 2
goal 2
--
never 3
===
atoms any 9/a text:x, any 9/b text:x, any 9/c text:x
wants +0,+1,+2
bars +0,+1,+2
graph all
--
spent 0
spent 1
spent 2
never 3
never 7
===
atoms any 9/a text:1, any 9/a text:2, any 9/b text:1, any 9/b text:2, any 9/c text:1, any 9/c text:2
bars -0,-1 -2,-3 -4,-5 +0,+2 +0,+4 +2,+4 +1,+3 +1,+5 +3,+5
graph all
--
spent 0
never 63
===
atoms any 9/a text:1, any 9/a text:2, any 9/b text:1, any 9/b text:2
bars -0,-1 -2,-3 +0,+2 +1,+3
graph all
--
reach 15
===
atoms |1023*any 9/# text:a, |any 9/x text:a
wants |1023*+#,|+1023
graph all
--
spent 0
reach 1
===
atoms |1023*any 9/# text:a, |any 9/x text:a
wants |1023*+#,|+1023
bars +1023
graph all
--
spent 1023
never 1024";

// What a search answers, and `wrong` where its answer does not hold.
fn answered(
    alloc: Global,
    table: &KeyTable,
    problem: &Problem,
    budget: u32,
) -> Option<&'static str> {
    if problem.atoms.as_slice().len() > MOST
        || problem.wants.as_slice().len() > MOST
        || problem.bars.as_slice().len() > MOST
        || !problem_fits(table, problem)
    {
        return None;
    }
    Some(match search(alloc, table, problem, budget).ok()? {
        Report::Reach(payment) => {
            if sat(alloc, table, problem, &payment).ok()? {
                "reach"
            } else {
                "wrong"
            }
        }
        Report::Never(certificate) => {
            if verdict(alloc, table, problem, &certificate)? == Verdict::Accepted {
                "never"
            } else {
                "wrong"
            }
        }
        Report::Spent(trace) => {
            if splits_in(trace.items.as_slice()) == budget {
                "spent"
            } else {
                "wrong"
            }
        }
    })
}

fn splits_in(items: &[Item]) -> u32 {
    let mut count = 0u32;
    for item in items {
        if matches!(item, Item::Split(_)) {
            count = count.saturating_add(1);
        }
    }
    count
}

#[test]
fn searches_answer(rt: HostRuntime) -> Result<(), Fail> {
    let alloc = rt.alloc();
    let table = KeyTable::from_toml(alloc, expanded(alloc, KEYS)?.as_bytes())?;
    for case in expanded(alloc, CASES)?.split("\n===\n") {
        let (text, lines) = case.split_once("\n--\n").ok_or(case)?;
        let problem = problem(alloc, text).ok_or(text)?;
        for line in lines.lines() {
            let (wanted, budget) = line.split_once(' ').ok_or(line)?;
            let answer = answered(alloc, &table, &problem, budget.parse()?).ok_or(line)?;
            assert_eq!(rt; answer, wanted, "at {line} of {text}");
        }
    }
    Ok(())
}
