ghost use Rattle.std.specs.Prelude.{◌≡◌, map, length, fold, option_copied, IfOk, OnOk};
ghost use Rattle.std.specs.List.{All};
ghost use Rattle.euclid_ast.specs.Meaning.{IsWithin};
ghost use Rattle.constraint_graph.specs.Graphs.{atoms_of};
ghost use Rattle.rule_problem.specs.Distinct.{with_atom};
ghost use Rattle.rule_report.specs.Answers.{IsNumbered};
ghost use Rattle.rule_report.specs.Paths.{joined};
ghost use Rattle.rule_report.specs.Numbered.{atoms_at, rule_numbers, AreWithin};
ghost use Rattle.rule_report.specs.Targets.{wanted, before, said, all_true, wants_of, IsProblemOf};
ghost use Rattle.rule_report.specs.Shared.{IsSound, shared_paths};
ghost use Rattle.rule_report.specs.Taken.{IsTaking};

use crate::atoms::number;
use crate::numbered::NumberedStatement;
use crate::paths::{paths_of_rule, paths_of_rules};
use crate::shared::Shared;
use crate::taken::{Taken, none_taken, take_all};
use constraint_graph::Graph;
use euclid_ast::Choice;
use key_table::{Atom, NoMemory, Seq};
use rule_problem::{Literal, Problem};
use std::alloc::Global;

/// The problem of a target, of what the problems of all targets share.
pub(crate) fn problem_of(
    alloc: Global,
    shared: &Shared,
    graph: &Graph,
    goal: u32,
    target: Choice,
) -> Result<Problem, NoMemory>
    requires sound { IsSound shared.now }
    requires graph { atoms_at shared.now.atoms.keys shared.now.graph_atoms ≡ atoms_of graph.now }
    requires target { IsWithin target (length shared.now.rules) }
    ensures problem { IfOk result (IsProblemOf (shared_paths shared.now) graph.now goal target) }
    ensures numbered { IfOk result IsNumbered }
{
    let atoms = shared.atoms.as_slice();
    let rules = shared.rules.as_slice();
    let mut taken = none_taken(alloc, atoms)?;
    let wants = wants_of(alloc, atoms, rules, target, &mut taken)?;
    let bars = paths_of_rules(alloc, atoms, barred(rules, target), &mut taken)?;
    take_all(alloc, atoms, shared.graph_atoms.as_slice(), &mut taken)?;
    let problem = Problem {
        atoms: taken.atoms,
        wants,
        bars,
        graph: graph.copy()?,
        goal,
    };
    judge_numbers(&problem)?;
    Ok(problem)
}

// So many atoms, wants or bars that one has no number are want of memory.
fn judge_numbers(problem: &Problem) -> Result<(), NoMemory>
    ensures { OnOk result (IsNumbered problem.now) }
{
    number(problem.atoms.as_slice().len())?;
    number(problem.wants.as_slice().len())?;
    number(problem.bars.as_slice().len())?;
    Ok(())
}

// One want for a rule, whose paths are those of the rule, and none for the default.
fn wants_of(
    alloc: Global,
    shared: &[Atom],
    rules: &[Seq<NumberedStatement>],
    target: Choice,
    taken: &mut Taken,
) -> Result<Seq<Seq<Seq<Literal>>>, NoMemory>
    requires within { All (λ rule. AreWithin shared.now (rule_numbers rule)) rules.now }
    requires taken { IsTaking shared.now taken.old }
    ensures taken { OnOk result (IsTaking shared.now taken.new) }
    ensures atoms { OnOk result (taken.new.atoms ≡ fold with_atom taken.old.atoms (joined (joined (wants_of (map (λ rule. map (atoms_at shared.now) (rule_numbers rule)) rules.now) target)))) }
    ensures said { IfOk result (λ wants. map (map (said taken.new.atoms)) wants ≡ map (map all_true) (wants_of (map (λ rule. map (atoms_at shared.now) (rule_numbers rule)) rules.now) target)) }
{
    match wanted(rules, target) {
        Some(rule) => {
            let mut wants = Seq::with_capacity(alloc, 1)?;
            wants.push(paths_of_rule(alloc, shared, rule.as_slice(), taken)?)?;
            Ok(wants)
        }
        None => Ok(Seq::new(alloc)),
    }
}

// The rule that the target is.
fn wanted(rules: &[Seq<NumberedStatement>], target: Choice) -> Option<&Seq<NumberedStatement>>
    ensures { option_copied result ≡ wanted target rules.now }
{
    match target {
        Choice::Rule(rule) => rules.get(rule as usize),
        Choice::Default => None,
    }
}

// The rules that come before the target.
fn barred(rules: &[Seq<NumberedStatement>], target: Choice) -> &[Seq<NumberedStatement>]
    requires { IsWithin target (length rules.now) }
    ensures { result.now ≡ before target rules.now }
{
    match target {
        Choice::Rule(rule) => &rules[..rule as usize],
        Choice::Default => rules,
    }
}
