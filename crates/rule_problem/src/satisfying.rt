ghost use Rattle.std.specs.Prelude.{◌≡◌, true, IfOk};
ghost use Rattle.std.specs.List.{list_all};
ghost use Rattle.rule_problem.specs.Literals.{is_true};
ghost use Rattle.rule_problem.specs.Problems.{problem_fits, some_path, rules_hold, sat};

use crate::{Literal, Problem};
use constraint_graph::holds;
use key_table::{Atom, KeyTable, NoMemory, Payment, Seq, atom_holds};
use std::alloc::Global;

/// Whether a payment satisfies a problem that fits: it is legal, the goal holds, each want has a path whose literals are all
/// true, and no bar has all its literals true.
#[tactic(auto, unfolding(crate::specs::Problems::problem_fits))]
pub fn sat(
    alloc: Global,
    table: &KeyTable,
    problem: &Problem,
    payment: &Payment,
) -> Result<bool, NoMemory>
    requires { problem_fits table.now problem.now ≡ true }
    ensures { IfOk result (λ truth. truth ≡ sat table.now problem.now payment.now) }
{
    if !payment.legal(table) || !rules_hold(problem, payment) {
        return Ok(false);
    }
    holds(alloc, &problem.graph, problem.goal, payment)
}

// Whether each want has a path whose literals are all true, and no bar has all its literals true.
fn rules_hold(problem: &Problem, payment: &Payment) -> bool
    ensures { result ≡ rules_hold problem.now payment.now }
{
    let atoms = problem.atoms.as_slice();
    are_met(atoms, payment, problem.wants.as_slice())
        && !has_true_path(atoms, payment, problem.bars.as_slice())
}

fn are_met(atoms: &[Atom], payment: &Payment, wants: &[Seq<Seq<Literal>>]) -> bool
    ensures { result ≡ list_all (some_path atoms.now payment.now) wants.now }
{
    wants
        .iter()
        .all(|paths| has_true_path(atoms, payment, paths.as_slice()))
}

fn has_true_path(atoms: &[Atom], payment: &Payment, paths: &[Seq<Literal>]) -> bool
    ensures { result ≡ some_path atoms.now payment.now paths.now }
{
    paths
        .iter()
        .any(|path| is_true_path(atoms, payment, path.as_slice()))
}

fn is_true_path(atoms: &[Atom], payment: &Payment, path: &[Literal]) -> bool
    ensures { result ≡ list_all (is_true atoms.now payment.now) path.now }
{
    path.iter().all(|literal| is_true(atoms, payment, *literal))
}

// Whether the atom has the truth that the literal wants.
fn is_true(atoms: &[Atom], payment: &Payment, literal: Literal) -> bool
    ensures { result ≡ is_true atoms.now payment.now literal }
{
    match atoms.get(literal.atom as usize) {
        Some(atom) => {
            if literal.want {
                atom_holds(atom, payment)
            } else {
                !atom_holds(atom, payment)
            }
        }
        None => false,
    }
}
