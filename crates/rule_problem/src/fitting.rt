ghost use Rattle.std.specs.Prelude.{◌≡◌, length, drop, ◌+◌, IsTrue};
ghost use Rattle.std.specs.List.{list_all};
ghost use Rattle.key_table.specs.Atoms.{atom_fits};
ghost use Rattle.constraint_graph.specs.Graphs.{atoms_of};
ghost use Rattle.rule_problem.specs.Distinct.{is_among, are_distinct};
ghost use Rattle.rule_problem.specs.Problems.{atoms_stand, path_fits, literals_fit, numbers_fit, problem_fits};

use crate::{Literal, Problem};
use constraint_graph::Graph;
use key_table::{Atom, KeyTable, Seq};

/// Whether a problem is well made: each atom fits the table, no atom stands twice, the atom of each test node of the graph
/// is among the problem's, the number of each literal's atom is below their count, and the goal is a node of the graph.
#[tactic(auto, unfolding(crate::specs::Problems::problem_fits))]
pub fn problem_fits(table: &KeyTable, problem: &Problem) -> bool
    ensures { result ≡ problem_fits table.now problem.now }
{
    atoms_fit(table, problem.atoms.as_slice()) && (atoms_stand(problem) && numbers_fit(problem))
}

fn atoms_fit(table: &KeyTable, atoms: &[Atom]) -> bool
    ensures { result ≡ list_all (atom_fits table.now) atoms.now }
{
    atoms.iter().all(|atom| table.atom_fits(atom))
}

// Whether no atom stands twice, and each atom of the graph is among the problem's.
fn atoms_stand(problem: &Problem) -> bool
    ensures { result ≡ atoms_stand problem.now }
{
    let atoms = problem.atoms.as_slice();
    are_distinct(atoms) && has_atoms_of(atoms, &problem.graph)
}

fn are_distinct(atoms: &[Atom]) -> bool
    ensures { result ≡ are_distinct atoms.now }
{
    for place in 0..atoms.len() {
        if is_among(&atoms[place + 1..], &atoms[place]) {
            return false;
        }
    }
    true
}

// Whether the atom of each test node is among the atoms.
fn has_atoms_of(atoms: &[Atom], graph: &Graph) -> bool
    ensures { result ≡ list_all (is_among atoms.now) (atoms_of graph.now) }
{
    for node in 0..graph.count() {
        if let Some(atom) = graph.atom(node) {
            if !is_among(atoms, atom) {
                return false;
            }
        }
    }
    true
}

fn is_among(atoms: &[Atom], atom: &Atom) -> bool
    ensures { result ≡ is_among atoms.now atom.now }
{
    atoms.iter().any(|other| atom == other)
}

// Whether each literal is on one of the atoms, and the goal is a node.
fn numbers_fit(problem: &Problem) -> bool
    ensures { result ≡ numbers_fit problem.now }
{
    literals_fit(problem) && problem.goal < problem.graph.count()
}

fn literals_fit(problem: &Problem) -> bool
    ensures { result ≡ literals_fit problem.now }
{
    let atoms = problem.atoms.as_slice();
    wants_fit(atoms, problem.wants.as_slice()) && paths_fit(atoms, problem.bars.as_slice())
}

fn wants_fit(atoms: &[Atom], wants: &[Seq<Seq<Literal>>]) -> bool
    ensures { result ≡ list_all (λ paths. list_all (path_fits atoms.now) paths) wants.now }
{
    wants.iter().all(|paths| paths_fit(atoms, paths.as_slice()))
}

fn paths_fit(atoms: &[Atom], paths: &[Seq<Literal>]) -> bool
    ensures { result ≡ list_all (path_fits atoms.now) paths.now }
{
    paths.iter().all(|path| path_fits(atoms, path.as_slice()))
}

fn path_fits(atoms: &[Atom], path: &[Literal]) -> bool
    ensures { result ≡ path_fits atoms.now path.now }
{
    path.iter()
        .all(|literal| (literal.atom as usize) < atoms.len())
}
