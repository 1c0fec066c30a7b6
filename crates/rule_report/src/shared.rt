ghost use Rattle.std.specs.Prelude.{◌≡◌, map, IfOk};
ghost use Rattle.constraint_graph.specs.Graphs.{atoms_of};
ghost use Rattle.rule_report.specs.Paths.{rule_paths};
ghost use Rattle.rule_report.specs.Shared.{IsSharedBy};

use crate::atoms::number_graph;
use crate::numbered::{NumberedStatement, number_rules};
use constraint_graph::Graph;
use indexmap::IndexSet;
use key_table::{Atom, NoMemory, Seq, atom_law};
use std::alloc::Global;
use vir_lowering::VirRule;

/// What the problems of all targets share: each atom of the rules and of the graph once, the rules with the numbers of
/// their atoms, and the numbers of the graph's atoms.
#[derive(Drop)]
pub(crate) struct Shared {
    pub(crate) atoms: IndexSet<Atom>,
    pub(crate) rules: Seq<Seq<NumberedStatement>>,
    pub(crate) graph_atoms: Seq<u32>,
}

/// What the problems of these rules and this graph share.
pub(crate) fn shared_by(alloc: Global, rules: &[VirRule], graph: &Graph) -> Result<Shared, NoMemory>
    ensures { IfOk result (IsSharedBy (map rule_paths rules.now) (atoms_of graph.now)) }
{
    atom_law();
    let mut atoms = IndexSet::new(alloc);
    let rules = number_rules(alloc, &mut atoms, rules)?;
    let graph_atoms = number_graph(alloc, &mut atoms, graph)?;
    Ok(Shared {
        atoms,
        rules,
        graph_atoms,
    })
}
