ghost use Rattle.std.specs.Prelude.{◌≡◌, ◌<◌, ◌↔◌, length, slice_get, option_map, Some, option_copied, IsTrue, IfOk};
ghost use Rattle.std.specs.List.{Contains};
ghost use Rattle.constraint_graph.specs.Graphs.{IsGraph, atom_of, is_all, atoms_of};

use crate::Edge;
use crate::node::{Gate, Node};
use key_table::{Atom, NoMemory, atom_law};
use std::marker::Model;

/// A graph, which contracts see as its nodes in the order of their numbers.
#[derive(Debug, Drop)]
pub struct Graph {
    nodes: Vec<Node>,
}

impl Model for Graph {
    ghost use Rattle.std.specs.Prelude.{List};
    ghost use Rattle.constraint_graph.specs.declared.node.Node.{Node};

    ghost Value = { List Node };

    ghost use Rattle.constraint_graph.specs.Graphs.{IsGraph};

    ghost view = { λ g. g.nodes.items };

    ghost invariant = { λ g. IsGraph g.nodes.items };
}

impl Graph {
    ghost use Rattle.constraint_graph.specs.declared.node.Node.{Node};

    pub(crate) fn of(nodes: Vec<Node>) -> Graph
        requires { IsGraph nodes.items }
        ensures { result ≡ nodes.items }
    {
        Graph { nodes }
    }

    /// An equal graph.
    pub fn copy(&self) -> Result<Graph, NoMemory>
        ensures { IfOk result (λ g. g ≡ self.now) }
    {
        let nodes = copy_nodes(&self.nodes)?;
        Ok(Graph { nodes })
    }

    /// The nodes.
    pub(crate) fn nodes(&self) -> &[Node]
        ensures nodes { result.now ≡ self.now }
        ensures graph { IsGraph self.now }
    {
        &self.nodes
    }

    /// The number of nodes.
    pub fn count(&self) -> u32
        ensures value { result ≡ length self.now }
        ensures graph { IsGraph self.now }
    {
        self.nodes.len() as u32
    }

    /// The atom of a test node, none exactly where it is an all or an any node. Of a value node it has `none_of` false and
    /// the one test, of a key node `none_of` true and no test, of an in node `none_of` false and its tests.
    pub fn atom(&self, node: u32) -> Option<&Atom>
        requires { node < length self.now }
        ensures { option_map atom_of (slice_get self.now node) ≡ Some (option_copied result) }
    {
        match &self.nodes[node as usize].gate {
            Gate::Test(atom) => Some(atom),
            Gate::All | Gate::Any => None,
        }
    }

    /// Whether it is an all node.
    pub fn is_all(&self, node: u32) -> bool
        requires { node < length self.now }
        ensures { option_map is_all (slice_get self.now node) ≡ Some result }
    {
        matches!(&self.nodes[node as usize].gate, Gate::All)
    }

    /// The edges to the node, in the order in which they were added.
    pub fn incoming(&self, node: u32) -> &[Edge]
        requires { node < length self.now }
        ensures { option_map (λ (n : Node). n.incoming) (slice_get self.now node) ≡ Some result.now }
    {
        self.nodes[node as usize].incoming.as_slice()
    }

    /// Whether the atom is that of a test node of the graph, whichever node the goal is.
    pub fn has_atom(&self, _goal: u32, atom: &Atom) -> bool
        requires { _goal < length self.now }
        ensures { IsTrue result ↔ Contains (atoms_of self.now) atom.now }
    {
        self.nodes.iter().any(|node| is_test_of(node, atom))
    }
}

// Whether it is a test node with this atom.
fn is_test_of(node: &Node, atom: &Atom) -> bool
    ensures { IsTrue result ↔ (atom_of node.now ≡ Some atom.now) }
{
    atom_law();
    match &node.gate {
        Gate::Test(own) => own == atom,
        Gate::All | Gate::Any => false,
    }
}

fn copy_nodes(nodes: &Vec<Node>) -> Result<Vec<Node>, NoMemory>
    ensures { IfOk result (λ ns. ns.items ≡ nodes.now.items) }
{
    let mut copies = Vec::with_capacity(*nodes.allocator(), nodes.len())?;
    for node in nodes {
        copies.push(node.copy()?)?;
    }
    Ok(copies)
}
