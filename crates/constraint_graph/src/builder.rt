ghost use Rattle.std.specs.Prelude.{◌≡◌, ◌<◌, [], OnOk, OnErr, vec_len};
ghost use Rattle.key_table.specs.Answers.{Answers};
ghost use Rattle.constraint_graph.specs.declared.node.Gate.TheVariants as gate;
ghost use Rattle.constraint_graph.specs.Graphs.{value_atom, key_atom, set_atom, node_added, edge_added, with_edge};

use crate::error::{BACKWARD, LIMIT, NO_NODE};
use crate::node::{Gate, Node};
use crate::{BuildError, Edge, Graph, Relation};
use key_table::{Atom, NoMemory, Seq, Slot, Stop, Test};
use std::alloc::Global;
use std::marker::Model;

// How many nodes and how many edges a graph has at most.
const MOST_NODES: usize = 65_536;

const MOST_EDGES: u32 = 524_288;

/// A graph that is being built, which contracts see as its nodes in the order of their numbers. A call that refuses leaves
/// it as it was, and drops what it was given.
#[derive(Debug, Drop)]
pub struct Builder {
    nodes: Vec<Node>,
    edges: u32,
}

impl Model for Builder {
    ghost use Rattle.std.specs.Prelude.{◌≡◌, List};
    ghost use Rattle.constraint_graph.specs.declared.node.Node.{Node};

    ghost Value = { List Node };

    ghost use Rattle.constraint_graph.specs.Graphs.{edge_count, IsGraph};

    ghost view = { λ b. b.nodes.items };

    ghost invariant = { λ b. IsGraph b.nodes.items × (b.edges ≡ edge_count b.nodes.items) };
}

impl Builder {
    /// No node.
    pub fn new(alloc: Global) -> Builder
        ensures { result ≡ [] }
    {
        Builder {
            nodes: Vec::new(alloc),
            edges: 0,
        }
    }

    /// Adds a node whose test is this one test on a slot that is there, and gives its number, which is the number of nodes
    /// before. Limit exactly where 65,536 nodes are there, here and in the calls for other nodes.
    pub fn value(&mut self, slot: Slot, test: Test) -> Result<u32, Stop<BuildError>>
        ensures answer { Answers (λ number. (number, self.new)) result (node_added self.old (gate.Test (value_atom slot test))) }
        ensures err { OnErr result (self.new ≡ self.old) }
    {
        let mut tests = Seq::new(*self.nodes.allocator());
        tests.push(test)?;
        self.in_set(slot, tests)
    }

    /// Adds a node whose test is that the slot is there, and gives its number.
    pub fn key(&mut self, slot: Slot) -> Result<u32, Stop<BuildError>>
        ensures answer { Answers (λ number. (number, self.new)) result (node_added self.old (gate.Test (key_atom slot))) }
        ensures err { OnErr result (self.new ≡ self.old) }
    {
        let tests = Seq::new(*self.nodes.allocator());
        self.node(Gate::Test(Atom {
            slot,
            none_of: true,
            tests,
        }))
    }

    /// Adds a node whose test is that the slot is there and some of these tests is true, and gives its number.
    pub fn in_set(&mut self, slot: Slot, tests: Seq<Test>) -> Result<u32, Stop<BuildError>>
        ensures answer { Answers (λ number. (number, self.new)) result (node_added self.old (gate.Test (set_atom slot tests))) }
        ensures err { OnErr result (self.new ≡ self.old) }
    {
        self.node(Gate::Test(Atom {
            slot,
            none_of: false,
            tests,
        }))
    }

    /// Adds a node that holds where each edge to it is satisfied, and gives its number.
    pub fn all(&mut self) -> Result<u32, Stop<BuildError>>
        ensures answer { Answers (λ number. (number, self.new)) result (node_added self.old gate.All) }
        ensures err { OnErr result (self.new ≡ self.old) }
    {
        self.node(Gate::All)
    }

    /// Adds a node that holds where some edge to it is satisfied, so not where there is none, and gives its number.
    pub fn any(&mut self) -> Result<u32, Stop<BuildError>>
        ensures answer { Answers (λ number. (number, self.new)) result (node_added self.old gate.Any) }
        ensures err { OnErr result (self.new ≡ self.old) }
    {
        self.node(Gate::Any)
    }

    fn node(&mut self, asked: Gate) -> Result<u32, Stop<BuildError>>
        ensures answer { Answers (λ number. (number, self.new)) result (node_added self.old asked) }
        ensures err { OnErr result (self.new ≡ self.old) }
    {
        if self.nodes.len() >= MOST_NODES {
            return Err(Stop::Fault(BuildError { code: LIMIT }));
        }
        let number = self.nodes.len() as u32;
        let incoming = Seq::new(*self.nodes.allocator());
        self.nodes.push(Node {
            gate: asked,
            incoming,
        })?;
        Ok(number)
    }

    /// Adds an edge, which comes last among those to the node `to`. In this order: NoNode exactly where a number is no
    /// node's, Backward exactly where `from` is not below `to`, Limit exactly where 524,288 edges are there.
    pub fn edge(&mut self, from: u32, to: u32, relation: Relation) -> Result<(), Stop<BuildError>>
        ensures answer { Answers (λ _. self.new) result (edge_added self.old to (record { from = from; relation = relation })) }
        ensures err { OnErr result (self.new ≡ self.old) }
    {
        let count = self.nodes.len() as u32;
        if from >= count || to >= count {
            return Err(Stop::Fault(BuildError { code: NO_NODE }));
        }
        if from >= to {
            return Err(Stop::Fault(BuildError { code: BACKWARD }));
        }
        if self.edges >= MOST_EDGES {
            return Err(Stop::Fault(BuildError { code: LIMIT }));
        }
        add_edge(&mut self.nodes, to, Edge { from, relation })?;
        self.edges += 1;
        Ok(())
    }

    /// The graph as built.
    pub fn finish(self) -> Graph
        ensures { result ≡ self }
    {
        Graph::of(self.nodes)
    }
}

fn add_edge(nodes: &mut Vec<Node>, to: u32, edge: Edge) -> Result<(), NoMemory>
    requires within { to < vec_len nodes.old }
    ensures ok { OnOk result (nodes.new.items ≡ with_edge nodes.old.items to edge) }
    ensures err { OnErr result (nodes.new.items ≡ nodes.old.items) }
{
    nodes[to as usize].incoming.push(edge)
}
