ghost use Rattle.std.specs.Prelude.{◌≡◌, IfOk};

use key_table::{Atom, Copied, NoMemory, Seq};

/// Whether an edge is satisfied where its source holds, or where it does not.
#[derive(Clone, Copy, Debug, PartialEq, Eq)]
pub enum Relation {
    Positive,
    Negative,
}

/// An edge, as the node to which it goes has it: the number of its source, and when it is satisfied.
#[derive(Clone, Copy, Debug, PartialEq, Eq)]
pub struct Edge {
    pub from: u32,
    pub relation: Relation,
}

/// What a node asks: a test, that each edge to it is satisfied, or that some edge is.
#[derive(Debug, Drop)]
pub enum Gate {
    Test(Atom),
    All,
    Any,
}

/// A node, with the edges to it in the order in which they were added.
#[derive(Debug, Drop)]
pub struct Node {
    pub gate: Gate,
    pub incoming: Seq<Edge>,
}

impl Gate {
    // An equal gate.
    fn copy(&self) -> Result<Gate, NoMemory>
        ensures { IfOk result (λ g. g ≡ self.now) }
    {
        Ok(match self {
            Gate::Test(atom) => Gate::Test(atom.copy()?),
            Gate::All => Gate::All,
            Gate::Any => Gate::Any,
        })
    }
}

impl Node {
    /// An equal node.
    pub(crate) fn copy(&self) -> Result<Node, NoMemory>
        ensures { IfOk result (λ n. n ≡ self.now) }
    {
        Ok(Node {
            gate: self.gate.copy()?,
            incoming: self.incoming.copy()?,
        })
    }
}

impl Copied for Edge {
    fn copied(&self) -> Result<Edge, NoMemory> {
        Ok(*self)
    }
}
