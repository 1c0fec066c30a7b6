use constraint_graph::Graph;
use key_table::{Atom, Seq};

/// An atom of a problem by its number, and the truth that it must have.
#[derive(Clone, Copy, Debug, PartialEq, Eq)]
pub struct Literal {
    pub atom: u32,
    pub want: bool,
}

/// What a payment has to meet: the goal, which is a node of the graph, holds; each want has a path whose literals are all
/// true; and no bar has all its literals true. A want is a list of paths, and a path or a bar is a list of literals.
#[derive(Debug, Drop)]
pub struct Problem {
    pub atoms: Seq<Atom>,
    pub wants: Seq<Seq<Seq<Literal>>>,
    pub bars: Seq<Seq<Literal>>,
    pub graph: Graph,
    pub goal: u32,
}
