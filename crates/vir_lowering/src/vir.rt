use euclid_ast::Selection;
use key_table::{Atom, Seq, Text};

/// A condition, each atom of which has to hold, and the statements nested under it where there is such a list. The atoms
/// on one slot stand together.
#[derive(Debug, Drop)]
pub struct VirStatement {
    pub condition: Seq<Atom>,
    pub nested: Option<Seq<VirStatement>>,
}

/// A rule: its name, what it gives, and its statements, one of which has to hold.
#[derive(Debug, Drop)]
pub struct VirRule {
    pub name: Text,
    pub selection: Selection,
    pub statements: Seq<VirStatement>,
}
