use crate::{Selection, Statement};
use key_table::{Seq, Text};

/// A rule: its name, what it gives, and its statements, one of which has to hold.
#[derive(Debug, Drop)]
pub struct Rule {
    pub name: Text,
    pub selection: Selection,
    pub statements: Seq<Statement>,
}

/// A program: what is given where no rule matches, and the rules in order.
#[derive(Debug, Drop)]
pub struct Program {
    pub default_selection: Selection,
    pub rules: Seq<Rule>,
}
