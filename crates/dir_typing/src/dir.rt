use euclid_ast::{NumberTest, Selection};
use key_table::{Op, Seq, Slot, Text};

/// What a slot is compared with: one value, or an array of them. A variant is its number under the slot's key.
#[derive(Debug, PartialEq, Eq, Drop)]
pub enum DirValue {
    Number(i64),
    Variant(u32),
    Text(Text),
    Numbers(Seq<i64>),
    Variants(Seq<u32>),
    NumberTests(Seq<NumberTest>),
}

/// A slot, an operator and a value.
#[derive(Debug, PartialEq, Eq, Drop)]
pub struct DirComparison {
    pub slot: Slot,
    pub op: Op,
    pub value: DirValue,
}

/// A condition, and the statements nested under it where there is such a list.
#[derive(Debug, Drop)]
pub struct DirStatement {
    pub condition: Seq<DirComparison>,
    pub nested: Option<Seq<DirStatement>>,
}

/// A rule: its name, what it gives, and its statements, one of which has to hold.
#[derive(Debug, Drop)]
pub struct DirRule {
    pub name: Text,
    pub selection: Selection,
    pub statements: Seq<DirStatement>,
}
