use key_table::{Op, Seq, Text};

/// One entry of a number comparison array.
#[derive(Clone, Copy, Debug, PartialEq, Eq)]
pub struct NumberTest {
    pub op: Op,
    pub number: i64,
}

/// What a key is compared with: one value, or an array of them.
#[derive(Debug, PartialEq, Eq, Drop)]
pub enum ValueForm {
    Number(i64),
    Variant(Text),
    Metadata { key: Text, value: Text },
    Str(Text),
    Numbers(Seq<i64>),
    Variants(Seq<Text>),
    NumberTests(Seq<NumberTest>),
}

/// A key's name, an operator and a value.
#[derive(Debug, PartialEq, Eq, Drop)]
pub struct Comparison {
    pub lhs: Text,
    pub op: Op,
    pub value: ValueForm,
}

/// A condition, and the statements nested under it where there is such a list.
#[derive(Debug, Drop)]
pub struct Statement {
    pub condition: Seq<Comparison>,
    pub nested: Option<Seq<Statement>>,
}
