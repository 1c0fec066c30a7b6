use key_table::{Seq, Text};

/// Which words of a key are accepted: all, those in a list, or those that are not in it.
#[derive(Debug, PartialEq, Eq, Drop)]
pub enum Accept {
    All,
    Only(Seq<u32>),
    Except(Seq<u32>),
}

/// A type of a payment method, and what it asks of a payment. Words are numbers of variants. An empty list of networks asks
/// for none.
#[derive(Debug, PartialEq, Eq, Drop)]
pub struct TypeEntry {
    pub method_type: u32,
    pub networks: Seq<u32>,
    pub currencies: Accept,
    pub countries: Accept,
    pub minimum: Option<i64>,
    pub maximum: Option<i64>,
}

/// A payment method with its types.
#[derive(Debug, PartialEq, Eq, Drop)]
pub struct Method {
    pub method: u32,
    pub types: Seq<TypeEntry>,
}

/// One of the merchant's accounts at a connector.
#[derive(Debug, PartialEq, Eq, Drop)]
pub struct Connector {
    pub name: Text,
    pub id: Option<Text>,
    pub disabled: bool,
    pub methods: Seq<Method>,
}

/// The connectors of a merchant.
#[derive(Debug, PartialEq, Eq, Drop)]
pub struct Settings {
    pub connectors: Seq<Connector>,
}
