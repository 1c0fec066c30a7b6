use thiserror::Error;

pub(crate) const UNKNOWN_KEY: u8 = 1;

pub(crate) const WRONG_FORM: u8 = 2;

pub(crate) const WRONG_OPERATOR: u8 = 3;

pub(crate) const UNKNOWN_VARIANT: u8 = 4;

pub(crate) const EMPTY_SELECTION: u8 = 5;

pub(crate) const SPLIT_SUM: u8 = 6;

pub(crate) const MIXED_OUTPUTS: u8 = 7;

/// Where in a rule, or in the default, a fault stands: at the selection, or at the comparison with this number. The
/// comparisons of a rule have numbers from 0 on, those of a statement before those of its nested statements.
#[derive(Clone, Copy, Debug, PartialEq, Eq)]
pub enum Place {
    Selection,
    Comparison(u32),
}

/// Where a program is ill typed: the number of a rule, from 0, or `None` at the default, the place there, and the code. The
/// codes are 1 UnknownKey (the left side is no key), 2 WrongForm (the value's form does not fit the key's kind), 3
/// WrongOperator (the operator does not fit the form), 4 UnknownVariant (a variant is none of the key), 5 EmptySelection (a
/// rule's priority or volume list is empty), 6 SplitSum (the splits of a volume list that is not empty do not add up to 100)
/// and 7 MixedOutputs (the family differs from that of the first output that has one).
#[derive(Clone, Copy, Debug, PartialEq, Eq, Error)]
#[error("the program has typing fault {code}")]
pub struct TypeFault {
    pub rule: Option<u32>,
    pub place: Place,
    pub code: u8,
}
