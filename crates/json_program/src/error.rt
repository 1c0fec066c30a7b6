use key_table::Text;
use thiserror::Error;

// The codes of a fault that is found here. What json_shape finds has its codes, 1 to 5.

pub(crate) const WRONG_SHAPE: u8 = 3;

pub(crate) const LIMIT: u8 = 5;

pub(crate) const UNKNOWN_FORM: u8 = 6;

pub(crate) const UNKNOWN_OPERATOR: u8 = 7;

/// Where a file is no program: a code and the place, a JSON Pointer (RFC 6901). Codes are 1 NotJson, 2 Missing, 3 WrongShape,
/// 4 NotWhole, 5 Limit, 6 UnknownForm and 7 UnknownOperator.
#[derive(Debug, Drop, Error)]
#[error("the program has fault {code} at {}", path.as_str())]
pub struct JsonError {
    pub code: u8,
    pub path: Text,
}
