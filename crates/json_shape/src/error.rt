use key_table::Text;
use thiserror::Error;

pub(crate) const NOT_JSON: u8 = 1;

pub(crate) const MISSING: u8 = 2;

pub(crate) const WRONG_SHAPE: u8 = 3;

pub(crate) const NOT_WHOLE: u8 = 4;

pub(crate) const LIMIT: u8 = 5;

/// Where bytes are no JSON, or JSON has another shape than was asked for. The path is a JSON Pointer (RFC 6901), empty at
/// the root. The codes are 1 NotJson (the bytes are no JSON), 2 Missing (an object has no field with the name), 3 WrongShape
/// (another kind of value stands there), 4 NotWhole (a number is no signed 64-bit whole number) and 5 Limit (a text or a
/// list is too long).
#[derive(Debug, Drop, Error)]
#[error("the JSON has fault {code} at {}", path.as_str())]
pub struct ShapeError {
    pub code: u8,
    pub path: Text,
}
