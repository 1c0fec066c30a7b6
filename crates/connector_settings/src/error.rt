use key_table::Text;
use thiserror::Error;

// The codes of a fault that is found here. What json_shape finds has its codes, 1 to 5.

pub(crate) const WRONG_SHAPE: u8 = 3;

pub(crate) const LIMIT: u8 = 5;

pub(crate) const UNKNOWN_WORD: u8 = 6;

pub(crate) const BAD_RANGE: u8 = 7;

/// Where bytes are no settings: a code and the place, a JSON Pointer (RFC 6901), empty at the root. The codes are 1 NotJson,
/// 2 Missing, 3 WrongShape, 4 NotWhole, 5 Limit, 6 UnknownWord (a string is no variant of its key, or the table has no such
/// key) and 7 BadRange (the least amount is above the greatest).
#[derive(Debug, Drop, Error)]
#[error("the settings have fault {code} at {}", path.as_str())]
pub struct SettingsError {
    pub code: u8,
    pub path: Text,
}
