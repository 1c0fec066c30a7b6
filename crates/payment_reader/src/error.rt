use key_table::Text;
use thiserror::Error;

pub(crate) const WRONG_SHAPE: u8 = 3;

pub(crate) const LIMIT: u8 = 5;

pub(crate) const UNKNOWN_KEY: u8 = 6;

pub(crate) const UNKNOWN_VARIANT: u8 = 7;

pub(crate) const OUT_OF_BOUNDS: u8 = 8;

pub(crate) const TEXT_LONG: u8 = 9;

/// Where bytes are no payment. The path is a JSON Pointer (RFC 6901), empty at the root. The codes are 1 NotJson (the bytes
/// are no JSON), 3 WrongShape (another kind of value stands there), 4 NotWhole (a number is no signed 64-bit whole number),
/// 5 Limit (a metadata key has too many names), 6 UnknownKey (no key has the name), 7 UnknownVariant (no variant of the key
/// has the name), 8 OutOfBounds (a number lies outside the bounds of its key) and 9 TextLong (a text or a sub name has too
/// many bytes). Code 2, Missing, is never given here.
#[derive(Debug, Drop, Error)]
#[error("the payment has fault {code} at {}", path.as_str())]
pub struct PaymentError {
    pub code: u8,
    pub path: Text,
}
