ghost use Rattle.std.specs.Prelude.{◌≡◌};
ghost use Rattle.key_table.specs.declared.stop.Stop.TheVariants.{Fault};
ghost use Rattle.euclid_lexer.specs.Tokens.{fault};

use key_table::Stop;
use thiserror::Error;

pub(crate) const BAD_BYTE: u8 = 1;

pub(crate) const OPEN_STRING: u8 = 2;

pub(crate) const NUMBER_RANGE: u8 = 3;

pub(crate) const NOT_UTF8: u8 = 4;

pub(crate) const LIMIT: u8 = 5;

/// Why a text has no tokens, with the number of the byte at fault, counted from 0. The codes are 1 BadByte (no token begins
/// with that byte), 2 OpenString (the line or the text ends before the string that begins there), 3 NumberRange (the number
/// that begins there does not fit signed 64 bits), 4 NotUtf8 (the bytes before it are UTF-8, and no more of them are) and
/// 5 Limit (the word or the string that begins there has more than 255 bytes).
#[derive(Clone, Copy, Debug, PartialEq, Eq, Error)]
#[error("byte {at} has fault {code}")]
pub struct LexError {
    pub at: u32,
    pub code: u8,
}

pub(crate) fn fault(at: u32, code: u8) -> Stop<LexError>
    ensures { result ≡ Fault (fault at code) }
{
    Stop::Fault(LexError { at, code })
}
