use thiserror::Error;

pub(crate) const UNEXPECTED: u8 = 6;

pub(crate) const TOO_MUCH: u8 = 7;

/// Where a text is no program: the number of the byte at fault, counted from 0. With the codes 1 BadByte, 2 OpenString,
/// 3 NumberRange, 4 NotUtf8 and 5 Limit the text has no tokens, as the lexer says. With 6 Unexpected and 7 TooMuch it
/// has, and the fault is at the first token up to which the tokens begin a program within the limits: with it they begin
/// no program (6), or one in which it begins one too many (7), which is a rule, a statement, a comparison, an item of a
/// list or a level. Where more tokens are missing the code is 6, and the place is the length of the text.
#[derive(Clone, Copy, Debug, PartialEq, Eq, Error)]
#[error("byte {at} has fault {code}")]
pub struct ParseError {
    pub at: u32,
    pub code: u8,
}
