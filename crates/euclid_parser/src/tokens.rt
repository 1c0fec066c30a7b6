//! Single tokens, read.

ghost use Rattle.std.specs.Prelude.{◌≡◌, length, ◌<◌, ◌≤◌, IfOk};
ghost use Rattle.key_table.specs.Answers.{Answers};
ghost use Rattle.euclid_grammar.specs.Texts.{tokens_alone};
ghost use Rattle.euclid_parser.specs.Reader.{starts};
ghost use Rattle.euclid_parser.specs.Reading.{is_the_sign, sign_reader, op_of_sign, is_word_token, word_reader, is_str_token, str_reader, is_number_token, number_reader, is_op_token, op_reader, is_the_word, the_word_reader, amount_reader, small_reader};

use crate::cursor::{Cursor, next, unexpected};
use crate::fault::Fault;
use euclid_lexer::{Sign, Token};
use key_table::{Op, Stop, Text};

/// Whether this sign comes next.
pub(crate) fn starts_with(sign: Sign, at: Cursor) -> bool
    ensures { result ≡ starts (is_the_sign sign) (tokens_alone at.entry.tokens.now) }
{
    matches!(next(at), Some((Token::Sign(found), _)) if *found == sign)
}

/// The place behind this sign. Any other token is unexpected.
pub(crate) fn read_sign<'a>(sign: Sign, at: Cursor<'a>) -> Result<Cursor<'a>, Stop<Fault>>
    ensures gives { Answers (λ next. (tt, next.counts, tokens_alone next.tokens.now)) result (sign_reader sign at.entry.counts (tokens_alone at.entry.tokens.now)) }
    ensures shorter { IfOk result (λ next. length next.tokens.now < length at.entry.tokens.now) }
{
    match next(at) {
        Some((Token::Sign(found), behind)) if *found == sign => Ok(behind),
        _ => Err(unexpected(at)),
    }
}

/// Whether this word comes next.
pub(crate) fn starts_with_the_word(keyword: &str, at: Cursor) -> bool
    ensures { result ≡ starts (is_the_word keyword.now) (tokens_alone at.entry.tokens.now) }
{
    matches!(next(at), Some((Token::Word(word), _)) if word.is(keyword.as_bytes()))
}

/// The place behind this word. Any other token is unexpected.
pub(crate) fn read_the_word<'a>(keyword: &str, at: Cursor<'a>) -> Result<Cursor<'a>, Stop<Fault>>
    ensures gives { Answers (λ next. (tt, next.counts, tokens_alone next.tokens.now)) result (the_word_reader keyword.now at.entry.counts (tokens_alone at.entry.tokens.now)) }
    ensures shorter { IfOk result (λ next. length next.tokens.now < length at.entry.tokens.now) }
{
    match next(at) {
        Some((Token::Word(word), behind)) if word.is(keyword.as_bytes()) => Ok(behind),
        _ => Err(unexpected(at)),
    }
}

/// Whether a word comes next.
pub(crate) fn starts_with_word(at: Cursor) -> bool
    ensures { result ≡ starts is_word_token (tokens_alone at.entry.tokens.now) }
{
    matches!(next(at), Some((Token::Word(_), _)))
}

/// A word, and the place behind it. Any other token is unexpected.
pub(crate) fn read_word<'a>(at: Cursor<'a>) -> Result<(Text, Cursor<'a>), Stop<Fault>>
    ensures gives { Answers (λ x. (x.0, x.1.counts, tokens_alone x.1.tokens.now)) result (word_reader at.entry.counts (tokens_alone at.entry.tokens.now)) }
    ensures shorter { IfOk result (λ x. length x.1.tokens.now < length at.entry.tokens.now) }
{
    match next(at) {
        Some((Token::Word(word), behind)) => Ok((word.copy()?, behind)),
        _ => Err(unexpected(at)),
    }
}

/// Whether a string comes next.
pub(crate) fn starts_with_str(at: Cursor) -> bool
    ensures { result ≡ starts is_str_token (tokens_alone at.entry.tokens.now) }
{
    matches!(next(at), Some((Token::Str(_), _)))
}

/// What stands between a string's quotes, and the place behind it. Any other token is unexpected.
pub(crate) fn read_str<'a>(at: Cursor<'a>) -> Result<(Text, Cursor<'a>), Stop<Fault>>
    ensures gives { Answers (λ x. (x.0, x.1.counts, tokens_alone x.1.tokens.now)) result (str_reader at.entry.counts (tokens_alone at.entry.tokens.now)) }
    ensures shorter { IfOk result (λ x. length x.1.tokens.now < length at.entry.tokens.now) }
{
    match next(at) {
        Some((Token::Str(text), behind)) => Ok((text.copy()?, behind)),
        _ => Err(unexpected(at)),
    }
}

/// Whether a number comes next.
pub(crate) fn starts_with_number(at: Cursor) -> bool
    ensures { result ≡ starts is_number_token (tokens_alone at.entry.tokens.now) }
{
    matches!(next(at), Some((Token::Number(_), _)))
}

/// A number, and the place behind it. Any other token is unexpected.
pub(crate) fn read_number<'a>(at: Cursor<'a>) -> Result<(i64, Cursor<'a>), Stop<Fault>>
    ensures gives { Answers (λ x. (x.0, x.1.counts, tokens_alone x.1.tokens.now)) result (number_reader at.entry.counts (tokens_alone at.entry.tokens.now)) }
    ensures shorter { IfOk result (λ x. length x.1.tokens.now < length at.entry.tokens.now) }
{
    match next(at) {
        Some((Token::Number(number), behind)) => Ok((*number, behind)),
        _ => Err(unexpected(at)),
    }
}

/// A number that is not negative, and the place behind it. Any other token is unexpected.
pub(crate) fn read_amount<'a>(at: Cursor<'a>) -> Result<(i64, Cursor<'a>), Stop<Fault>>
    ensures gives { Answers (λ x. (x.0, x.1.counts, tokens_alone x.1.tokens.now)) result (amount_reader at.entry.counts (tokens_alone at.entry.tokens.now)) }
    ensures shorter { IfOk result (λ x. length x.1.tokens.now < length at.entry.tokens.now) }
{
    match next(at) {
        Some((Token::Number(number), behind)) if *number >= 0 => Ok((*number, behind)),
        _ => Err(unexpected(at)),
    }
}

/// A number from 0 to the most, and the place behind it. Any other token is unexpected.
pub(crate) fn read_small<'a>(most: u16, at: Cursor<'a>) -> Result<(u16, Cursor<'a>), Stop<Fault>>
    ensures gives { Answers (λ x. (x.0, x.1.counts, tokens_alone x.1.tokens.now)) result (small_reader most at.entry.counts (tokens_alone at.entry.tokens.now)) }
    ensures shorter { IfOk result (λ x. length x.1.tokens.now < length at.entry.tokens.now) }
    ensures within { IfOk result (λ x. x.0 ≤ most) }
{
    match next(at) {
        Some((Token::Number(number), behind)) => match u16::try_from(*number) {
            Ok(small) if small <= most => Ok((small, behind)),
            _ => Err(unexpected(at)),
        },
        _ => Err(unexpected(at)),
    }
}

/// Whether an operator comes next.
pub(crate) fn starts_with_op(at: Cursor) -> bool
    ensures { result ≡ starts is_op_token (tokens_alone at.entry.tokens.now) }
{
    matches!(next(at), Some((Token::Sign(sign), _)) if op_of(*sign).is_some())
}

/// An operator, and the place behind it. Any other token is unexpected.
pub(crate) fn read_op<'a>(at: Cursor<'a>) -> Result<(Op, Cursor<'a>), Stop<Fault>>
    ensures gives { Answers (λ x. (x.0, x.1.counts, tokens_alone x.1.tokens.now)) result (op_reader at.entry.counts (tokens_alone at.entry.tokens.now)) }
    ensures shorter { IfOk result (λ x. length x.1.tokens.now < length at.entry.tokens.now) }
{
    match next(at) {
        Some((Token::Sign(sign), behind)) => match op_of(*sign) {
            Some(op) => Ok((op, behind)),
            None => Err(unexpected(at)),
        },
        _ => Err(unexpected(at)),
    }
}

// The operator that a sign says.
fn op_of(sign: Sign) -> Option<Op>
    ensures { result ≡ op_of_sign sign }
{
    match sign {
        Sign::Equal => Some(Op::Equal),
        Sign::NotEqual => Some(Op::NotEqual),
        Sign::Less => Some(Op::Less),
        Sign::LessEqual => Some(Op::LessEqual),
        Sign::Greater => Some(Op::Greater),
        Sign::GreaterEqual => Some(Op::GreaterEqual),
        _ => None,
    }
}
