//! The token at the front of a text.

ghost use Rattle.std.specs.Prelude.{◌≡◌, ◌<◌, ◌≤◌, ◌+◌, ◌==◌, length, drop, true, IfOk};
ghost use Rattle.std.specs.List.{prefix_len, find};
ghost use Rattle.key_table.specs.Answers.{Answers};
ghost use Rattle.key_table.specs.Names.{is_letter, is_letter_or_digit};
ghost use Rattle.euclid_lexer.specs.Signs.{sign_text, signs};
ghost use Rattle.euclid_lexer.specs.Tokens.{is_white, is_digit, is_inner, next_is, token_at, word_at, string_at, begins_number, number_at, sign_at, begins};
ghost use Rattle.euclid_lexer.specs.Cuts.{IsWhole};

use crate::error::{BAD_BYTE, LIMIT, LexError, NUMBER_RANGE, OPEN_STRING, fault};
use crate::token::{Sign, Token};
use key_table::{Stop, Text};
use std::alloc::Global;

// The most bytes of a word or a string.
const MOST_BYTES: usize = 255;

// White space: space, tab, carriage return and line feed.
pub(crate) fn is_white(byte: u8) -> bool
    ensures { result ≡ is_white byte }
{
    matches!(byte, b' ' | b'\t' | b'\r' | b'\n')
}

fn is_letter(byte: u8) -> bool
    ensures { result ≡ is_letter byte }
{
    byte.is_ascii_alphabetic() || byte == b'_'
}

fn is_letter_or_digit(byte: u8) -> bool
    ensures { result ≡ is_letter_or_digit byte }
{
    is_letter(byte) || is_digit(byte)
}

fn is_digit(byte: u8) -> bool
    ensures { result ≡ is_digit byte }
{
    byte.is_ascii_digit()
}

// How many bytes at the front are letters and digits.
fn letters_and_digits(bytes: &[u8]) -> usize
    ensures { result ≡ prefix_len is_letter_or_digit bytes.now }
{
    bytes
        .iter()
        .take_while(|byte| is_letter_or_digit(**byte))
        .count()
}

// How many bytes at the front are digits.
fn digits(bytes: &[u8]) -> usize
    ensures { result ≡ prefix_len is_digit bytes.now }
{
    bytes.iter().take_while(|byte| is_digit(**byte)).count()
}

// How many bytes a number takes, whose first byte, a digit or `-`, is not looked at.
fn number_len(bytes: &[u8]) -> usize
    requires { 0 < length bytes.now }
    ensures len { result ≡ 1 + prefix_len is_digit (drop 1 bytes.now) }
    ensures within { result ≤ length bytes.now }
{
    match bytes {
        [_, behind @ ..] => 1 + digits(behind),
        [] => 0,
    }
}

// How many bytes at the front may stand within a string, as any but a quote and a line feed.
fn inner(bytes: &[u8]) -> usize
    ensures { result ≡ prefix_len is_inner bytes.now }
{
    bytes
        .iter()
        .take_while(|byte| !matches!(**byte, b'"' | b'\n'))
        .count()
}

// The token at the front, and how many bytes it takes.
#[tactic(auto, unfolding(crate::specs::Tokens::token_at))]
pub(crate) fn token(alloc: Global, at: u32, text: &str) -> Result<(Token, usize), Stop<LexError>>
    requires { 0 < length text.now }
    ensures token { Answers (λ x. x) result (token_at at text.now) }
    ensures whole { IfOk result (λ x. IsWhole x.1 text.now) }
{
    match text.as_bytes() {
        [b, ..] if is_letter(*b) => word(alloc, at, text),
        [b'"', ..] => string(alloc, at, text),
        bytes if begins_number(bytes) => number(at, text),
        _ => sign(at, text),
    }
}

// The word at the front, which begins with a letter or `_`.
fn word(alloc: Global, at: u32, text: &str) -> Result<(Token, usize), Stop<LexError>>
    requires { next_is is_letter text.now ≡ true }
    ensures word { Answers (λ x. x) result (word_at at text.now) }
    ensures whole { IfOk result (λ x. IsWhole x.1 text.now) }
{
    let len = letters_and_digits(text.as_bytes());
    if len > MOST_BYTES {
        return Err(fault(at, LIMIT));
    }
    let word = Text::from_str(alloc, &text[..len])?;
    Ok((Token::Word(word), len))
}

// The string at the front, which begins with a quote.
fn string(alloc: Global, at: u32, text: &str) -> Result<(Token, usize), Stop<LexError>>
    requires { next_is (λ b. b == 34) text.now ≡ true }
    ensures string { Answers (λ x. x) result (string_at at text.now) }
    ensures whole { IfOk result (λ x. IsWhole x.1 text.now) }
{
    let behind = &text[1..];
    let len = inner(behind.as_bytes());
    if !has_quote_at(behind.as_bytes(), len) {
        return Err(fault(at, OPEN_STRING));
    }
    if len > MOST_BYTES {
        return Err(fault(at, LIMIT));
    }
    let content = Text::from_str(alloc, &behind[..len])?;
    Ok((Token::Str(content), len + 2))
}

fn has_quote_at(bytes: &[u8], place: usize) -> bool
    ensures { result ≡ next_is (λ c. c == 34) (drop place bytes.now) }
{
    bytes.get(place) == Some(&b'"')
}

// Whether the bytes begin with a digit, or with `-` and a digit.
fn begins_number(bytes: &[u8]) -> bool
    ensures { result ≡ begins_number bytes.now }
{
    match bytes {
        [b'-', b, ..] => is_digit(*b),
        [b, ..] => is_digit(*b),
        [] => false,
    }
}

// The number at the front, where one begins there.
fn number(at: u32, text: &str) -> Result<(Token, usize), Stop<LexError>>
    requires { begins_number text.now ≡ true }
    ensures number { Answers (λ x. x) result (number_at at text.now) }
    ensures whole { IfOk result (λ x. IsWhole x.1 text.now) }
{
    let len = number_len(text.as_bytes());
    match text[..len].parse::<i64>() {
        Ok(number) => Ok((Token::Number(number), len)),
        Err(_) => Err(fault(at, NUMBER_RANGE)),
    }
}

// The sign at the front, and how many bytes it has.
fn sign(at: u32, text: &str) -> Result<(Token, usize), Stop<LexError>>
    ensures sign { Answers (λ x. x) result (sign_at at text.now) }
    ensures whole { IfOk result (λ x. IsWhole x.1 text.now) }
{
    match sign_in(text.as_bytes()) {
        Some(sign) => Ok((Token::Sign(sign), sign.len())),
        None => Err(fault(at, BAD_BYTE)),
    }
}

// The longest sign that stands at the front.
fn sign_in(bytes: &[u8]) -> Option<Sign>
    ensures { result ≡ find (λ s. begins (sign_text s) bytes.now) signs }
{
    match bytes {
        [b':', ..] => Some(Sign::Colon),
        [b'[', ..] => Some(Sign::SquareOpen),
        [b']', ..] => Some(Sign::SquareClose),
        [b'{', ..] => Some(Sign::CurlyOpen),
        [b'}', ..] => Some(Sign::CurlyClose),
        [b'(', ..] => Some(Sign::RoundOpen),
        [b')', ..] => Some(Sign::RoundClose),
        [b',', ..] => Some(Sign::Comma),
        [b'&', ..] => Some(Sign::Ampersand),
        [b'@', ..] => Some(Sign::AtSign),
        [b'%', ..] => Some(Sign::Percent),
        [b'=', ..] => Some(Sign::Equal),
        [b'/', b'=', ..] => Some(Sign::NotEqual),
        [b'<', b'=', ..] => Some(Sign::LessEqual),
        [b'<', ..] => Some(Sign::Less),
        [b'>', b'=', ..] => Some(Sign::GreaterEqual),
        [b'>', ..] => Some(Sign::Greater),
        _ => None,
    }
}
