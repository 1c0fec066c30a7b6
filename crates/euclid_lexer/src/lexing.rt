//! The tokens of a whole text.

ghost use Rattle.std.specs.Prelude.{◌≤◌, length};
ghost use Rattle.key_table.specs.Answers.{Answers};
ghost use Rattle.euclid_lexer.specs.Longest.{LongestLaw};
ghost use Rattle.euclid_lexer.specs.Pieces.{PiecesLaw, WrittenLaw};
ghost use Rattle.euclid_lexer.specs.Tokens.{tokens_from, tokens_of};

use crate::error::{LexError, NOT_UTF8, fault};
use crate::front::{is_white, token};
use crate::token::Placed;
use key_table::{Seq, Stop};
use std::alloc::Global;
use std::str;

/// The tokens of a text of at most 1,048,576 bytes, in order, each with the number of its first byte, counted from 0. White
/// space separates tokens: space, tab, carriage return and line feed. At each place the longest token that fits is read.
/// Where the bytes are no UTF-8, that is the fault, whatever else stands in them; else it is the first from the left.
pub fn lex(alloc: Global, bytes: &[u8]) -> Result<Seq<Placed>, Stop<LexError>>
    requires { length bytes.now ≤ 1048576 }
    ensures tokens { Answers (λ s. s) result (tokens_of bytes.now) }
{
    match str::from_utf8(bytes) {
        Ok(text) => tokens(alloc, text),
        Err(error) => Err(fault(error.valid_up_to() as u32, NOT_UTF8)),
    }
}

// The tokens of a text, whose first byte has number 0.
fn tokens(alloc: Global, text: &str) -> Result<Seq<Placed>, Stop<LexError>>
    requires { length text.now ≤ 1048576 }
    ensures { Answers (λ s. s) result (tokens_from 0 0 text.now) }
{
    let mut placed = Seq::new(alloc);
    let mut rest = text;
    'bytes: while let Some(first) = rest.as_bytes().first() {
        if is_white(*first) {
            rest = &rest[1..];
            continue;
        }
        let at = (text.len() - rest.len()) as u32;
        let (token, len) = token(alloc, at, rest)?;
        placed.push(Placed { at, token })?;
        rest = &rest[len..];
    }
    Ok(placed)
}

/// A text that is put together from tokens and white space has these tokens and no others, where no byte right behind a
/// token is taken for more of it.
pub fn pieces_law()
    ensures { PiecesLaw }
{}

/// The token that is read at a place is the longest that fits there.
pub fn longest_law()
    ensures { LongestLaw }
{}

/// Each token of a text can be written: a word is a word of at most 255 bytes, a string is UTF-8 and has no quote, no line
/// feed and at most 255 bytes, and a number fits signed 64 bits.
pub fn written_law()
    ensures { WrittenLaw }
{}
