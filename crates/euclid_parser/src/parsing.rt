//! The text form, parsed.

ghost use Rattle.std.specs.Prelude.{◌≡◌, ◌≤◌, length, Result, IfOk};
ghost use Rattle.key_table.specs.Answers.{Answers};
ghost use Rattle.euclid_ast.specs.Limits.{IsWithinLimits};
ghost use Rattle.euclid_lexer.specs.Tokens.{tokens_of};
ghost use Rattle.euclid_parser.specs.Parsing.{IsRight, IsRightAnswer};
ghost use Rattle.euclid_parser.specs.TextFiles.{fault_at, or_told, text_file};

use crate::error::{ParseError, TOO_MUCH, UNEXPECTED};
use crate::fault::{Code, Fault};
use crate::program::parse_tokens;
use euclid_ast::Program;
use euclid_grammar::limits_law;
use euclid_lexer::{Placed, lex, written_law};
use key_table::{Seq, Stop};
use std::alloc::Global;

/// The program of a text, or its first fault, which is the lexer's where the text has no tokens. Else it is at the first
/// token that cannot stand where it does, or that begins one too many, or at the length of the text where more tokens are
/// missing.
pub fn parse(alloc: Global, bytes: &[u8]) -> Result<Program, Stop<ParseError>>
    requires { length bytes.now ≤ 1048576 }
    // Each answer is right.
    ensures right { IsRightAnswer bytes.now result }
    // What is right is answered, unless memory runs out.
    ensures only { (r : Result Program ParseError) → IsRight bytes.now r → Answers (λ p. p) result r }
    ensures text { Answers (λ p. p) result (text_file bytes.now) }
    ensures within { IfOk result (λ p. IsWithinLimits p) }
{
    written_law();
    limits_law();
    parse_text(alloc, bytes)
}

#[tactic(auto, unfolding(crate::specs::TextFiles::text_file))]
fn parse_text(alloc: Global, bytes: &[u8]) -> Result<Program, Stop<ParseError>>
    requires { length bytes.now ≤ 1048576 }
    ensures { Answers (λ p. p) result (text_file bytes.now) }
{
    let placed = read_tokens(alloc, bytes)?;
    let tokens = placed.as_slice();
    match parse_tokens(alloc, tokens) {
        Ok(program) => Ok(program),
        Err(Stop::Memory) => Err(Stop::Memory),
        Err(Stop::Fault(fault)) => Err(Stop::Fault(error_at(bytes.len(), tokens, fault))),
    }
}

// The tokens of a text, or the lexer's fault.
fn read_tokens(alloc: Global, bytes: &[u8]) -> Result<Seq<Placed>, Stop<ParseError>>
    requires { length bytes.now ≤ 1048576 }
    ensures { Answers (λ ts. ts) result (or_told (tokens_of bytes.now)) }
{
    match lex(alloc, bytes) {
        Ok(tokens) => Ok(tokens),
        Err(Stop::Memory) => Err(Stop::Memory),
        Err(Stop::Fault(fault)) => Err(Stop::Fault(ParseError {
            at: fault.at,
            code: fault.code,
        })),
    }
}

// A fault at its byte, in a text of so many bytes.
fn error_at(end: usize, tokens: &[Placed], fault: Fault) -> ParseError
    requires short { end ≤ 1048576 }
    requires left { fault.left ≤ length tokens.now }
    ensures { result ≡ fault_at end tokens.now fault }
{
    let at = match tokens.get(tokens.len() - fault.left) {
        Some(token) => token.at,
        None => end as u32,
    };
    let code = match fault.code {
        Code::Unexpected => UNEXPECTED,
        Code::TooMuch => TOO_MUCH,
    };
    ParseError { at, code }
}
