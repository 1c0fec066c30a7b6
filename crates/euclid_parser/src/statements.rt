//! Statements, read.

ghost use Rattle.std.specs.Prelude.{◌≡◌, length, ◌<◌, ◌≤◌, IfOk};
ghost use Rattle.key_table.specs.Answers.{Answers};
ghost use Rattle.euclid_grammar.specs.Texts.{tokens_alone};
ghost use Rattle.euclid_parser.specs.Reading.{statement_reader, statements_reader, nested_reader, block_reader};

use crate::cursor::{Cursor, too_much, unexpected};
use crate::fault::Fault;
use crate::limits::{MOST_LEVELS_BELOW, MOST_STATEMENTS};
use crate::tokens::{read_sign, starts_with, starts_with_word};
use crate::values::read_condition;
use euclid_ast::Statement;
use euclid_grammar::Counts;
use euclid_lexer::Sign;
use key_table::{Seq, Stop};
use std::alloc::Global;

/// The statements of a rule, in curly brackets, and the place behind them.
#[tactic(auto, unfolding(crate::specs::Reading::block_reader))]
pub(crate) fn read_block<'a>(
    alloc: Global,
    at: Cursor<'a>,
) -> Result<(Seq<Statement>, Cursor<'a>), Stop<Fault>>
    ensures gives { Answers (λ x. (x.0, x.1.counts, tokens_alone x.1.tokens.now)) result (block_reader 31 at.entry.counts (tokens_alone at.entry.tokens.now)) }
    ensures shorter { IfOk result (λ x. length x.1.tokens.now < length at.entry.tokens.now) }
{
    let next = read_sign(Sign::CurlyOpen, at)?;
    let (statements, next) = read_statements(alloc, MOST_LEVELS_BELOW, next)?;
    let next = read_sign(Sign::CurlyClose, next)?;
    Ok((statements, next))
}

// As many statements as there are, below which there may be so many levels.
#[cycle(statements)]
#[tactic(auto, unfolding(crate::specs::Reading::statements_reader))]
fn read_statements<'a>(
    alloc: Global,
    levels: usize,
    at: Cursor<'a>,
) -> Result<(Seq<Statement>, Cursor<'a>), Stop<Fault>>
    ensures gives { Answers (λ x. (x.0, x.1.counts, tokens_alone x.1.tokens.now)) result (statements_reader (statement_reader levels) at.entry.counts (tokens_alone at.entry.tokens.now)) }
    ensures no_longer { IfOk result (λ x. length x.1.tokens.now ≤ length at.entry.tokens.now) }
{
    let mut statements = Seq::new(alloc);
    let mut rest = at;
    'statements: while starts_with_word(rest) {
        let (statement, next) = read_statement(alloc, levels, rest)?;
        statements.push(statement)?;
        rest = next;
    }
    Ok((statements, rest))
}

// A statement, below which there may be so many levels.
#[cycle(statements)]
#[tactic(auto, unfolding(crate::specs::Reading::statement_reader, crate::specs::Reading::condition_reader, crate::specs::Reading::separated, crate::specs::Reading::comparison_reader))]
fn read_statement<'a>(
    alloc: Global,
    levels: usize,
    at: Cursor<'a>,
) -> Result<(Statement, Cursor<'a>), Stop<Fault>>
    ensures gives { Answers (λ x. (x.0, x.1.counts, tokens_alone x.1.tokens.now)) result (statement_reader levels at.entry.counts (tokens_alone at.entry.tokens.now)) }
    ensures shorter { IfOk result (λ x. length x.1.tokens.now < length at.entry.tokens.now) }
{
    if !starts_with_word(at) {
        return Err(unexpected(at));
    }
    if at.counts.statements >= MOST_STATEMENTS {
        return Err(too_much(at));
    }
    let counts = Counts {
        statements: at.counts.statements + 1,
        ..at.counts
    };
    let at = Cursor { counts, ..at };
    let (condition, next) = read_condition(alloc, at)?;
    if !starts_with(Sign::CurlyOpen, next) {
        let nested = None;
        return Ok((Statement { condition, nested }, next));
    }
    if levels == 0 {
        return Err(too_much(next));
    }
    let (nested, next) = read_nested(alloc, levels - 1, next)?;
    let nested = Some(nested);
    Ok((Statement { condition, nested }, next))
}

// At least one statement, in curly brackets.
#[cycle(statements)]
#[tactic(auto, unfolding(crate::specs::Reading::nested_reader))]
fn read_nested<'a>(
    alloc: Global,
    levels: usize,
    at: Cursor<'a>,
) -> Result<(Seq<Statement>, Cursor<'a>), Stop<Fault>>
    ensures gives { Answers (λ x. (x.0, x.1.counts, tokens_alone x.1.tokens.now)) result (nested_reader (statement_reader levels) at.entry.counts (tokens_alone at.entry.tokens.now)) }
    ensures shorter { IfOk result (λ x. length x.1.tokens.now < length at.entry.tokens.now) }
{
    let next = read_sign(Sign::CurlyOpen, at)?;
    if !starts_with_word(next) {
        return Err(unexpected(next));
    }
    let (statements, next) = read_statements(alloc, levels, next)?;
    let next = read_sign(Sign::CurlyClose, next)?;
    Ok((statements, next))
}
