//! Rules and programs, read.

ghost use Rattle.std.specs.Prelude.{◌≡◌, length, ◌<◌, IfOk};
ghost use Rattle.key_table.specs.Answers.{Answers};
ghost use Rattle.euclid_grammar.specs.Texts.{tokens_alone};
ghost use Rattle.euclid_parser.specs.Reader.{starts};
ghost use Rattle.euclid_parser.specs.Reading.{is_name_token, name_reader, rule_reader, rules_reader, program_reader, all_of};

use crate::cursor::{Cursor, too_much, unexpected};
use crate::fault::Fault;
use crate::limits::MOST_RULES;
use crate::selections::read_selection;
use crate::statements::read_block;
use crate::tokens::{
    read_sign, read_str, read_the_word, read_word, starts_with_str, starts_with_word,
};
use euclid_ast::{Program, Rule};
use euclid_grammar::Counts;
use euclid_lexer::{Placed, Sign};
use key_table::{Seq, Stop, Text};
use std::alloc::Global;

/// The program that the tokens spell. Else the fault is at the first token up to which the tokens begin a program within
/// the limits, and with which they begin none, or one in which it begins one too many.
#[tactic(auto, unfolding(crate::specs::Reading::all_of))]
pub(crate) fn parse_tokens(alloc: Global, tokens: &[Placed]) -> Result<Program, Stop<Fault>>
    ensures { Answers (λ p. p) result (all_of (tokens_alone tokens.now)) }
{
    let counts = Counts {
        statements: 0,
        comparisons: 0,
    };
    let (program, next) = read_program(alloc, Cursor { tokens, counts })?;
    if !next.tokens.is_empty() {
        return Err(unexpected(next));
    }
    Ok(program)
}

// A program, and the place behind it.
#[tactic(auto, unfolding(crate::specs::Reading::program_reader))]
fn read_program<'a>(alloc: Global, at: Cursor<'a>) -> Result<(Program, Cursor<'a>), Stop<Fault>>
    ensures { Answers (λ x. (x.0, x.1.counts, tokens_alone x.1.tokens.now)) result (program_reader at.entry.counts (tokens_alone at.entry.tokens.now)) }
{
    let next = read_the_word("default", at)?;
    let next = read_sign(Sign::Colon, next)?;
    let (default_selection, next) = read_selection(alloc, next)?;
    let (rules, next) = read_rules(alloc, next)?;
    let program = Program {
        default_selection,
        rules,
    };
    Ok((program, next))
}

// As many rules as there are.
#[tactic(auto, unfolding(crate::specs::Reading::rules_reader))]
fn read_rules<'a>(alloc: Global, at: Cursor<'a>) -> Result<(Seq<Rule>, Cursor<'a>), Stop<Fault>>
    ensures { Answers (λ x. (x.0, x.1.counts, tokens_alone x.1.tokens.now)) result (rules_reader at.entry.counts (tokens_alone at.entry.tokens.now)) }
{
    let mut rules = Seq::new(alloc);
    let mut rest = at;
    'rules: while starts_with_name(rest) {
        let (rule, next) = read_rule(alloc, rules.as_slice().len(), rest)?;
        rules.push(rule)?;
        rest = next;
    }
    Ok((rules, rest))
}

// A rule, before which so many stand.
#[tactic(auto, unfolding(crate::specs::Reading::rule_reader))]
fn read_rule<'a>(
    alloc: Global,
    before: usize,
    at: Cursor<'a>,
) -> Result<(Rule, Cursor<'a>), Stop<Fault>>
    ensures gives { Answers (λ x. (x.0, x.1.counts, tokens_alone x.1.tokens.now)) result (rule_reader before at.entry.counts (tokens_alone at.entry.tokens.now)) }
    ensures shorter { IfOk result (λ x. length x.1.tokens.now < length at.entry.tokens.now) }
{
    if before >= MOST_RULES && starts_with_name(at) {
        return Err(too_much(at));
    }
    let (name, next) = read_name(at)?;
    let next = read_sign(Sign::Colon, next)?;
    let (selection, next) = read_selection(alloc, next)?;
    let (statements, next) = read_block(alloc, next)?;
    let rule = Rule {
        name,
        selection,
        statements,
    };
    Ok((rule, next))
}

// Whether a rule's name comes next, which is a word or a string.
fn starts_with_name(at: Cursor) -> bool
    ensures { result ≡ starts is_name_token (tokens_alone at.entry.tokens.now) }
{
    starts_with_word(at) || starts_with_str(at)
}

// A rule's name.
fn read_name<'a>(at: Cursor<'a>) -> Result<(Text, Cursor<'a>), Stop<Fault>>
    ensures gives { Answers (λ x. (x.0, x.1.counts, tokens_alone x.1.tokens.now)) result (name_reader at.entry.counts (tokens_alone at.entry.tokens.now)) }
    ensures shorter { IfOk result (λ x. length x.1.tokens.now < length at.entry.tokens.now) }
{
    if starts_with_word(at) {
        return read_word(at);
    }
    read_str(at)
}
