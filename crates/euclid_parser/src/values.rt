//! Values and comparisons, read.

ghost use Rattle.std.specs.Prelude.{◌≡◌, length, ◌<◌, ◌≤◌, IfOk};
ghost use Rattle.key_table.specs.Answers.{Answers};
ghost use Rattle.euclid_grammar.specs.Texts.{tokens_alone};
ghost use Rattle.euclid_parser.specs.Reading.{text_reader, items_reader, array_reader, value_reader, condition_reader};

use crate::cursor::{Cursor, too_much, unexpected};
use crate::fault::Fault;
use crate::items::{Item, read_separated};
use crate::limits::{MOST_COMPARISONS, MOST_ITEMS};
use crate::tokens::{
    read_number, read_op, read_sign, read_str, read_word, starts_with, starts_with_number,
    starts_with_op, starts_with_str, starts_with_word,
};
use euclid_ast::{Comparison, NumberTest, ValueForm};
use euclid_grammar::Counts;
use euclid_lexer::Sign;
use key_table::{Seq, Stop, Text};
use std::alloc::Global;

impl Item for i64 {
    ghost use Rattle.euclid_parser.specs.Reading.{number_item};

    ghost reader = { number_item };

    #[tactic(auto, unfolding(crate::specs::Reading::number_item))]
    fn read<'a>(
        alloc: Global,
        before: usize,
        at: Cursor<'a>,
    ) -> Result<(Self, Cursor<'a>), Stop<Fault>> {
        if before >= MOST_ITEMS && starts_with_number(at) {
            return Err(too_much(at));
        }
        read_number(at)
    }
}

impl Item for Text {
    ghost use Rattle.euclid_parser.specs.Reading.{word_item};

    ghost reader = { word_item };

    #[tactic(auto, unfolding(crate::specs::Reading::word_item))]
    fn read<'a>(
        alloc: Global,
        before: usize,
        at: Cursor<'a>,
    ) -> Result<(Self, Cursor<'a>), Stop<Fault>> {
        if before >= MOST_ITEMS && starts_with_word(at) {
            return Err(too_much(at));
        }
        read_word(at)
    }
}

impl Item for NumberTest {
    ghost use Rattle.euclid_parser.specs.Reading.{test_item};

    ghost reader = { test_item };

    #[tactic(auto, unfolding(crate::specs::Reading::test_item))]
    fn read<'a>(
        alloc: Global,
        before: usize,
        at: Cursor<'a>,
    ) -> Result<(Self, Cursor<'a>), Stop<Fault>> {
        if before >= MOST_ITEMS && starts_with_op(at) {
            return Err(too_much(at));
        }
        let (op, next) = read_op(at)?;
        let (number, next) = read_number(next)?;
        Ok((NumberTest { op, number }, next))
    }
}

impl Item for Comparison {
    ghost use Rattle.euclid_parser.specs.Reading.{comparison_reader};

    ghost reader = { comparison_reader };

    #[tactic(auto, unfolding(crate::specs::Reading::comparison_reader))]
    fn read<'a>(
        alloc: Global,
        before: usize,
        at: Cursor<'a>,
    ) -> Result<(Self, Cursor<'a>), Stop<Fault>> {
        if !starts_with_word(at) {
            return Err(unexpected(at));
        }
        if at.counts.comparisons >= MOST_COMPARISONS {
            return Err(too_much(at));
        }
        let counts = Counts {
            comparisons: at.counts.comparisons + 1,
            ..at.counts
        };
        let at = Cursor { counts, ..at };
        let (lhs, next) = read_word(at)?;
        let (op, next) = read_op(next)?;
        let (value, next) = read_value(alloc, next)?;
        Ok((Comparison { lhs, op, value }, next))
    }
}

/// Comparisons with `&` between two of them, and the place behind them.
#[tactic(auto, unfolding(crate::specs::Reading::condition_reader))]
pub(crate) fn read_condition<'a>(
    alloc: Global,
    at: Cursor<'a>,
) -> Result<(Seq<Comparison>, Cursor<'a>), Stop<Fault>>
    ensures gives { Answers (λ x. (x.0, x.1.counts, tokens_alone x.1.tokens.now)) result (condition_reader at.entry.counts (tokens_alone at.entry.tokens.now)) }
    ensures shorter { IfOk result (λ x. length x.1.tokens.now < length at.entry.tokens.now) }
{
    read_separated(alloc, Sign::Ampersand, at)
}

// A value, of which the first token says its kind.
#[tactic(auto, unfolding(crate::specs::Reading::value_reader))]
fn read_value<'a>(alloc: Global, at: Cursor<'a>) -> Result<(ValueForm, Cursor<'a>), Stop<Fault>>
    ensures gives { Answers (λ x. (x.0, x.1.counts, tokens_alone x.1.tokens.now)) result (value_reader at.entry.counts (tokens_alone at.entry.tokens.now)) }
    ensures shorter { IfOk result (λ x. length x.1.tokens.now < length at.entry.tokens.now) }
{
    if starts_with_number(at) {
        let (number, next) = read_number(at)?;
        return Ok((ValueForm::Number(number), next));
    }
    if starts_with_word(at) {
        let (word, next) = read_word(at)?;
        return Ok((ValueForm::Variant(word), next));
    }
    if starts_with_str(at) {
        return read_text(at);
    }
    read_array(alloc, at)
}

// A text, or a key and its value.
#[tactic(auto, unfolding(crate::specs::Reading::text_reader))]
fn read_text<'a>(at: Cursor<'a>) -> Result<(ValueForm, Cursor<'a>), Stop<Fault>>
    ensures gives { Answers (λ x. (x.0, x.1.counts, tokens_alone x.1.tokens.now)) result (text_reader at.entry.counts (tokens_alone at.entry.tokens.now)) }
    ensures shorter { IfOk result (λ x. length x.1.tokens.now < length at.entry.tokens.now) }
{
    let (text, next) = read_str(at)?;
    if !starts_with(Sign::Colon, next) {
        return Ok((ValueForm::Str(text), next));
    }
    let next = read_sign(Sign::Colon, next)?;
    let (value, next) = read_str(next)?;
    Ok((ValueForm::Metadata { key: text, value }, next))
}

// An array in round brackets, which is not empty.
#[tactic(auto, unfolding(crate::specs::Reading::array_reader))]
fn read_array<'a>(alloc: Global, at: Cursor<'a>) -> Result<(ValueForm, Cursor<'a>), Stop<Fault>>
    ensures gives { Answers (λ x. (x.0, x.1.counts, tokens_alone x.1.tokens.now)) result (array_reader at.entry.counts (tokens_alone at.entry.tokens.now)) }
    ensures shorter { IfOk result (λ x. length x.1.tokens.now < length at.entry.tokens.now) }
{
    let next = read_sign(Sign::RoundOpen, at)?;
    let (items, next) = read_items(alloc, next)?;
    let next = read_sign(Sign::RoundClose, next)?;
    Ok((items, next))
}

// The items of an array, of which the first says their kind.
#[tactic(auto, unfolding(crate::specs::Reading::items_reader))]
fn read_items<'a>(alloc: Global, at: Cursor<'a>) -> Result<(ValueForm, Cursor<'a>), Stop<Fault>>
    ensures gives { Answers (λ x. (x.0, x.1.counts, tokens_alone x.1.tokens.now)) result (items_reader at.entry.counts (tokens_alone at.entry.tokens.now)) }
    ensures shorter { IfOk result (λ x. length x.1.tokens.now < length at.entry.tokens.now) }
{
    if starts_with_number(at) {
        let (numbers, next) = read_separated(alloc, Sign::Comma, at)?;
        return Ok((ValueForm::Numbers(numbers), next));
    }
    if starts_with_word(at) {
        let (words, next) = read_separated(alloc, Sign::Comma, at)?;
        return Ok((ValueForm::Variants(words), next));
    }
    let (tests, next) = read_separated(alloc, Sign::Comma, at)?;
    Ok((ValueForm::NumberTests(tests), next))
}
