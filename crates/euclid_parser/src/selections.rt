//! Selections, read.

ghost use Rattle.std.specs.Prelude.{◌≡◌, length, ◌<◌, ◌≤◌, IfOk};
ghost use Rattle.key_table.specs.Answers.{Answers};
ghost use Rattle.euclid_grammar.specs.Texts.{tokens_alone};
ghost use Rattle.euclid_parser.specs.Reading.{account_reader, listed_reader, selection_reader};

use crate::cursor::{Cursor, too_much};
use crate::fault::Fault;
use crate::items::{Item, read_separated};
use crate::limits::{MOST_ITEMS, MOST_POINTS, MOST_SPLIT};
use crate::tokens::{
    read_amount, read_sign, read_small, read_str, read_the_word, starts_with, starts_with_str,
    starts_with_the_word,
};
use euclid_ast::{Account, Selection, Share, ThreeDs};
use euclid_lexer::Sign;
use key_table::{Seq, Stop};
use std::alloc::Global;

impl Item for Account {
    ghost use Rattle.euclid_parser.specs.Reading.{account_item};

    ghost reader = { account_item };

    #[tactic(auto, unfolding(crate::specs::Reading::account_item))]
    fn read<'a>(
        alloc: Global,
        before: usize,
        at: Cursor<'a>,
    ) -> Result<(Self, Cursor<'a>), Stop<Fault>> {
        if before >= MOST_ITEMS && starts_with_str(at) {
            return Err(too_much(at));
        }
        read_account(at)
    }
}

impl Item for Share {
    ghost use Rattle.euclid_parser.specs.Reading.{share_item};

    ghost reader = { share_item };

    #[tactic(auto, unfolding(crate::specs::Reading::share_item))]
    fn read<'a>(
        alloc: Global,
        before: usize,
        at: Cursor<'a>,
    ) -> Result<(Self, Cursor<'a>), Stop<Fault>> {
        if before >= MOST_ITEMS && starts_with_str(at) {
            return Err(too_much(at));
        }
        let (account, next) = read_account(at)?;
        let next = read_sign(Sign::Percent, next)?;
        let (split, next) = read_small(MOST_SPLIT, next)?;
        let split = split as u8;
        Ok((Share { account, split }, next))
    }
}

// A connector, and perhaps an id behind `@`.
#[tactic(auto, unfolding(crate::specs::Reading::account_reader))]
fn read_account<'a>(at: Cursor<'a>) -> Result<(Account, Cursor<'a>), Stop<Fault>>
    ensures gives { Answers (λ x. (x.0, x.1.counts, tokens_alone x.1.tokens.now)) result (account_reader at.entry.counts (tokens_alone at.entry.tokens.now)) }
    ensures shorter { IfOk result (λ x. length x.1.tokens.now < length at.entry.tokens.now) }
{
    let (connector, next) = read_str(at)?;
    if !starts_with(Sign::AtSign, next) {
        let id = None;
        return Ok((Account { connector, id }, next));
    }
    let next = read_sign(Sign::AtSign, next)?;
    let (id, next) = read_str(next)?;
    let id = Some(id);
    Ok((Account { connector, id }, next))
}

// A list in square brackets, perhaps empty.
#[tactic(auto, unfolding(crate::specs::Reading::listed_reader))]
fn read_listed<'a, T: Item + Drop>(
    alloc: Global,
    at: Cursor<'a>,
) -> Result<(Seq<T>, Cursor<'a>), Stop<Fault>>
    ensures gives { Answers (λ x. (x.0, x.1.counts, tokens_alone x.1.tokens.now)) result (listed_reader T.reader at.entry.counts (tokens_alone at.entry.tokens.now)) }
    ensures shorter { IfOk result (λ x. length x.1.tokens.now < length at.entry.tokens.now) }
{
    let next = read_sign(Sign::SquareOpen, at)?;
    if !starts_with_str(next) {
        let next = read_sign(Sign::SquareClose, next)?;
        return Ok((Seq::new(alloc), next));
    }
    let (items, next) = read_separated(alloc, Sign::Comma, next)?;
    let next = read_sign(Sign::SquareClose, next)?;
    Ok((items, next))
}

/// A selection, and the place behind it. Its first token says its kind.
#[tactic(auto, unfolding(crate::specs::Reading::selection_reader))]
pub(crate) fn read_selection<'a>(
    alloc: Global,
    at: Cursor<'a>,
) -> Result<(Selection, Cursor<'a>), Stop<Fault>>
    ensures gives { Answers (λ x. (x.0, x.1.counts, tokens_alone x.1.tokens.now)) result (selection_reader at.entry.counts (tokens_alone at.entry.tokens.now)) }
    ensures shorter { IfOk result (λ x. length x.1.tokens.now < length at.entry.tokens.now) }
{
    if starts_with(Sign::SquareOpen, at) {
        let (accounts, next) = read_listed(alloc, at)?;
        return Ok((Selection::Priority(accounts), next));
    }
    if starts_with_the_word("split", at) {
        let next = read_the_word("split", at)?;
        let (shares, next) = read_listed(alloc, next)?;
        return Ok((Selection::Volume(shares), next));
    }
    if starts_with_the_word("surcharge", at) {
        let next = read_the_word("surcharge", at)?;
        let (amount, next) = read_amount(next)?;
        return Ok((Selection::SurchargeFixed(amount), next));
    }
    if starts_with_the_word("rate", at) {
        let next = read_the_word("rate", at)?;
        let (rate, next) = read_small(MOST_POINTS, next)?;
        return Ok((Selection::SurchargeRate(rate), next));
    }
    if starts_with_the_word("three_ds", at) {
        let next = read_the_word("three_ds", at)?;
        return Ok((Selection::Auth(ThreeDs::ThreeDs), next));
    }
    if starts_with_the_word("no_three_ds", at) {
        let next = read_the_word("no_three_ds", at)?;
        return Ok((Selection::Auth(ThreeDs::NoThreeDs), next));
    }
    let next = read_the_word("none", at)?;
    Ok((Selection::Nothing, next))
}
