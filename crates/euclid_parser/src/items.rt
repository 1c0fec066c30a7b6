//! Lists of items with a sign between two of them.

ghost use Rattle.std.specs.Prelude.{◌≡◌, length, ◌<◌, IfOk};
ghost use Rattle.key_table.specs.Answers.{Answers};
ghost use Rattle.euclid_grammar.specs.Texts.{tokens_alone};
ghost use Rattle.euclid_parser.specs.Reading.{next_reader, separated};

use crate::cursor::Cursor;
use crate::fault::Fault;
use crate::tokens::{read_sign, starts_with};
use euclid_lexer::Sign;
use key_table::{Seq, Stop};
use std::alloc::Global;

/// What stands in a list. An item is one too many where too many stand before it, and a comparison where the program has
/// too many.
pub(crate) trait Item: Sized {
    ghost use Rattle.std.specs.Prelude.{ℕ};
    ghost use Rattle.euclid_parser.specs.Reader.{Reader};

    // How item number i is read.
    ghost reader: { ℕ → Reader Self };

    /// The item before which so many stand in its list, and the place behind it.
    fn read<'a>(
        alloc: Global,
        before: usize,
        at: Cursor<'a>,
    ) -> Result<(Self, Cursor<'a>), Stop<Fault>>
        ensures gives { Answers (λ x. (x.0, x.1.counts, tokens_alone x.1.tokens.now)) result (reader before at.entry.counts (tokens_alone at.entry.tokens.now)) }
        ensures shorter { IfOk result (λ x. length x.1.tokens.now < length at.entry.tokens.now) };
}

/// Items with the separator between two of them, at least one, and the place behind them.
#[tactic(auto, unfolding(crate::specs::Reading::separated))]
pub(crate) fn read_separated<'a, T: Item + Drop>(
    alloc: Global,
    separator: Sign,
    at: Cursor<'a>,
) -> Result<(Seq<T>, Cursor<'a>), Stop<Fault>>
    ensures gives { Answers (λ x. (x.0, x.1.counts, tokens_alone x.1.tokens.now)) result (separated separator T.reader at.entry.counts (tokens_alone at.entry.tokens.now)) }
    ensures shorter { IfOk result (λ x. length x.1.tokens.now < length at.entry.tokens.now) }
{
    let mut items = Seq::new(alloc);
    let (first, mut rest) = T::read(alloc, 0, at)?;
    items.push(first)?;
    'items: while starts_with(separator, rest) {
        let (item, next) = read_next(alloc, separator, items.as_slice().len(), rest)?;
        items.push(item)?;
        rest = next;
    }
    Ok((items, rest))
}

// The separator and an item, before which so many stand.
fn read_next<'a, T: Item>(
    alloc: Global,
    separator: Sign,
    before: usize,
    at: Cursor<'a>,
) -> Result<(T, Cursor<'a>), Stop<Fault>>
    ensures gives { Answers (λ x. (x.0, x.1.counts, tokens_alone x.1.tokens.now)) result (next_reader separator T.reader before at.entry.counts (tokens_alone at.entry.tokens.now)) }
    ensures shorter { IfOk result (λ x. length x.1.tokens.now < length at.entry.tokens.now) }
{
    let next = read_sign(separator, at)?;
    T::read(alloc, before, next)
}
