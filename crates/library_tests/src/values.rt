//! Slots, values, payments, tests and atoms as words.

use key_table::{Atom, Datum, Op, Payment, Seq, Slot, Test, Text};
use std::alloc::Global;

/// A slot, as the number of its key and, behind a slash, its sub name.
pub(crate) fn slot(alloc: Global, word: &str) -> Option<Slot> {
    let (key, sub) = match word.split_once('/') {
        Some((key, sub)) => (key, Some(Text::from_str(alloc, sub).ok()?)),
        None => (word, None),
    };
    Some(Slot {
        key: key.parse().ok()?,
        sub,
    })
}

// A value, as its kind and what it is.
fn datum(alloc: Global, word: &str) -> Option<Datum> {
    let (kind, value) = word.split_once(':')?;
    Some(match kind {
        "variant" => Datum::Variant(value.parse().ok()?),
        "text" => Datum::Text(Text::from_bytes(alloc, value.as_bytes()).ok()?),
        _ => Datum::Number(value.parse().ok()?),
    })
}

/// A slot and what stands there, as `SLOT=VALUE`.
pub(crate) fn entry(alloc: Global, word: &str) -> Option<(Slot, Datum)> {
    let (place, value) = word.split_once('=')?;
    Some((slot(alloc, place)?, datum(alloc, value)?))
}

/// The payment in which entries were put, one after the other.
pub(crate) fn payment(alloc: Global, entries: &str) -> Option<Payment> {
    let mut payment = Payment::empty(alloc);
    for word in entries.split_terminator(';') {
        let (slot, datum) = entry(alloc, word)?;
        payment.put(slot, datum).ok()?;
    }
    Some(payment)
}

fn op(word: &str) -> Op {
    match word {
        "=" => Op::Equal,
        "!=" => Op::NotEqual,
        "<" => Op::Less,
        "<=" => Op::LessEqual,
        ">" => Op::Greater,
        _ => Op::GreaterEqual,
    }
}

/// A test, as its kind or its operator, and what it asks for.
pub(crate) fn test(alloc: Global, word: &str) -> Option<Test> {
    let (kind, value) = word.split_once(':')?;
    Some(match kind {
        "variant" => Test::Variant(value.parse().ok()?),
        "text" => Test::Text(Text::from_str(alloc, value).ok()?),
        _ => Test::Number(op(kind), value.parse().ok()?),
    })
}

/// Tests, with blanks between them.
pub(crate) fn tests(alloc: Global, words: &str) -> Option<Seq<Test>> {
    let mut tests = Seq::new(alloc);
    for word in words.split_ascii_whitespace() {
        tests.push(test(alloc, word)?).ok()?;
    }
    Some(tests)
}

/// An atom, as `any` or `none`, its slot and its tests.
pub(crate) fn atom(alloc: Global, text: &str) -> Option<Atom> {
    let (how, rest) = text.split_once(' ')?;
    let (place, words) = rest.split_once(' ').unwrap_or((rest, ""));
    Some(Atom {
        slot: slot(alloc, place)?,
        none_of: how == "none",
        tests: tests(alloc, words)?,
    })
}
