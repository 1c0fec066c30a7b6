ghost use Rattle.std.specs.Prelude.{◌≡◌, IfOk, option_copied};
ghost use Rattle.key_table.specs.Slots.{slot_cmp, at};

use crate::{NoMemory, Text};
use std::cmp::Ordering;

/// A key by its number, and under a metadata key a sub name. Slots are ordered by key, no sub name first, then by the bytes of
/// the sub name.
#[derive(Debug, PartialEq, Eq, PartialOrd, Ord, Hash, Drop)]
pub struct Slot {
    pub key: u32,
    pub sub: Option<Text>,
}

/// A value of a slot: the number of a variant of its key, a whole number, or a text.
#[derive(Debug, PartialEq, Eq, PartialOrd, Ord, Hash, Drop)]
pub enum Datum {
    Variant(u32),
    Number(i64),
    Text(Text),
}

/// The order of a key and a sub name against a slot: by key, then no sub name first, then by bytes.
pub(crate) fn order(key: u32, sub: Option<&Text>, slot: &Slot) -> Ordering
    ensures { result ≡ slot_cmp (at key (option_copied sub.entry)) slot.now }
{
    match key.cmp(&slot.key) {
        Ordering::Equal => match (sub, &slot.sub) {
            (None, None) => Ordering::Equal,
            (None, Some(_)) => Ordering::Less,
            (Some(_), None) => Ordering::Greater,
            (Some(mine), Some(other)) => mine.cmp(other),
        },
        other => other,
    }
}

impl Slot {
    /// An equal slot.
    pub fn copy(&self) -> Result<Slot, NoMemory>
        ensures { IfOk result (λ s. s ≡ self.now) }
    {
        let sub = match &self.sub {
            Some(sub) => Some(sub.copy()?),
            None => None,
        };
        Ok(Slot { key: self.key, sub })
    }
}

impl Datum {
    /// An equal value.
    pub fn copy(&self) -> Result<Datum, NoMemory>
        ensures { IfOk result (λ d. d ≡ self.now) }
    {
        Ok(match self {
            Datum::Variant(variant) => Datum::Variant(*variant),
            Datum::Number(number) => Datum::Number(*number),
            Datum::Text(text) => Datum::Text(text.copy()?),
        })
    }
}
