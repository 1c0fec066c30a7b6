ghost use Rattle.std.specs.Prelude.{◌≡◌, not, true, false, ◌&&◌, ◌≤◌, length, IfOk};
ghost use Rattle.std.specs.Bool.{beq};
ghost use Rattle.std.specs.List.{list_any, All};
ghost use Rattle.key_table.specs.declared.slot.Datum as datum;
ghost use Rattle.key_table.specs.Atoms.{test_holds};
ghost use Rattle.interval_domains.specs.Finding.{Tells};
ghost use Rattle.interval_domains.specs.TextLists.{HasShortText};
ghost use Rattle.interval_domains.specs.Picks.{long_text, FindsFirst};
ghost use Rattle.interval_domains.specs.Members.{has_value};

use crate::intervals::Intervals;
use crate::texts::TextList;
use crate::variants::VariantSet;
use key_table::{Datum, NoMemory, Test};
use std::alloc::Global;

/// A set of values of one slot: variants, numbers, these texts, or all legal texts but these.
#[derive(Drop)]
pub(crate) enum Values {
    Variants(VariantSet),
    Numbers(Intervals),
    Texts(TextList),
    OtherTexts(TextList),
}

impl Values {
    /// An equal set.
    pub(crate) fn copy(&self, alloc: Global) -> Result<Values, NoMemory>
        ensures { IfOk result (λ vs. vs ≡ self.now) }
    {
        match self {
            Values::Variants(set) => Ok(Values::Variants(set.copy(alloc)?)),
            Values::Numbers(set) => Ok(Values::Numbers(set.copy(alloc)?)),
            Values::Texts(texts) => Ok(Values::Texts(texts.copy(alloc)?)),
            Values::OtherTexts(texts) => Ok(Values::OtherTexts(texts.copy(alloc)?)),
        }
    }

    /// The values of which some test is true or, with `inside` false, none is.
    pub(crate) fn kept(
        &self,
        alloc: Global,
        tests: &[Test],
        inside: bool,
    ) -> Result<Values, NoMemory>
        requires { All HasShortText tests.now }
        ensures { IfOk result (λ vs. (d : datum.Datum) → has_value vs d ≡ (has_value self.now d && beq (list_any (test_holds d) tests.now) inside)) }
    {
        match self {
            Values::Variants(set) => Ok(Values::Variants(set.kept(alloc, tests, inside)?)),
            Values::Numbers(set) => Ok(Values::Numbers(set.kept(alloc, tests, inside)?)),
            Values::Texts(texts) => {
                let named = TextList::of_tests(alloc, tests)?;
                Ok(Values::Texts(texts.kept(alloc, &named, inside)?))
            }
            Values::OtherTexts(texts) => {
                let named = TextList::of_tests(alloc, tests)?;
                kept_others(alloc, texts, &named, inside)
            }
        }
    }

    /// Whether some test is true of some value in the set.
    pub(crate) fn has_passing(&self, tests: &[Test]) -> bool
        requires { All HasShortText tests.now }
        ensures { Tells (λ d. has_value self.now d && list_any (test_holds d) tests.now) result }
    {
        match self {
            Values::Variants(set) => set.has_passing(tests),
            Values::Numbers(set) => set.has_passing(tests),
            Values::Texts(texts) => texts.has_passing(tests),
            Values::OtherTexts(texts) => texts.has_passing_other(tests),
        }
    }

    /// Whether no test is true of some value in the set.
    pub(crate) fn has_failing(&self, tests: &[Test]) -> bool
        requires { All HasShortText tests.now }
        ensures { Tells (λ d. has_value self.now d && not (list_any (test_holds d) tests.now)) result }
    {
        match self {
            Values::Variants(set) => set.has_failing(tests),
            Values::Numbers(set) => set.has_failing(tests),
            Values::Texts(texts) => texts.has_failing(tests),
            Values::OtherTexts(texts) => texts.leaves_long(),
        }
    }

    /// Whether some value is in the set.
    pub(crate) fn has_some(&self) -> bool
        ensures { Tells (has_value self.now) result }
    {
        match self {
            Values::Variants(set) => set.first().is_some(),
            Values::Numbers(set) => set.first().is_some(),
            Values::Texts(texts) => texts.first().is_some(),
            Values::OtherTexts(texts) => texts.leaves_long(),
        }
    }

    /// The value that comes first: the least variant, the least number, the long text where that is in the set, or the
    /// least text. Nothing where the set has no value.
    pub(crate) fn first(&self, alloc: Global) -> Result<Option<Datum>, NoMemory>
        ensures { IfOk result (FindsFirst (has_value self.now)) }
    {
        match self {
            Values::Variants(set) => Ok(first_variant(set)),
            Values::Numbers(set) => Ok(first_number(set)),
            Values::Texts(texts) => first_text(texts),
            Values::OtherTexts(texts) => Ok(Some(Datum::Text(texts.long(alloc)?))),
        }
    }
}

// The least variant.
fn first_variant(set: &VariantSet) -> Option<Datum>
    ensures { FindsFirst (has_value (Values.Variants set.now)) result }
{
    match set.first() {
        Some(variant) => Some(Datum::Variant(variant)),
        None => None,
    }
}

// The least number.
fn first_number(set: &Intervals) -> Option<Datum>
    ensures { FindsFirst (has_value (Values.Numbers set.now)) result }
{
    match set.first() {
        Some(number) => Some(Datum::Number(number)),
        None => None,
    }
}

// The least text of a list, which has no long one.
fn first_text(texts: &TextList) -> Result<Option<Datum>, NoMemory>
    ensures { IfOk result (FindsFirst (has_value (Values.Texts texts.now))) }
{
    match texts.first() {
        Some(text) => Ok(Some(Datum::Text(text.copy()?))),
        None => Ok(None),
    }
}

// Of all legal texts but some, those that are named or, with `inside` false, those that are not.
fn kept_others(
    alloc: Global,
    texts: &TextList,
    named: &TextList,
    inside: bool,
) -> Result<Values, NoMemory>
    ensures { IfOk result (λ vs. (d : datum.Datum) → has_value vs d ≡ (has_value (Values.OtherTexts texts.now) d && beq (has_value (Values.Texts named.now) d) inside)) }
{
    if inside {
        Ok(Values::Texts(named.kept(alloc, texts, false)?))
    } else {
        Ok(Values::OtherTexts(texts.union(alloc, named)?))
    }
}
