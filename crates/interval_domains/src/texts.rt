ghost use Rattle.std.specs.Prelude.{◌≡◌, ℕ, List, [], ◌∷◌, ◌++◌, ◌&&◌, ◌||◌, not, true, bytes_eq, IfOk, OnOk, if◌then◌else◌, option_copied, slice_get};
ghost use Rattle.std.specs.Bool.{beq};
ghost use Rattle.std.specs.List.{list_any, filter, All};
ghost use Rattle.std.specs.Ordering.{nat_cmp, is_le};
ghost use Rattle.std.specs.Cmp.Lexicographic.{slice_cmp};
ghost use Rattle.key_table.specs.declared.slot.Datum.TheVariants as datum;
ghost use Rattle.key_table.specs.Atoms.{test_holds};
ghost use Rattle.interval_domains.specs.Finding.{Tells};
ghost use Rattle.interval_domains.specs.Picks.{long_text};
ghost use Rattle.interval_domains.specs.TextLists.{has_text, is_other_text, IsShort, HasShortText, AreListed};

use key_table::{NoMemory, Test, Text};
use std::alloc::Global;
use std::marker::Model;

// How many bytes the long text has, one more than a text of a test may have.
const LONG_BYTES: usize = 256;

/// Short texts in ascending order, each once. No text of a test is longer than these.
#[derive(Drop)]
pub(crate) struct TextList {
    texts: Vec<Text>,
}

impl Model for TextList {
    ghost use Rattle.std.specs.Prelude.{ℕ, List};

    ghost Value = { List (List ℕ) };

    ghost view = { λ s. s.texts.items };

    ghost use Rattle.interval_domains.specs.TextLists.{AreListed};

    ghost invariant = { λ s. AreListed s.texts.items };
}

impl TextList {
    /// The list of no text.
    pub(crate) fn new(alloc: Global) -> TextList
        ensures { result ≡ [] }
    {
        TextList {
            texts: Vec::new(alloc),
        }
    }

    /// An equal list.
    pub(crate) fn copy(&self, alloc: Global) -> Result<TextList, NoMemory>
        ensures { IfOk result (λ ts. ts ≡ self.now) }
    {
        let texts = copied(alloc, &self.texts)?;
        Ok(TextList { texts })
    }

    /// The texts of tests.
    pub(crate) fn of_tests(alloc: Global, tests: &[Test]) -> Result<TextList, NoMemory>
        requires { All HasShortText tests.now }
        ensures { IfOk result (λ ts. (t : List ℕ) → has_text ts t ≡ list_any (test_holds (datum.Text t)) tests.now) }
    {
        Ok(TextList::sorted(texts_of(alloc, tests)?))
    }

    /// The texts of both lists.
    pub(crate) fn union(&self, alloc: Global, other: &TextList) -> Result<TextList, NoMemory>
        ensures { IfOk result (λ ts. (t : List ℕ) → has_text ts t ≡ (has_text self.now t || has_text other.now t)) }
    {
        let mut texts = Vec::new(alloc);
        push_all(&mut texts, &self.texts)?;
        push_all(&mut texts, &other.texts)?;
        Ok(TextList::sorted(texts))
    }

    /// The texts of this list that are in another one or, with `inside` false, those that are not.
    pub(crate) fn kept(
        &self,
        alloc: Global,
        other: &TextList,
        inside: bool,
    ) -> Result<TextList, NoMemory>
        ensures texts { IfOk result (λ ts. (t : List ℕ) → has_text ts t ≡ (has_text self.now t && beq (has_text other.now t) inside)) }
        ensures listed { AreListed self.now }
    {
        let texts = kept_texts(alloc, &self.texts, other, inside)?;
        Ok(TextList { texts })
    }

    /// Whether a text is in the list.
    pub(crate) fn has(&self, text: &Text) -> bool
        ensures { result ≡ has_text self.now text.now }
    {
        self.texts.binary_search(text).is_ok()
    }

    /// Whether some test is true of some text in the list.
    pub(crate) fn has_passing(&self, tests: &[Test]) -> bool
        ensures { Tells (λ t. has_text self.now t && list_any (test_holds (datum.Text t)) tests.now) result }
    {
        for test in tests {
            if self.has_named(test) {
                return true;
            }
        }
        false
    }

    /// Whether no test is true of some text in the list.
    pub(crate) fn has_failing(&self, tests: &[Test]) -> bool
        ensures { Tells (λ t. has_text self.now t && not (list_any (test_holds (datum.Text t)) tests.now)) result }
    {
        any_unnamed(&self.texts, tests)
    }

    /// Whether some test is true of some legal text that is not in the list.
    pub(crate) fn has_passing_other(&self, tests: &[Test]) -> bool
        requires { All HasShortText tests.now }
        ensures { Tells (λ t. is_other_text self.now t && list_any (test_holds (datum.Text t)) tests.now) result }
    {
        for test in tests {
            if self.has_other(test) {
                return true;
            }
        }
        false
    }

    /// Whether the long text is outside the list, as it always is: the texts of the list are shorter.
    pub(crate) fn leaves_long(&self) -> bool
        ensures yes { result ≡ true }
        ensures long { is_other_text self.now long_text ≡ true }
    {
        let _ = &self.texts;
        true
    }

    /// The long text, which is not in the list: 256 letters `a`.
    pub(crate) fn long(&self, alloc: Global) -> Result<Text, NoMemory>
        ensures text { IfOk result (λ t. t ≡ long_text) }
        ensures other { is_other_text self.now long_text ≡ true }
    {
        let _ = self.leaves_long();
        Ok(Text::from("a".repeat(alloc, LONG_BYTES)?))
    }

    /// The least text, where there is one.
    pub(crate) fn first(&self) -> Option<&Text>
        ensures first { option_copied result ≡ slice_get self.now 0 }
        ensures listed { AreListed self.now }
    {
        self.texts.first()
    }

    // Whether the text of a test, if it has one, is in the list.
    fn has_named(&self, test: &Test) -> bool
        ensures { Tells (λ t. has_text self.now t && test_holds (datum.Text t) test.now) result }
    {
        match test {
            Test::Text(text) => self.has(text),
            _ => false,
        }
    }

    // Whether the text of a test, if it has one, is not in the list.
    fn has_other(&self, test: &Test) -> bool
        requires { HasShortText test.now }
        ensures { Tells (λ t. is_other_text self.now t && test_holds (datum.Text t) test.now) result }
    {
        match test {
            Test::Text(text) => !self.has(text),
            _ => false,
        }
    }

    // The same texts in ascending order, each once.
    fn sorted(mut texts: Vec<Text>) -> TextList
        requires { All IsShort texts.items }
        ensures { (t : List ℕ) → has_text result t ≡ has_text texts.items t }
    {
        texts.sort_unstable();
        texts.dedup();
        TextList { texts }
    }
}

// Equal texts.
fn copied(alloc: Global, texts: &[Text]) -> Result<Vec<Text>, NoMemory>
    ensures { IfOk result (λ ts. ts.items ≡ texts.now) }
{
    let mut copies = Vec::new(alloc);
    for text in texts {
        copies.push(text.copy()?)?;
    }
    Ok(copies)
}

// Whether no test is true of some of the texts.
fn any_unnamed(texts: &[Text], tests: &[Test]) -> bool
    ensures { result ≡ list_any (λ t. not (list_any (test_holds (datum.Text t)) tests.now)) texts.now }
{
    texts.iter().any(|text| !is_named(tests, text))
}

// Whether some test is true of the text.
fn is_named(tests: &[Test], text: &Text) -> bool
    ensures { result ≡ list_any (test_holds (datum.Text text.now)) tests.now }
{
    tests.iter().any(|test| is_for(test, text))
}

// Whether the test is true of the text.
fn is_for(test: &Test, text: &Text) -> bool
    ensures { result ≡ test_holds (datum.Text text.now) test.now }
{
    match test {
        Test::Text(named) => text.is(named.as_bytes()),
        _ => false,
    }
}

// The texts of tests, in their order.
fn texts_of(alloc: Global, tests: &[Test]) -> Result<Vec<Text>, NoMemory>
    requires { All HasShortText tests.now }
    ensures short { IfOk result (λ ts. All IsShort ts.items) }
    ensures texts { IfOk result (λ ts. (t : List ℕ) → has_text ts.items t ≡ list_any (test_holds (datum.Text t)) tests.now) }
{
    let mut texts = Vec::new(alloc);
    for test in tests {
        push_text(&mut texts, test)?;
    }
    Ok(texts)
}

// Adds the text of a test, if it has one.
fn push_text(texts: &mut Vec<Text>, test: &Test) -> Result<(), NoMemory>
    requires short { HasShortText test.now }
    requires old { All IsShort texts.old.items }
    ensures short { All IsShort texts.new.items }
    ensures texts { OnOk result ((t : List ℕ) → has_text texts.new.items t ≡ (has_text texts.old.items t || test_holds (datum.Text t) test.now)) }
{
    match test {
        Test::Text(text) => push_copy(texts, text),
        _ => Ok(()),
    }
}

// Adds an equal text.
fn push_copy(texts: &mut Vec<Text>, text: &Text) -> Result<(), NoMemory>
    requires short { IsShort text.now }
    requires old { All IsShort texts.old.items }
    ensures short { All IsShort texts.new.items }
    ensures texts { OnOk result ((t : List ℕ) → has_text texts.new.items t ≡ (has_text texts.old.items t || bytes_eq t text.now)) }
    ensures items { OnOk result (texts.new.items ≡ texts.old.items ++ text.now ∷ []) }
{
    texts.push(text.copy()?)?;
    Ok(())
}

// Adds equal texts.
fn push_all(texts: &mut Vec<Text>, more: &[Text]) -> Result<(), NoMemory>
    requires short { All IsShort more.now }
    requires old { All IsShort texts.old.items }
    ensures short { All IsShort texts.new.items }
    ensures texts { OnOk result ((t : List ℕ) → has_text texts.new.items t ≡ (has_text texts.old.items t || has_text more.now t)) }
{
    for text in more {
        push_copy(texts, text)?;
    }
    Ok(())
}

// The texts that are in a list or, with `inside` false, those that are not.
fn kept_texts(
    alloc: Global,
    texts: &[Text],
    other: &TextList,
    inside: bool,
) -> Result<Vec<Text>, NoMemory>
    requires { All IsShort texts.now }
    ensures { IfOk result (λ ts. ts.items ≡ filter (λ t. beq (has_text other.now t) inside) texts.now) }
{
    let mut kept = Vec::new(alloc);
    for text in texts {
        let wanted = other.has(text) == inside;
        push_if(wanted, &mut kept, text)?;
    }
    Ok(kept)
}

// Adds an equal text, if it is wanted.
fn push_if(wanted: bool, texts: &mut Vec<Text>, text: &Text) -> Result<(), NoMemory>
    requires short { IsShort text.now }
    requires old { All IsShort texts.old.items }
    ensures short { All IsShort texts.new.items }
    ensures items { OnOk result (texts.new.items ≡ texts.old.items ++ (if wanted then text.now ∷ [] else [])) }
{
    if wanted {
        push_copy(texts, text)
    } else {
        Ok(())
    }
}
