ghost use Rattle.std.specs.Prelude.{◌≡◌, ℕ, ◌<◌, ◌≤◌, length, slice_index_or, not, true, false, ◌&&◌, ◌||◌, IfOk, replicate, IfSome, vec_len};
ghost use Rattle.std.specs.Bool.{beq};
ghost use Rattle.std.specs.List.{list_any};
ghost use Rattle.key_table.specs.declared.slot.Datum.TheVariants as datum;
ghost use Rattle.key_table.specs.Atoms.{test_holds};
ghost use Rattle.interval_domains.specs.Finding.{Tells, FindsLeast};
ghost use Rattle.interval_domains.specs.VariantSets.{has_variant};

use key_table::{NoMemory, Test};
use std::alloc::Global;
use std::marker::Model;

/// A set of variants, as a bit for each.
#[derive(Drop)]
pub(crate) struct VariantSet {
    bits: Vec<bool>,
}

impl Model for VariantSet {
    ghost use Rattle.std.specs.Prelude.{List, Bool, length, ◌<◌, ◌^◌};

    ghost Value = { List Bool };

    ghost view = { λ s. s.bits.items };

    ghost invariant = { λ s. length s.bits.items < 2 ^ 32 };
}

impl VariantSet {
    /// All variants of a key that has so many.
    pub(crate) fn all(alloc: Global, count: u32) -> Result<VariantSet, NoMemory>
        ensures { IfOk result (λ s. s ≡ replicate count true) }
    {
        Ok(VariantSet {
            bits: vec![in alloc; true; count as usize]?,
        })
    }

    /// An equal set.
    pub(crate) fn copy(&self, alloc: Global) -> Result<VariantSet, NoMemory>
        ensures { IfOk result (λ s. s ≡ self.now) }
    {
        Ok(VariantSet {
            bits: Vec::from_slice(alloc, &self.bits)?,
        })
    }

    /// The variants of which some test is true or, with `inside` false, none is.
    pub(crate) fn kept(
        &self,
        alloc: Global,
        tests: &[Test],
        inside: bool,
    ) -> Result<VariantSet, NoMemory>
        ensures { IfOk result (λ s. (n : ℕ) → has_variant s n ≡ (has_variant self.now n && beq (list_any (test_holds (datum.Variant n)) tests.now) inside)) }
    {
        let bits = kept_bits(alloc, &self.bits, tests, inside)?;
        Ok(VariantSet { bits })
    }

    /// Whether some test is true of some variant in the set.
    pub(crate) fn has_passing(&self, tests: &[Test]) -> bool
        ensures { Tells (λ n. has_variant self.now n && list_any (test_holds (datum.Variant n)) tests.now) result }
    {
        has_passing_bit(&self.bits, tests)
    }

    /// Whether no test is true of some variant in the set.
    pub(crate) fn has_failing(&self, tests: &[Test]) -> bool
        ensures { Tells (λ n. has_variant self.now n && not (list_any (test_holds (datum.Variant n)) tests.now)) result }
    {
        has_failing_bit(&self.bits, tests)
    }

    /// The least variant in the set, where there is one.
    pub(crate) fn first(&self) -> Option<u32>
        ensures { FindsLeast (has_variant self.now) result }
    {
        match first_bit(&self.bits) {
            Some(place) => Some(place as u32),
            None => None,
        }
    }
}

// Whether some test is true of some variant whose bit is set.
fn has_passing_bit(bits: &[bool], tests: &[Test]) -> bool
    ensures { Tells (λ n. has_variant bits.now n && list_any (test_holds (datum.Variant n)) tests.now) result }
{
    for test in tests {
        if has_named_bit(bits, test) {
            return true;
        }
    }
    false
}

// Whether the bit of a test's variant, if there is one, is set.
fn has_named_bit(bits: &[bool], test: &Test) -> bool
    ensures { Tells (λ n. has_variant bits.now n && test_holds (datum.Variant n) test.now) result }
{
    match test {
        Test::Variant(variant) => {
            let place = *variant as usize;
            place < bits.len() && bits[place]
        }
        _ => false,
    }
}

// Whether no test is true of some variant whose bit is set.
fn has_failing_bit(bits: &[bool], tests: &[Test]) -> bool
    ensures { Tells (λ n. has_variant bits.now n && not (list_any (test_holds (datum.Variant n)) tests.now)) result }
{
    for place in 0..bits.len() {
        if bits[place] && !names(tests, place) {
            return true;
        }
    }
    false
}

// The first place whose bit is set.
fn first_bit(bits: &[bool]) -> Option<usize>
    ensures least { FindsLeast (has_variant bits.now) result }
    ensures within { IfSome result (λ place. place < length bits.now) }
{
    for place in 0..bits.len() {
        if bits[place] {
            return Some(place);
        }
    }
    None
}

// Whether some test is for this variant.
fn names(tests: &[Test], variant: usize) -> bool
    ensures { result ≡ list_any (test_holds (datum.Variant variant)) tests.now }
{
    tests.iter().any(|test| is_for(test, variant))
}

// Whether the test is for this variant.
fn is_for(test: &Test, variant: usize) -> bool
    ensures { result ≡ test_holds (datum.Variant variant) test.now }
{
    match test {
        Test::Variant(named) => variant == *named as usize,
        _ => false,
    }
}

// The bits of the variants of which some test is true or, with `inside` false, none is.
fn kept_bits(
    alloc: Global,
    bits: &[bool],
    tests: &[Test],
    inside: bool,
) -> Result<Vec<bool>, NoMemory>
    ensures len { IfOk result (λ v. length v.items ≡ length bits.now) }
    ensures bits { IfOk result (λ v. (n : ℕ) → has_variant v.items n ≡ (has_variant bits.now n && beq (list_any (test_holds (datum.Variant n)) tests.now) inside)) }
{
    let named = named_bits(alloc, bits.len(), tests)?;
    let mut kept = Vec::new(alloc);
    for place in 0..bits.len() {
        kept.push(bits[place] && named[place] == inside)?;
    }
    Ok(kept)
}

// For each of so many variants whether some test is for it.
fn named_bits(alloc: Global, count: usize, tests: &[Test]) -> Result<Vec<bool>, NoMemory>
    ensures len { IfOk result (λ v. vec_len v ≡ count) }
    ensures bits { IfOk result (λ v. (n : ℕ) → n < count → has_variant v.items n ≡ list_any (test_holds (datum.Variant n)) tests.now) }
{
    let mut named = vec![in alloc; false; count]?;
    for test in tests {
        name(&mut named, test);
    }
    Ok(named)
}

// Sets the bit of a test's variant, if there is one.
fn name(named: &mut [bool], test: &Test)
    ensures { (n : ℕ) → n < length named.old → has_variant named.new n ≡ (has_variant named.old n || test_holds (datum.Variant n) test.now) }
{
    if let Test::Variant(variant) = test {
        let place = *variant as usize;
        if place < named.len() {
            named[place] = true;
        }
    }
}
