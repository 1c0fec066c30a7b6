ghost use Rattle.std.specs.Prelude.{◌≡◌, ℤ, pos, ◌+ℤ◌, ◌≤ℤ◌, ◌<ℤ◌, int_le, int_lt, neg_ℤ, ◌^◌, FitsSigned, [], ◌∷◌, ◌++◌, ◌||◌, ◌&&◌, not, OnOk, OnErr, IfOk, length, MatchOption};
ghost use Rattle.std.specs.Bool.{MatchBool, beq};
ghost use Rattle.std.specs.List.{list_any, All};
ghost use Rattle.std.specs.List.Sorted.{IsSortedByKey};
ghost use Rattle.std.specs.Ordering.{int_cmp};
ghost use Rattle.std.specs.Int.{int_max, int_min};
ghost use mir.Syntax.{w64};
ghost use Rattle.key_table.specs.declared.slot.Datum.TheVariants.{Number};
ghost use Rattle.key_table.specs.Atoms.{relates, test_holds};
ghost use Rattle.interval_domains.specs.Finding.{Tells, FindsLeastNumber};
ghost use Rattle.interval_domains.specs.Intervals.{within, has_number, IsInterval, StartBy, AreApart};

use crate::coverage;
use crate::interval::Interval;
use crate::pieces::pieces_of;
use key_table::{NoMemory, Test};
use std::alloc::Global;
use std::marker::Model;

/// A set of numbers, as intervals in ascending order of which no two meet or touch.
#[derive(Drop)]
pub(crate) struct Intervals {
    list: Vec<Interval>,
}

impl Model for Intervals {
    ghost use Rattle.std.specs.Prelude.{List};
    ghost use Rattle.interval_domains.specs.declared.interval.Interval as interval;

    ghost Value = { List interval.Interval };

    ghost view = { λ s. s.list.items };

    ghost use Rattle.interval_domains.specs.Intervals.{AreApart};

    ghost invariant = { λ s. AreApart s.list.items };
}

impl Intervals {
    /// The set of no number.
    pub(crate) fn new(alloc: Global) -> Intervals
        ensures { result ≡ [] }
    {
        Intervals {
            list: Vec::new(alloc),
        }
    }

    /// The numbers from the first to the last, none where these are the wrong way round.
    pub(crate) fn between(alloc: Global, first: i64, last: i64) -> Result<Intervals, NoMemory>
        ensures { IfOk result (λ is. (x : ℤ) → has_number is x ≡ (int_le first x && int_le x last)) }
    {
        let mut numbers = Intervals::new(alloc);
        if first <= last {
            numbers.add(Interval { first, last })?;
        }
        Ok(numbers)
    }

    /// An equal set.
    pub(crate) fn copy(&self, alloc: Global) -> Result<Intervals, NoMemory>
        ensures { IfOk result (λ is. is ≡ self.now) }
    {
        Ok(Intervals {
            list: Vec::from_slice(alloc, &self.list)?,
        })
    }

    /// Adds the numbers of an interval. No interval may begin after its first number.
    pub(crate) fn add(&mut self, added: Interval) -> Result<(), NoMemory>
        requires filled { added.first ≤ℤ added.last }
        requires starts { StartBy added.first self.old }
        ensures ok { OnOk result ((x : ℤ) → has_number self.new x ≡ (has_number self.old x || within x added)) }
        ensures starts { OnOk result (StartBy added.first self.new) }
    {
        add_to(&mut self.list, added)
    }

    /// The numbers of 64 bits of which some test is true: the numbers of each test, put in order and joined.
    pub(crate) fn of_tests(alloc: Global, tests: &[Test]) -> Result<Intervals, NoMemory>
        ensures { IfOk result (λ is. (x : ℤ) → FitsSigned w64 x → has_number is x ≡ list_any (test_holds (Number x)) tests.now) }
    {
        let mut pieces = pieces_of(alloc, tests)?;
        pieces.sort_unstable_by_key(|piece| piece.first);
        joined_pieces(alloc, &pieces)
    }

    /// The numbers of 64 bits that are not in the set.
    pub(crate) fn complement(&self, alloc: Global) -> Result<Intervals, NoMemory>
        ensures { IfOk result (λ is. (x : ℤ) → FitsSigned w64 x → has_number is x ≡ not (has_number self.now x)) }
    {
        gaps(alloc, &self.list)
    }

    /// The numbers that are in both sets.
    pub(crate) fn intersection(
        &self,
        alloc: Global,
        other: &Intervals,
    ) -> Result<Intervals, NoMemory>
        ensures { IfOk result (λ is. (x : ℤ) → has_number is x ≡ (has_number self.now x && has_number other.now x)) }
    {
        common(alloc, &self.list, &other.list)
    }

    /// The numbers of which some test is true or, with `inside` false, none is.
    pub(crate) fn kept(
        &self,
        alloc: Global,
        tests: &[Test],
        inside: bool,
    ) -> Result<Intervals, NoMemory>
        ensures { IfOk result (λ is. (x : ℤ) → has_number is x ≡ (has_number self.now x && beq (list_any (test_holds (Number x)) tests.now) inside)) }
    {
        let _ = &self.list;
        let passing = Intervals::of_tests(alloc, tests)?;
        if inside {
            self.intersection(alloc, &passing)
        } else {
            self.intersection(alloc, &passing.complement(alloc)?)
        }
    }

    /// Whether some test is true of some number in the set.
    pub(crate) fn has_passing(&self, tests: &[Test]) -> bool
        ensures { Tells (λ x. has_number self.now x && list_any (test_holds (Number x)) tests.now) result }
    {
        coverage::any_passes(&self.list, tests)
    }

    /// Whether no test is true of some number in the set.
    pub(crate) fn has_failing(&self, tests: &[Test]) -> bool
        ensures { Tells (λ x. has_number self.now x && not (list_any (test_holds (Number x)) tests.now)) result }
    {
        coverage::any_fails(&self.list, tests)
    }

    /// The least number in the set, where there is one.
    pub(crate) fn first(&self) -> Option<i64>
        ensures { FindsLeastNumber (has_number self.now) result }
    {
        match self.list.first() {
            Some(interval) => Some(interval.first),
            None => None,
        }
    }

    // Adds the numbers from the first one up to the end, if there are any.
    fn add_up_to(&mut self, first: i128, end: i128) -> Result<(), NoMemory>
        requires low { neg_ℤ (pos (2 ^ 63)) ≤ℤ first }
        requires high { end ≤ℤ pos (2 ^ 63) }
        requires starts { StartBy first self.old }
        ensures ok { OnOk result ((x : ℤ) → has_number self.new x ≡ (has_number self.old x || (int_le first x && int_lt x end))) }
        ensures starts { OnOk result (StartBy first self.new) }
    {
        if first < end {
            self.add(Interval {
                first: first as i64,
                last: (end - 1) as i64,
            })
        } else {
            Ok(())
        }
    }

    // Adds the numbers that are in both intervals, if there are any.
    fn add_common(&mut self, mine: Interval, other: Interval) -> Result<(), NoMemory>
        requires starts { int_max mine.first other.first ≤ℤ int_min mine.last other.last → StartBy (int_max mine.first other.first) self.old }
        ensures ok { OnOk result ((x : ℤ) → has_number self.new x ≡ (has_number self.old x || (within x mine && within x other))) }
        ensures starts { OnOk result ((x : ℤ) → int_max mine.first other.first ≤ℤ x → StartBy x self.old → StartBy x self.new) }
    {
        match mine.common(other) {
            Some(both) => self.add(both),
            None => Ok(()),
        }
    }
}

// Adds an interval: to the last one where it meets or touches that, and else after it.
fn add_to(list: &mut Vec<Interval>, added: Interval) -> Result<(), NoMemory>
    requires apart { AreApart list.old.items }
    requires one { IsInterval added }
    requires starts { StartBy added.first list.old.items }
    ensures apart { AreApart list.new.items }
    ensures ok { OnOk result ((x : ℤ) → has_number list.new.items x ≡ (has_number list.old.items x || within x added)) }
    ensures starts { OnOk result (StartBy added.first list.new.items) }
{
    let count = list.len();
    if count == 0 {
        list.push(added)?;
        return Ok(());
    }
    let top = list[count - 1];
    if top.reaches(added.first) {
        list[count - 1] = top.joined(added);
        return Ok(());
    }
    list.push(added)?;
    Ok(())
}

// The numbers of 64 bits that are in no interval.
fn gaps(alloc: Global, list: &[Interval]) -> Result<Intervals, NoMemory>
    requires { AreApart list.now }
    ensures { IfOk result (λ is. (x : ℤ) → FitsSigned w64 x → has_number is x ≡ not (has_number list.now x)) }
{
    let mut others = Intervals::new(alloc);
    let mut next = i128::from(i64::MIN);
    for interval in list {
        others.add_up_to(next, i128::from(interval.first))?;
        next = i128::from(interval.last) + 1;
    }
    others.add_up_to(next, i128::from(i64::MAX) + 1)?;
    Ok(others)
}

// The numbers that are in an interval of each list.
fn common(alloc: Global, mine: &[Interval], other: &[Interval]) -> Result<Intervals, NoMemory>
    requires mine { AreApart mine.now }
    requires other { AreApart other.now }
    ensures { IfOk result (λ is. (x : ℤ) → has_number is x ≡ (has_number mine.now x && has_number other.now x)) }
{
    let mut both = Intervals::new(alloc);
    let mut i = 0;
    let mut j = 0;
    while i < mine.len() && j < other.len() {
        both.add_common(mine[i], other[j])?;
        if mine[i].last < other[j].last {
            i += 1;
        } else {
            j += 1;
        }
    }
    Ok(both)
}

// The intervals, which are in the order of their first numbers, joined where they meet or touch.
fn joined_pieces(alloc: Global, pieces: &[Interval]) -> Result<Intervals, NoMemory>
    requires filled { All IsInterval pieces.now }
    requires sorted { IsSortedByKey (λ (i : Interval). i.first) int_cmp pieces.now }
    ensures { IfOk result (λ is. (x : ℤ) → has_number is x ≡ has_number pieces.now x) }
{
    let mut joined = Intervals::new(alloc);
    for piece in pieces {
        joined.add(*piece)?;
    }
    Ok(joined)
}
