ghost use Rattle.std.specs.Prelude.{◌≡◌, ℤ, pos, ◌+ℤ◌, ◌≤ℤ◌, ◌<ℤ◌, int_le, ◌||◌, MatchOption};
ghost use Rattle.std.specs.Int.{int_max, int_min};
ghost use Rattle.key_table.specs.Atoms.{relates};
ghost use Rattle.interval_domains.specs.Intervals.{side};

use key_table::Op;
use std::cmp::Ordering;

/// The numbers from the first to the last.
#[derive(Clone, Copy)]
pub(crate) struct Interval {
    pub(crate) first: i64,
    pub(crate) last: i64,
}

impl Interval {
    /// Where the interval lies from a number: below it, around it, or above it.
    pub(crate) fn side(self, number: i64) -> Ordering
        ensures { result ≡ side number self }
    {
        if self.last < number {
            Ordering::Less
        } else if number < self.first {
            Ordering::Greater
        } else {
            Ordering::Equal
        }
    }

    /// Whether the first number or the last one has a relation to a number.
    pub(crate) fn end_relates(self, op: Op, number: i64) -> bool
        ensures { result ≡ (relates op self.first number || relates op self.last number) }
    {
        op.relates(self.first, number) || op.relates(self.last, number)
    }

    /// The first number that is not before the given one.
    pub(crate) fn start_from(self, from: i64) -> i64
        ensures { result ≡ int_max self.first from }
    {
        self.first.max(from)
    }

    /// Whether a number is at most the one after the last.
    pub(crate) fn reaches(self, number: i64) -> bool
        ensures { result ≡ int_le number (self.last +ℤ pos 1) }
    {
        number <= self.last.saturating_add(1)
    }

    /// From the first of this one to the last of the other.
    pub(crate) fn up_to(self, other: Interval) -> Interval
        ensures { result ≡ record { first = self.first; last = other.last } }
    {
        Interval {
            first: self.first,
            last: other.last,
        }
    }

    /// From the first of this one to the last of both.
    pub(crate) fn joined(self, other: Interval) -> Interval
        ensures { result ≡ record { first = self.first; last = int_max self.last other.last } }
    {
        Interval {
            first: self.first,
            last: self.last.max(other.last),
        }
    }

    /// The numbers that are in both, if there are any.
    pub(crate) fn common(self, other: Interval) -> Option<Interval>
        ensures { MatchOption result
            (int_min self.last other.last <ℤ int_max self.first other.first)
            (λ both. (both ≡ record { first = int_max self.first other.first; last = int_min self.last other.last }) × (both.first ≤ℤ both.last)) }
    {
        let both = Interval {
            first: self.first.max(other.first),
            last: self.last.min(other.last),
        };
        if both.first <= both.last {
            Some(both)
        } else {
            None
        }
    }
}
