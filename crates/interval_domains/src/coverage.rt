ghost use Rattle.std.specs.Prelude.{◌≡◌, ℤ, ◌≤ℤ◌, ◌&&◌, ◌||◌, not, Bool, true};
ghost use Rattle.std.specs.List.{list_any};
ghost use Rattle.key_table.specs.declared.slot.Datum.TheVariants.{Number};
ghost use Rattle.key_table.specs.Atoms.{relates, test_holds};
ghost use Rattle.interval_domains.specs.Intervals.{has_number, AreApart, IsHull};
ghost use Rattle.interval_domains.specs.Finding.{Tells, IsReach};

use crate::interval::Interval;
use key_table::{Op, Test};

/// Whether some test is true of some number of the intervals.
pub(crate) fn any_passes(list: &[Interval], tests: &[Test]) -> bool
    requires { AreApart list.now }
    ensures { Tells (λ x. has_number list.now x && list_any (test_holds (Number x)) tests.now) result }
{
    for test in tests {
        if any_passes_test(list, test) {
            return true;
        }
    }
    false
}

// Whether a test is true of some number of the intervals.
fn any_passes_test(list: &[Interval], test: &Test) -> bool
    requires { AreApart list.now }
    ensures { Tells (λ x. has_number list.now x && test_holds (Number x) test.now) result }
{
    match test {
        Test::Number(op, number) => any_relates(list, *op, *number),
        _ => false,
    }
}

// Whether some number of the intervals has a relation to a number. If any has one other than to be equal, the least of
// them or the greatest has it.
fn any_relates(list: &[Interval], op: Op, number: i64) -> bool
    requires { AreApart list.now }
    ensures { Tells (λ x. has_number list.now x && relates op x number) result }
{
    match hull(list) {
        Some(hull) => match op {
            Op::Equal => has(list, number),
            _ => hull.end_relates(op, number),
        },
        None => false,
    }
}

// From the least number of the intervals to the greatest.
fn hull(list: &[Interval]) -> Option<Interval>
    requires { AreApart list.now }
    ensures { IsHull (has_number list.now) result }
{
    let count = list.len();
    if count == 0 {
        return None;
    }
    let first = list[0];
    Some(first.up_to(list[count - 1]))
}

// Whether a number is in an interval.
fn has(list: &[Interval], number: i64) -> bool
    requires { AreApart list.now }
    ensures { result ≡ has_number list.now number }
{
    list.binary_search_by(|interval| interval.side(number))
        .is_ok()
}

/// Whether no test is true of some number of the intervals. The walk goes from reach to reach of the tests, so that it
/// asks them no more often than twice as often as there are tests, however many intervals there are.
pub(crate) fn any_fails(list: &[Interval], tests: &[Test]) -> bool
    requires { AreApart list.now }
    ensures { Tells (λ x. has_number list.now x && not (list_any (test_holds (Number x)) tests.now)) result }
{
    let mut place = 0;
    let mut from = i64::MIN;
    while place < list.len() {
        if list[place].last < from {
            place += 1;
        } else {
            let Some(reach) = reach_of(tests, list[place].start_from(from)) else {
                return true;
            };
            if reach == i64::MAX {
                return false;
            }
            from = reach + 1;
        }
    }
    false
}

// How far some test is true of each number, from a number on: the greatest of the reaches of the tests. Nothing where no
// test is true of the number itself.
fn reach_of(tests: &[Test], from: i64) -> Option<i64>
    ensures { IsReach (λ x. list_any (test_holds (Number x)) tests.now) from result }
{
    let mut furthest = None;
    for test in tests {
        furthest = further(from, furthest, reach_of_test(test, from));
    }
    furthest
}

// How far a test is true of each number, from a number on.
fn reach_of_test(test: &Test, from: i64) -> Option<i64>
    ensures { IsReach (λ x. test_holds (Number x) test.now) from result }
{
    match test {
        Test::Number(op, number) => reach_of_relation(*op, *number, from),
        _ => None,
    }
}

// How far each number has a relation to a number, from a number on.
fn reach_of_relation(op: Op, number: i64, from: i64) -> Option<i64>
    ensures { IsReach (λ x. relates op x number) from result }
{
    if !op.relates(from, number) {
        return None;
    }
    Some(match op {
        Op::Equal | Op::LessEqual => number,
        Op::Greater | Op::GreaterEqual => i64::MAX,
        Op::Less | Op::NotEqual => { if from < number { number - 1 } else { i64::MAX } }
    })
}

// The greater of two reaches.
fn further(from: i64, one: Option<i64>, other: Option<i64>) -> Option<i64>
    ensures { (p q : ℤ → Bool) → IsReach p from one → IsReach q from other → IsReach (λ x. p x || q x) from result }
{
    match (one, other) {
        (Some(one), Some(other)) => Some(one.max(other)),
        (Some(one), None) => Some(one),
        (None, other) => other,
    }
}
