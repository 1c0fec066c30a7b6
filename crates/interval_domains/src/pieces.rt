ghost use Rattle.std.specs.Prelude.{◌≡◌, ℤ, ◌≤ℤ◌, int_le, FitsSigned, ◌||◌, ◌&&◌, OnOk, IfOk};
ghost use Rattle.std.specs.List.{list_any, All};
ghost use mir.Syntax.{w64};
ghost use Rattle.key_table.specs.declared.slot.Datum.TheVariants.{Number};
ghost use Rattle.key_table.specs.Atoms.{relates, test_holds};
ghost use Rattle.interval_domains.specs.Intervals.{has_number, IsInterval};

use crate::interval::Interval;
use key_table::{NoMemory, Op, Test};
use std::alloc::Global;

/// The numbers of which some test is true, as intervals in no order: at most two for each test.
pub(crate) fn pieces_of(alloc: Global, tests: &[Test]) -> Result<Vec<Interval>, NoMemory>
    ensures filled { IfOk result (λ is. All IsInterval is.items) }
    ensures numbers { IfOk result (λ is. (x : ℤ) → FitsSigned w64 x → has_number is.items x ≡ list_any (test_holds (Number x)) tests.now) }
{
    let mut pieces = Vec::new(alloc);
    for test in tests {
        push_test(&mut pieces, test)?;
    }
    Ok(pieces)
}

// Adds the numbers of which a test is true.
fn push_test(pieces: &mut Vec<Interval>, test: &Test) -> Result<(), NoMemory>
    requires { All IsInterval pieces.old.items }
    ensures filled { All IsInterval pieces.new.items }
    ensures numbers { OnOk result ((x : ℤ) → FitsSigned w64 x → has_number pieces.new.items x ≡ (has_number pieces.old.items x || test_holds (Number x) test.now)) }
{
    match test {
        Test::Number(op, number) => push_pieces(pieces, *op, *number),
        _ => Ok(()),
    }
}

// Adds the numbers with a relation to a number.
fn push_pieces(pieces: &mut Vec<Interval>, op: Op, number: i64) -> Result<(), NoMemory>
    requires { All IsInterval pieces.old.items }
    ensures filled { All IsInterval pieces.new.items }
    ensures numbers { OnOk result ((x : ℤ) → FitsSigned w64 x → has_number pieces.new.items x ≡ (has_number pieces.old.items x || relates op x number)) }
{
    match op {
        Op::Equal => push_piece(pieces, number, number),
        Op::NotEqual => {
            push_below(pieces, number)?;
            push_above(pieces, number)
        }
        Op::Less => push_below(pieces, number),
        Op::LessEqual => push_piece(pieces, i64::MIN, number),
        Op::Greater => push_above(pieces, number),
        Op::GreaterEqual => push_piece(pieces, number, i64::MAX),
    }
}

// Adds the numbers below a number.
fn push_below(pieces: &mut Vec<Interval>, number: i64) -> Result<(), NoMemory>
    requires { All IsInterval pieces.old.items }
    ensures filled { All IsInterval pieces.new.items }
    ensures numbers { OnOk result ((x : ℤ) → FitsSigned w64 x → has_number pieces.new.items x ≡ (has_number pieces.old.items x || relates Op.Less x number)) }
{
    match number.checked_sub(1) {
        Some(last) => push_piece(pieces, i64::MIN, last),
        None => Ok(()),
    }
}

// Adds the numbers above a number.
fn push_above(pieces: &mut Vec<Interval>, number: i64) -> Result<(), NoMemory>
    requires { All IsInterval pieces.old.items }
    ensures filled { All IsInterval pieces.new.items }
    ensures numbers { OnOk result ((x : ℤ) → FitsSigned w64 x → has_number pieces.new.items x ≡ (has_number pieces.old.items x || relates Op.Greater x number)) }
{
    match number.checked_add(1) {
        Some(first) => push_piece(pieces, first, i64::MAX),
        None => Ok(()),
    }
}

fn push_piece(pieces: &mut Vec<Interval>, first: i64, last: i64) -> Result<(), NoMemory>
    requires old { All IsInterval pieces.old.items }
    requires filled { first ≤ℤ last }
    ensures filled { All IsInterval pieces.new.items }
    ensures numbers { OnOk result ((x : ℤ) → has_number pieces.new.items x ≡ (has_number pieces.old.items x || (int_le first x && int_le x last))) }
{
    pieces.push(Interval { first, last })?;
    Ok(())
}
