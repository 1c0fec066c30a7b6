ghost use Rattle.std.specs.Prelude.{◌≡◌, IfOk, option_map, Some, map};
ghost use Rattle.std.specs.List.{list_any};
ghost use Rattle.key_table.specs.Atoms.{relates, test_holds, passes};
ghost use Rattle.key_table.specs.Options.{holds_on, OptionLaw};

use crate::{Copied, Datum, NoMemory, Payment, Seq, Slot, Text};

/// How a number compares with another.
#[derive(Clone, Copy, Debug, PartialEq, Eq, PartialOrd, Ord, Hash)]
pub enum Op {
    Equal,
    NotEqual,
    Less,
    LessEqual,
    Greater,
    GreaterEqual,
}

/// A test of a value: that it is this variant or this text, or a number with this relation to the given one.
#[derive(Debug, PartialEq, Eq, PartialOrd, Ord, Hash, Drop)]
pub enum Test {
    Variant(u32),
    Text(Text),
    Number(Op, i64),
}

/// Tests on one slot. With `none_of` false the atom holds where the slot is there and some test is true, with
/// `none_of` true where the slot is there and no test is.
#[derive(Debug, PartialEq, Eq, PartialOrd, Ord, Hash, Drop)]
pub struct Atom {
    pub slot: Slot,
    pub none_of: bool,
    pub tests: Seq<Test>,
}

/// What is known of an atom: that it is true, that it is false, or neither.
#[derive(Clone, Copy, Debug, PartialEq, Eq)]
pub enum Verdict3 {
    Entailed,
    Refuted,
    Undecided,
}

impl Op {
    /// Whether the left number has this relation to the right one.
    pub fn relates(self, left: i64, right: i64) -> bool
        ensures { result ≡ relates self left right }
    {
        match self {
            Op::Equal => left == right,
            Op::NotEqual => left != right,
            Op::Less => left < right,
            Op::LessEqual => left <= right,
            Op::Greater => left > right,
            Op::GreaterEqual => left >= right,
        }
    }
}

impl Test {
    // Whether the test is true of a value.
    fn holds(&self, datum: &Datum) -> bool
        ensures { result ≡ test_holds datum.now self.now }
    {
        match (datum, self) {
            (Datum::Variant(there), Test::Variant(wanted)) => *there == *wanted,
            (Datum::Text(there), Test::Text(wanted)) => there.is(wanted.as_bytes()),
            (Datum::Number(there), Test::Number(op, number)) => op.relates(*there, *number),
            _ => false,
        }
    }

    /// An equal test.
    pub fn copy(&self) -> Result<Test, NoMemory>
        ensures { IfOk result (λ t. t ≡ self.now) }
    {
        Ok(match self {
            Test::Variant(variant) => Test::Variant(*variant),
            Test::Text(text) => Test::Text(text.copy()?),
            Test::Number(op, number) => Test::Number(*op, *number),
        })
    }
}

impl Atom {
    // Whether some test is true of a value or, with `none_of`, none is.
    fn passes(&self, datum: &Datum) -> bool
        ensures { result ≡ passes self.now datum.now }
    {
        if self.none_of {
            !self.has_true_test(datum)
        } else {
            self.has_true_test(datum)
        }
    }

    fn has_true_test(&self, datum: &Datum) -> bool
        ensures { result ≡ list_any (test_holds datum.now) self.now.tests }
    {
        self.tests.as_slice().iter().any(|test| test.holds(datum))
    }

    /// An equal atom.
    pub fn copy(&self) -> Result<Atom, NoMemory>
        ensures { IfOk result (λ a. a ≡ self.now) }
    {
        Ok(Atom {
            slot: self.slot.copy()?,
            none_of: self.none_of,
            tests: self.tests.copy()?,
        })
    }
}

impl Copied for Test {
    fn copied(&self) -> Result<Test, NoMemory> {
        self.copy()
    }
}

impl Copied for Atom {
    fn copied(&self) -> Result<Atom, NoMemory> {
        self.copy()
    }
}

/// Whether the atom holds of the payment: its slot is there and some test is true of the value or, with `none_of`, no
/// test is.
pub fn atom_holds(atom: &Atom, payment: &Payment) -> bool
    ensures { result ≡ holds_on atom.now payment.now }
{
    match payment.get(&atom.slot) {
        Some(datum) => atom.passes(datum),
        None => false,
    }
}

/// In a legal payment each slot has one of its options: absence, or a value that is legal there.
pub fn option_law()
    ensures { OptionLaw }
{}
