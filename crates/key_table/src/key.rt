ghost use Rattle.std.specs.Prelude.{◌≡◌, ◌&&◌, nat_le, length, option_copied};
ghost use Rattle.std.specs.List.{list_all};
ghost use Rattle.key_table.specs.Tables.{kind_of, has_sub, allows};
ghost use Rattle.key_table.specs.Atoms.{test_fits};

use crate::names::Names;
use crate::{Datum, Test, Text};

/// The most bytes of a name, of a sub name and of a text in a test.
pub(crate) const MOST_NAME_BYTES: usize = 255;

// The most bytes of a text in a payment.
const MOST_TEXT_BYTES: usize = 1024;

// The most tests of an atom.
const MOST_TESTS: usize = 4096;

/// What a key's slots hold.
#[derive(Clone, Copy, Debug, PartialEq, Eq)]
pub enum Kind {
    Enum,
    Number,
    Text,
    Metadata,
}

/// What may stand at a key's slots: a variant with one of these names, a number from the first to the second, a
/// text, or texts under sub names.
#[derive(Drop)]
pub(crate) enum Domain {
    Enum(Names),
    Number(i64, i64),
    Text,
    Metadata,
}

impl Domain {
    ghost use Rattle.key_table.specs.KeyViews.{domain_view};

    /// The kind of a key with these values.
    pub(crate) fn kind(&self) -> Kind
        ensures { result ≡ kind_of (domain_view self.now) }
    {
        match self {
            Domain::Enum(_) => Kind::Enum,
            Domain::Number(_, _) => Kind::Number,
            Domain::Text => Kind::Text,
            Domain::Metadata => Kind::Metadata,
        }
    }

    /// Whether the key has slots with this sub name: metadata with one of at most 255 bytes, the others without.
    pub(crate) fn has_sub(&self, sub: Option<&Text>) -> bool
        ensures { result ≡ has_sub (domain_view self.now) (option_copied sub.entry) }
    {
        match (self, sub) {
            (Domain::Metadata, Some(sub)) => sub.as_bytes().len() <= MOST_NAME_BYTES,
            (Domain::Metadata, None) => false,
            (_, Some(_)) => false,
            (_, None) => true,
        }
    }

    /// Whether the key's slots may hold this value.
    pub(crate) fn allows(&self, datum: &Datum) -> bool
        ensures { result ≡ allows (domain_view self.now) datum.now }
    {
        match (self, datum) {
            (Domain::Enum(names), Datum::Variant(variant)) => *variant < names.count(),
            (Domain::Number(least, greatest), Datum::Number(number)) => {
                *least <= *number && *number <= *greatest
            }
            (Domain::Text | Domain::Metadata, Datum::Text(text)) => {
                text.as_bytes().len() <= MOST_TEXT_BYTES
            }
            _ => false,
        }
    }

    /// Whether there are at most 4,096 tests, and each has the kind of the key.
    pub(crate) fn fits_all(&self, tests: &[Test]) -> bool
        ensures { result ≡ (nat_le (length tests.now) 4096 && list_all (test_fits (domain_view self.now)) tests.now) }
    {
        tests.len() <= MOST_TESTS && self.fits_each(tests)
    }

    fn fits_each(&self, tests: &[Test]) -> bool
        ensures { result ≡ list_all (test_fits (domain_view self.now)) tests.now }
    {
        tests.iter().all(|test| self.fits(test))
    }

    // Whether a test has the kind of the key. The number of a test may lie outside the bounds.
    fn fits(&self, test: &Test) -> bool
        ensures { result ≡ test_fits (domain_view self.now) test.now }
    {
        match (self, test) {
            (Domain::Enum(names), Test::Variant(variant)) => *variant < names.count(),
            (Domain::Number(_, _), Test::Number(_, _)) => true,
            (Domain::Text | Domain::Metadata, Test::Text(text)) => {
                text.as_bytes().len() <= MOST_NAME_BYTES
            }
            _ => false,
        }
    }
}
