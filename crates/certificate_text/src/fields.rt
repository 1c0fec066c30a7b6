ghost use Rattle.std.specs.Prelude.{◌≡◌, ◌∷◌, [], MatchOption, ◌==◌};
ghost use Rattle.std.specs.List.{slice_split};
ghost use Rattle.certificate_text.specs.Forms.{fields_of};

use crate::spelling::place_of;

/// The fields of a line that are left. They are separated by one space.
#[derive(Clone, Copy)]
pub(crate) struct Fields<'a> {
    pub(crate) rest: Option<&'a [u8]>,
}

impl<'a> Fields<'a> {
    /// All fields of a line.
    pub(crate) fn of(line: &'a [u8]) -> Fields<'a>
        ensures { fields_of result.rest ≡ slice_split (λ b. b == 32) line.now }
    {
        Fields { rest: Some(line) }
    }

    /// The next field.
    pub(crate) fn next(&mut self) -> Option<&'a [u8]>
        ensures { MatchOption result (fields_of self.old.rest ≡ []) (λ field. fields_of self.old.rest ≡ field.now ∷ fields_of self.new.rest) }
    {
        match self.rest {
            Some(rest) => {
                let (field, more) = first_field(rest);
                self.rest = more;
                Some(field)
            }
            None => None,
        }
    }
}

// The first field, and what follows its space.
fn first_field(rest: &[u8]) -> (&[u8], Option<&[u8]>)
    ensures { slice_split (λ b. b == 32) rest.now ≡ result.0.now ∷ fields_of result.1 }
{
    match place_of(rest, b' ') {
        Some(at) => (&rest[..at], Some(&rest[at + 1..])),
        None => (rest, None),
    }
}
