ghost use Rattle.std.specs.Prelude.{◌≡◌};
ghost use Rattle.contradiction_checker.specs.Findings.{nothing, nothing_known, known, verdict_of, with_known, known_in};

use crate::trail::Trail;
use key_table::Verdict3;

/// What is known of the truths that are left to an atom, of each as far as it was asked: whether an option is left to its slot
/// on which it is true, and one on which it is false.
#[derive(Clone, Copy)]
pub(crate) struct Known {
    pub(crate) yes: Option<bool>,
    pub(crate) no: Option<bool>,
}

impl Known {
    /// That nothing is known.
    pub(crate) fn nothing() -> Known
        ensures { result ≡ nothing_known }
    {
        Known {
            yes: None,
            no: None,
        }
    }

    /// Whether a truth is left. `None` exactly where that is not known.
    pub(crate) fn left(self, truth: bool) -> Option<bool>
        ensures { result ≡ known self truth }
    {
        if truth { self.yes } else { self.no }
    }

    /// The verdict of the atom, refuted where it cannot be true. `None` exactly where it is not known.
    pub(crate) fn verdict(self) -> Option<Verdict3>
        ensures { result ≡ verdict_of self.yes self.no }
    {
        match (self.yes, self.no) {
            (Some(false), _) => Some(Verdict3::Refuted),
            (Some(true), Some(false)) => Some(Verdict3::Entailed),
            (Some(true), Some(true)) => Some(Verdict3::Undecided),
            _ => None,
        }
    }

    /// What is known with this of a truth.
    pub(crate) fn with(self, truth: bool, left: bool) -> Known
        ensures { result ≡ with_known self truth left }
    {
        if truth {
            Known {
                yes: Some(left),
                no: self.no,
            }
        } else {
            Known {
                yes: self.yes,
                no: Some(left),
            }
        }
    }
}

/// What was found of an atom, until a time, and the chain of its slot.
#[derive(Clone, Copy)]
pub(crate) struct Finding {
    pub(crate) chain: usize,
    pub(crate) time: u32,
    pub(crate) known: Known,
}

impl Finding {
    /// That nothing was found.
    pub(crate) fn nothing() -> Finding
        ensures { result ≡ nothing }
    {
        Finding {
            chain: 0,
            time: 0,
            known: Known::nothing(),
        }
    }

    /// What of it is known still: nothing where an assumption of its chain came, went or turned since.
    pub(crate) fn known_in(self, trail: &Trail) -> Known
        ensures { result ≡ known_in trail.now self }
    {
        if trail.has_stayed(self.chain, self.time) {
            self.known
        } else {
            Known::nothing()
        }
    }
}
