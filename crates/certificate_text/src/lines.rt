ghost use Rattle.std.specs.Prelude.{◌≡◌, ◌∷◌, [], ◌+◌, ◌<◌, ◌==◌, length, IfOk, IfErr, OnOk};
ghost use Rattle.certificate_text.specs.Lines.{lines_of};
ghost use Rattle.certificate_text.specs.Reading.{fault};

use crate::CertError;
use crate::error::UNENDED;
use crate::spelling::place_of;

/// What is left of a file, and how many of its lines were read.
#[derive(Drop)]
pub(crate) struct Lines<'a> {
    pub(crate) rest: &'a [u8],
    pub(crate) read: u32,
}

impl<'a> Lines<'a> {
    /// The next line, without its line feed.
    pub(crate) fn next(&mut self) -> Result<&'a [u8], CertError>
        requires { self.old.read < 4294967295 }
        ensures line { IfOk result (λ line. lines_of self.old.rest.now ≡ record { ended = line.now ∷ (lines_of self.new.rest.now).ended; rest = (lines_of self.new.rest.now).rest }) }
        ensures read { OnOk result (self.new.read ≡ self.old.read + 1) }
        ensures shorter { OnOk result (length self.new.rest.now < length self.old.rest.now) }
        ensures unended { IfErr result (λ e. (e ≡ fault (self.old.read + 1) 3) × (lines_of self.old.rest.now ≡ record { ended = []; rest = self.old.rest.now })) }
    {
        let rest = self.rest;
        match place_of(rest, b'\n') {
            Some(at) => {
                self.rest = &rest[at + 1..];
                self.read += 1;
                Ok(&rest[..at])
            }
            None => Err(CertError {
                line: self.read + 1,
                code: UNENDED,
            }),
        }
    }

    /// Whether no byte is left.
    pub(crate) fn is_read(&self) -> bool
        ensures { result ≡ (length self.now.rest.now == 0) }
    {
        self.rest.is_empty()
    }

    /// A fault of the line that was read last.
    pub(crate) fn fault(&self, code: u8) -> CertError
        ensures { result ≡ fault self.now.read code }
    {
        CertError {
            line: self.read,
            code,
        }
    }
}
