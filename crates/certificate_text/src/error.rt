use key_table::Stop;
use thiserror::Error;

pub(crate) const BAD_LINE: u8 = 1;

pub(crate) const BAD_ATOM: u8 = 2;

pub(crate) const UNENDED: u8 = 3;

pub(crate) const TRAILING: u8 = 4;

pub(crate) const LIMIT: u8 = 5;

pub(crate) const PARTIAL: u8 = 6;

/// The first fault of a certificate file: its code, and the number of its line, counted from 1. The codes are 1 BadLine (the
/// line has not the form that its place asks for), 2 BadAtom (the atom does not fit the table), 3 Unended (no line feed
/// ends the line), 4 Trailing (bytes follow the line `end`), 5 Limit, and 6 Partial (the file is a trace).
#[derive(Clone, Copy, Debug, PartialEq, Eq, Error)]
#[error("the certificate has fault {code} on line {line}")]
pub struct CertError {
    pub line: u32,
    pub code: u8,
}

impl From<CertError> for Stop<CertError> {
    ghost use Rattle.std.specs.Prelude.{◌≡◌};
    ghost use Rattle.key_table.specs.declared.stop.Stop.TheVariants.{Fault};

    ghost from_gives = { λ e s. s ≡ Fault e };

    fn from(error: CertError) -> Self {
        Stop::Fault(error)
    }
}
