ghost use Rattle.std.specs.Prelude.{◌≡◌};
ghost use Rattle.euclidc_commands.specs.Statuses.{number_of, status_of};

/// How the program ends. Its number is its place here, counted from 0.
#[derive(Clone, Copy, Debug, PartialEq, Eq)]
pub enum Status {
    /// The answer was written.
    Done,
    /// The answer is no.
    No,
    /// The words are no command.
    Usage,
    /// A file or a word of the command is refused.
    Refused,
    /// A file is longer than its limit.
    TooLong,
    /// A file could not be read. Nothing is written.
    ReadFault,
    /// The answer could not be written whole.
    WriteFault,
    /// There was no memory. Nothing is written.
    NoMemory,
}

/// What an answer says of itself.
#[derive(Clone, Copy, Debug, PartialEq, Eq)]
pub enum Verdict {
    Done,
    No,
    Refused,
    TooLong,
}

impl Status {
    /// The exit status of the program.
    pub fn number(self) -> u8
        ensures { result ≡ number_of self }
    {
        match self {
            Status::Done => 0,
            Status::No => 1,
            Status::Usage => 2,
            Status::Refused => 3,
            Status::TooLong => 4,
            Status::ReadFault => 5,
            Status::WriteFault => 6,
            Status::NoMemory => 7,
        }
    }
}

impl Verdict {
    /// The status of an answer that was put whole.
    pub fn status(self) -> Status
        ensures { result ≡ status_of self }
    {
        match self {
            Verdict::Done => Status::Done,
            Verdict::No => Status::No,
            Verdict::Refused => Status::Refused,
            Verdict::TooLong => Status::TooLong,
        }
    }
}
