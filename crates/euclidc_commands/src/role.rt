ghost use Rattle.std.specs.Prelude.{◌≡◌, ◌≤◌};
ghost use Rattle.euclidc_commands.specs.Roles.{word_of, limit_of};

const LIMIT: usize = 1_048_576;

const CERTIFICATE_LIMIT: usize = 16_777_216;

/// What a file is to a command.
#[derive(Clone, Copy, Debug, PartialEq, Eq)]
pub enum Role {
    Table,
    Program,
    Payment,
    Settings,
    Certificate,
}

impl Role {
    /// The word by which answers name it.
    pub fn word(self) -> &'static str
        ensures { result.now ≡ word_of self }
    {
        match self {
            Role::Table => "table",
            Role::Program => "program",
            Role::Payment => "payment",
            Role::Settings => "settings",
            Role::Certificate => "certificate",
        }
    }

    /// The most bytes of such a file.
    pub fn limit(self) -> usize
        ensures value { result ≡ limit_of self }
        ensures most { result ≤ 16777216 }
    {
        match self {
            Role::Certificate => CERTIFICATE_LIMIT,
            Role::Table | Role::Program | Role::Payment | Role::Settings => LIMIT,
        }
    }
}
