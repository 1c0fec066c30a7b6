/// Whether a token cannot stand where it does, or begins one too many.
#[derive(Clone, Copy, Debug, PartialEq, Eq)]
pub(crate) enum Code {
    Unexpected,
    TooMuch,
}

/// A fault, and how many tokens are left at its place.
#[derive(Clone, Copy, Debug, PartialEq, Eq)]
pub(crate) struct Fault {
    pub code: Code,
    pub left: usize,
}
