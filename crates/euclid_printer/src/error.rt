use thiserror::Error;

/// The text form cannot say a program: the number of the first rule that it cannot say, counted from 0, or none where it
/// cannot say the default.
#[derive(Clone, Copy, Debug, PartialEq, Eq, Error)]
#[error("the text form cannot say the program")]
pub struct Inexpressible {
    pub rule: Option<u32>,
}
