ghost use Rattle.std.specs.Prelude.{◌≡◌, ℕ, List, IfOk};
ghost use Rattle.euclidc_commands.specs.Stages.{HaltsWith};

use crate::status::Verdict;
use key_table::{NoMemory, Text};
use std::alloc::AllocError;

/// The text that is put, and what it says.
#[derive(Debug, Drop)]
pub struct Answer {
    pub text: Text,
    pub verdict: Verdict,
}

/// Why a stage gave no value: for want of memory, since a file could not be read, or since the answer is decided.
#[derive(Debug, Drop)]
pub enum Halt {
    NoMemory,
    ReadFault,
    Ends(Answer),
}

impl Halt {
    /// The answer is decided: it has this text, for which there may have been no memory.
    pub fn with(text: Result<Text, NoMemory>, verdict: Verdict) -> Halt
        ensures { (wanted : List ℕ) → IfOk text (λ t. t ≡ wanted) → HaltsWith result wanted verdict }
    {
        match text {
            Ok(text) => Halt::Ends(Answer { text, verdict }),
            Err(NoMemory) => Halt::NoMemory,
        }
    }
}

impl From<NoMemory> for Halt {
    ghost use Rattle.std.specs.Prelude.{◌≡◌};
    ghost use Rattle.euclidc_commands.specs.declared.answer.Halt.TheVariants.{NoMemory};

    ghost from_gives = { λ _ e. e ≡ NoMemory };

    fn from(_: NoMemory) -> Halt {
        Halt::NoMemory
    }
}

impl From<AllocError> for Halt {
    ghost use Rattle.std.specs.Prelude.{◌≡◌};
    ghost use Rattle.euclidc_commands.specs.declared.answer.Halt.TheVariants.{NoMemory};

    ghost from_gives = { λ _ e. e ≡ NoMemory };

    fn from(_: AllocError) -> Halt {
        Halt::NoMemory
    }
}
