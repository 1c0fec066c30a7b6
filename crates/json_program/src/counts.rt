ghost use Rattle.std.specs.Prelude.{◌≡◌};
ghost use Rattle.key_table.specs.Answers.{Answers};
ghost use Rattle.json_program.specs.Begun.{statement_begun, comparison_begun};

use crate::error::LIMIT;
use crate::limits::{MOST_COMPARISONS, MOST_STATEMENTS};
use json_shape::{Path, ShapeError};
use key_table::Stop;

/// How many statements and how many comparisons of the program were begun.
#[derive(Clone, Copy, Debug, PartialEq, Eq)]
pub(crate) struct Counts {
    pub(crate) statements: u32,
    pub(crate) comparisons: u32,
}

impl Counts {
    /// One more statement, which stands at a path. Limit there exactly where 16,384 were begun before.
    #[tactic(auto, unfolding(crate::specs::Begun::statement_begun))]
    pub(crate) fn begin_statement(&mut self, path: &Path) -> Result<(), Stop<ShapeError>>
        ensures { Answers (λ u. (u, self.new)) result (statement_begun path.now self.old) }
    {
        if self.statements >= MOST_STATEMENTS {
            return Err(path.stop(LIMIT));
        }
        self.statements += 1;
        Ok(())
    }

    /// One more comparison, which stands at a path. Limit there exactly where 16,384 were begun before.
    #[tactic(auto, unfolding(crate::specs::Begun::comparison_begun))]
    pub(crate) fn begin_comparison(&mut self, path: &Path) -> Result<(), Stop<ShapeError>>
        ensures { Answers (λ u. (u, self.new)) result (comparison_begun path.now self.old) }
    {
        if self.comparisons >= MOST_COMPARISONS {
            return Err(path.stop(LIMIT));
        }
        self.comparisons += 1;
        Ok(())
    }
}
