//! Programs to text.

ghost use Rattle.std.specs.Prelude.{◌≡◌, ◌<◌, ◌^◌, length, None, IfOk};
ghost use Rattle.key_table.specs.Answers.{Answers};
ghost use Rattle.euclid_ast.specs.Limits.{IsWithinLimits};
ghost use Rattle.euclid_lexer.specs.Pieces.{text_of};
ghost use Rattle.euclid_grammar.specs.Texts.{IsTextOf};
ghost use Rattle.euclid_printer.specs.Expressible.{unsaid, printed};
ghost use Rattle.euclid_printer.specs.Layout.{program_pieces};

use crate::Inexpressible;
use crate::expressible::unsaid;
use crate::program::program_text;
use euclid_ast::Program;
use euclid_grammar::{limits_law, quoted_law};
use euclid_lexer::{pieces_law, written_law};
use key_table::{NoMemory, Stop, Text};
use std::alloc::Global;

/// The text of a program of fewer than 2^32 rules: a line with the default, and then each rule with its name in quotes and
/// its statements in curly brackets. A statement stands on a line of its own, two spaces further in for each level, the
/// outermost being level 1, and those nested in it stand below it in curly brackets.
///
/// Refused is what the text form cannot say: an empty condition, a list of nested statements that is there and empty, an
/// empty array, a text with a quote or a line feed, and a left side or a variant that is no word. The fault then has no
/// number where the default holds such a thing, and else the number of the first rule that does, counted from 0.
///
/// The text of a program within the limits is a text of that very program: its tokens spell it.
pub fn print_text(alloc: Global, program: &Program) -> Result<Text, Stop<Inexpressible>>
    requires { length program.now.rules < 2 ^ 32 }
    ensures text { Answers (λ t. t) result (printed program.now) }
    ensures reads_back { IfOk result (λ t. IsWithinLimits program.now → IsTextOf t program.now) }
{
    match unsaid(program) {
        Some(inexpressible) => Err(Stop::Fault(inexpressible)),
        None => Ok(said_text(alloc, program)?),
    }
}

// The text of a program that the text form can say.
fn said_text(alloc: Global, program: &Program) -> Result<Text, NoMemory>
    requires { unsaid program.now ≡ None }
    ensures text { IfOk result (λ t. t ≡ text_of (program_pieces program.now)) }
    ensures reads_back { IfOk result (λ t. IsWithinLimits program.now → IsTextOf t program.now) }
{
    pieces_law();
    written_law();
    quoted_law();
    limits_law();
    let text = program_text(alloc, program)?;
    Ok(Text::from(text))
}
