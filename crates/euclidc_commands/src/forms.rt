ghost use Rattle.std.specs.Prelude.{◌≡◌, ◌<◌, ◌^◌, length, IfOk, Ok};
ghost use Rattle.serde_json.specs.Written.{compact_text};
ghost use Rattle.key_table.specs.Answers.{Answers};
ghost use Rattle.euclid_ast.specs.Limits.{IsWithinLimits};
ghost use Rattle.euclid_printer.specs.Expressible.{printed};
ghost use Rattle.json_program.specs.Written.{program_data};
ghost use Rattle.euclidc_commands.specs.Forms.{DecideAlike};
ghost use Rattle.euclidc_commands.specs.ProgramFiles.{program_of};

use euclid_ast::Program;
use euclid_parser::text_law;
use euclid_printer::{Inexpressible, print_text};
use json_program::write_json;
use key_table::{NoMemory, Stop, Text};
use std::alloc::Global;

/// The text of a program, as `print_text` prints it, and its JSON, as `write_json` writes it. Files of them decide every payment
/// alike, where the program is within the limits. It is refused exactly where the text form cannot say it.
pub fn both_forms(alloc: Global, program: &Program) -> Result<(Text, Text), Stop<Inexpressible>>
    requires { length program.now.rules < 2 ^ 32 }
    ensures text { Answers (λ forms. forms.0) result (printed program.now) }
    ensures json { IfOk result (λ forms. forms.1 ≡ compact_text (program_data program.now)) }
    ensures alike { IfOk result (λ forms. IsWithinLimits program.now → DecideAlike forms.0 forms.1) }
{
    let text = text_of(alloc, program)?;
    let json = json_of(alloc, program)?;
    Ok((text, json))
}

fn text_of(alloc: Global, program: &Program) -> Result<Text, Stop<Inexpressible>>
    requires { length program.now.rules < 2 ^ 32 }
    ensures text { Answers (λ t. t) result (printed program.now) }
    ensures reads_back { IfOk result (λ t. IsWithinLimits program.now → program_of t ≡ Ok program.now) }
{
    text_law();
    let text = print_text(alloc, program)?;
    Ok(text)
}

fn json_of(alloc: Global, program: &Program) -> Result<Text, NoMemory>
    ensures text { IfOk result (λ t. t ≡ compact_text (program_data program.now)) }
    ensures reads_back { IfOk result (λ t. IsWithinLimits program.now → program_of t ≡ Ok program.now) }
{
    write_json(alloc, program)
}
