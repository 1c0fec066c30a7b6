ghost use Rattle.std.specs.Prelude.{◌≡◌, ◌<◌, ◌^◌, ◌++◌, length, codes, IfOk};
ghost use Rattle.serde_json.specs.Written.{compact_text};
ghost use Rattle.json_program.specs.Written.{program_data};
ghost use Rattle.euclid_printer.specs.Expressible.{printed};
ghost use Rattle.euclidc_commands.specs.declared.status.Verdict.TheVariants.{Refused};
ghost use Rattle.euclidc_commands.specs.Convert.{convert_refusal, converted, MayAnswer, asked, names};
ghost use Rattle.euclidc_commands.specs.Runs.{judged};
ghost use Rattle.euclidc_commands.specs.Stages.{Concludes, Judges, HaltsWith};

use crate::answer::{Answer, Halt};
use crate::command::Form;
use crate::program_file::read_program;
use crate::refusal::{refused, rule_place};
use crate::status::Verdict;
use euclid_ast::Program;
use euclid_printer::{Inexpressible, print_text};
use json_program::write_json;
use key_table::{NoMemory, Stop, Text};
use shelf_io::Shelf;
use std::alloc::Global;

const INEXPRESSIBLE: u8 = 1;

/// Runs the command `convert`: the program, whichever form its file has, in the form that is asked for. It is not typed.
pub fn run_convert<F: Shelf>(
    alloc: Global,
    shelf: &mut F,
    form: Form,
    program_name: &str,
) -> Result<Answer, Halt>
    ensures { Concludes (MayAnswer form program_name.now) (asked form program_name.now) (names program_name.now) (F.seen shelf.old) (F.seen shelf.new) result }
{
    let program = read_program(alloc, shelf, program_name)?;
    let text = converted(alloc, form, &program)?;
    Ok(Answer {
        text,
        verdict: Verdict::Done,
    })
}

// The program in a form.
fn converted(alloc: Global, form: Form, program: &Program) -> Result<Text, Halt>
    requires { length program.now.rules < 2 ^ 32 }
    ensures { Judges (λ t. t) (converted form program.now) result }
{
    match form {
        Form::Json => Ok(json_line(alloc, program)?),
        Form::Text => text_form(alloc, program),
    }
}

fn json_line(alloc: Global, program: &Program) -> Result<Text, NoMemory>
    ensures { IfOk result (λ t. t ≡ compact_text (program_data program.now) ++ codes "\n") }
{
    let json = write_json(alloc, program)?;
    let json = json.as_str();
    let line = format!(in alloc; "{json}\n")?;
    Ok(Text::from(line))
}

fn text_form(alloc: Global, program: &Program) -> Result<Text, Halt>
    requires { length program.now.rules < 2 ^ 32 }
    ensures { Judges (λ t. t) (judged convert_refusal (printed program.now)) result }
{
    match print_text(alloc, program) {
        Ok(text) => Ok(text),
        Err(Stop::Memory) => Err(Halt::NoMemory),
        Err(Stop::Fault(fault)) => Err(refused_convert(alloc, fault)),
    }
}

fn refused_convert(alloc: Global, fault: Inexpressible) -> Halt
    ensures { HaltsWith result (convert_refusal fault) Refused }
{
    match rule_place(alloc, fault.rule) {
        Ok(rule) => refused(alloc, "convert", INEXPRESSIBLE, rule.as_str()),
        Err(_) => Halt::NoMemory,
    }
}
