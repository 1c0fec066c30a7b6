ghost use Rattle.std.specs.Prelude.{◌≡◌, [], ◌∷◌, ◌++◌, string_bytes, IfOk};
ghost use Rattle.dir_typing.specs.Typed.{Typed};
ghost use Rattle.euclid_ast.specs.declared.program.Program.{Program};
ghost use Rattle.euclidc_commands.specs.declared.status.Verdict.TheVariants.{Refused};
ghost use Rattle.euclidc_commands.specs.Refusals.{rule_place};
ghost use Rattle.euclidc_commands.specs.TypedFiles.{place_text, type_refusal, typed_file};
ghost use Rattle.euclidc_commands.specs.Stages.{Gives, HaltsWith};

use crate::answer::Halt;
use crate::program_file::read_program;
use crate::refusal::{refused, rule_place};
use dir_typing::{DirProgram, Place, TypeFault, type_program};
use euclid_ast::Program;
use key_table::{KeyTable, Stop};
use shelf_io::Shelf;
use std::alloc::{AllocError, Global};

/// The program in a file, and what it is typed by a table.
pub fn read_typed<F: Shelf>(
    alloc: Global,
    shelf: &mut F,
    table: &KeyTable,
    name: &str,
) -> Result<(Program, DirProgram), Halt>
    ensures stage { Gives (λ (p : Program × Typed). p.1) (typed_file table.now name.now) (name.now ∷ []) (F.seen shelf.old) (F.seen shelf.new) result }
    ensures source { IfOk result (λ p. p.1.source ≡ p.0) }
    ensures table { IfOk result (λ p. p.1.table ≡ table.now) }
{
    let program = read_program(alloc, shelf, name)?;
    match type_program(alloc, table, &program) {
        Ok(typed) => Ok((program, typed)),
        Err(Stop::Memory) => Err(Halt::NoMemory),
        Err(Stop::Fault(fault)) => Err(refused_type(alloc, fault)),
    }
}

fn refused_type(alloc: Global, fault: TypeFault) -> Halt
    ensures { HaltsWith result (type_refusal fault) Refused }
{
    match where_text(alloc, fault) {
        Ok(text) => refused(alloc, "program type", fault.code, text.as_str()),
        Err(_) => Halt::NoMemory,
    }
}

// The rule and the place of a fault.
fn where_text(alloc: Global, fault: TypeFault) -> Result<String, AllocError>
    ensures { IfOk result (λ s. string_bytes s ≡ rule_place fault.rule ++ 32 ∷ place_text fault.place) }
{
    let rule = rule_place(alloc, fault.rule)?;
    let rule = rule.as_str();
    let place = place_text(alloc, fault.place)?;
    let place = place.as_str();
    format!(in alloc; "{rule} {place}")
}

#[tactic(auto, unfolding(crate::specs::TypedFiles::place_text))]
fn place_text(alloc: Global, place: Place) -> Result<String, AllocError>
    ensures { IfOk result (λ s. string_bytes s ≡ place_text place) }
{
    match place {
        Place::Comparison(number) => number.to_string(alloc),
        Place::Selection => String::from_str(alloc, "selection"),
    }
}
