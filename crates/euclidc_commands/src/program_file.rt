ghost use Rattle.std.specs.Prelude.{◌≡◌, ◌<◌, ◌≤◌, [], ◌∷◌, length, position, IfOk, IfSome};
ghost use Rattle.euclid_ast.specs.Limits.{IsWithinLimits};
ghost use Rattle.euclidc_commands.specs.declared.status.Verdict.TheVariants.{Refused};
ghost use Rattle.euclid_parser.specs.TextFiles.{text_file};
ghost use Rattle.json_program.specs.Programs as json;
ghost use Rattle.euclidc_commands.specs.ProgramFiles.{is_sign, is_json, json_fault, text_fault, read_as, program_refusal, program_file};
ghost use Rattle.euclidc_commands.specs.Runs.{judged};
ghost use Rattle.euclidc_commands.specs.Stages.{Gives, Judges, HaltsWith};

use crate::answer::Halt;
use crate::file::read_file;
use crate::refusal::refused;
use crate::role::Role;
use crate::status::Verdict;
use euclid_ast::Program;
use euclid_parser::{ParseError, parse};
use json_program::{JsonError, read_json, write_string};
use key_table::{NoMemory, Stop};
use shelf_io::Shelf;
use std::alloc::Global;

/// The program in a file, which is within the limits.
pub fn read_program<F: Shelf>(alloc: Global, shelf: &mut F, name: &str) -> Result<Program, Halt>
    ensures stage { Gives (λ p. p) (program_file name.now) (name.now ∷ []) (F.seen shelf.old) (F.seen shelf.new) result }
    ensures within { IfOk result (λ p. IsWithinLimits p) }
{
    let bytes = read_file(alloc, shelf, name, Role::Program)?;
    if is_json(&bytes) {
        json_program(alloc, &bytes)
    } else {
        text_program(alloc, &bytes)
    }
}

fn json_program(alloc: Global, bytes: &[u8]) -> Result<Program, Halt>
    ensures program { Judges (λ p. p) (judged program_refusal (read_as json_fault (json.program_file bytes.now))) result }
    ensures within { IfOk result (λ p. IsWithinLimits p) }
{
    match read_json(alloc, bytes) {
        Ok(program) => Ok(program),
        Err(Stop::Memory) => Err(Halt::NoMemory),
        Err(Stop::Fault(error)) => Err(refused_json(alloc, &error)),
    }
}

fn text_program(alloc: Global, bytes: &[u8]) -> Result<Program, Halt>
    requires { length bytes.now ≤ 1048576 }
    ensures program { Judges (λ p. p) (judged program_refusal (read_as text_fault (text_file bytes.now))) result }
    ensures within { IfOk result (λ p. IsWithinLimits p) }
{
    match parse(alloc, bytes) {
        Ok(program) => Ok(program),
        Err(Stop::Memory) => Err(Halt::NoMemory),
        Err(Stop::Fault(error)) => Err(refused_text(alloc, error)),
    }
}

// Whether a file is JSON, and else a text.
fn is_json(bytes: &[u8]) -> bool
    ensures { result ≡ is_json bytes.now }
{
    match first_sign(bytes) {
        Some(place) => bytes[place] == b'{',
        None => false,
    }
}

// Where the first byte stands that is no blank.
fn first_sign(bytes: &[u8]) -> Option<usize>
    ensures place { result ≡ position is_sign bytes.now }
    ensures within { IfSome result (λ place. place < length bytes.now) }
{
    bytes.iter().position(|byte| is_sign(*byte))
}

fn is_sign(byte: u8) -> bool
    ensures { result ≡ is_sign byte }
{
    !matches!(byte, b'\t' | b'\n' | b'\r' | b' ')
}

fn refused_json(alloc: Global, error: &JsonError) -> Halt
    ensures { HaltsWith result (program_refusal (json_fault error.now)) Refused }
{
    match write_string(alloc, &error.path) {
        Ok(path) => refused(alloc, "program json", error.code, path.as_str()),
        Err(NoMemory) => Halt::NoMemory,
    }
}

fn refused_text(alloc: Global, error: ParseError) -> Halt
    ensures { HaltsWith result (program_refusal (text_fault error)) Refused }
{
    match error.at.to_string(alloc) {
        Ok(at) => refused(alloc, "program text", error.code, at.as_str()),
        Err(_) => Halt::NoMemory,
    }
}
