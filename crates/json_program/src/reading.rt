ghost use Rattle.std.specs.Prelude.{◌≡◌, true, IfOk};
ghost use Rattle.key_table.specs.Answers.{Answers};
ghost use Rattle.euclid_ast.specs.Limits.{IsWithinLimits};
ghost use Rattle.json_program.specs.Parts.{is_program};
ghost use Rattle.json_program.specs.Programs.{program_or_fault, program_file};

use crate::JsonError;
use crate::counts::Counts;
use crate::limits::MOST_LEVELS;
use crate::program::program_in;
use euclid_ast::Program;
use json_shape::{ShapeError, read};
use key_table::Stop;
use std::alloc::Global;

/// The program that the bytes of a file are, which is within the limits, or the first fault and its place. A program is the
/// object at the root, or the field `data` of a root whose field `type` is the string `advanced`; each path then begins with
/// `/data`.
///
/// Fields are judged in this order, depth first, a list's length before its items and these in order: of a program
/// `defaultSelection` and `rules`; of a rule `name`, `connectorSelection` or where that is missing `routingOutput`, and
/// `statements`; of a statement `condition`, and `nested` where it is there and not null; of a comparison `lhs`, `comparison`
/// and `value`; of a value and of a selection `type` and what it says. Other fields are ignored.
///
/// - 1 NotJson, at the root: the bytes are no JSON (RFC 8259), or arrays and objects nest more than 127 deep.
/// - 2 Missing: the field isn't there.
/// - 3 WrongShape: another kind of JSON stands there than has to, a negative amount, a split past 0 to 255, a rate past 0 to
///   10,000, or a decision that is neither `three_ds` nor `no_three_ds`.
/// - 4 NotWhole: a number that is no signed 64-bit whole number.
/// - 5 Limit: a text of more than 255 bytes, more than 4,096 items of a value or of a selection, 16,384 items of a condition
///   or of a list of statements, or 256 rules; also the 16,385th statement, the 16,385th comparison, and a statement of level
///   33, before their fields.
/// - 6 UnknownForm: another string as the `type` of a value or of a selection.
/// - 7 UnknownOperator: another string as an operator.
#[tactic(auto, unfolding(crate::specs::Programs::program_file))]
pub fn read_json(alloc: Global, bytes: &[u8]) -> Result<Program, Stop<JsonError>>
    ensures program { Answers (λ p. p) result (program_file bytes.now) }
    ensures within { IfOk result (λ p. IsWithinLimits p) }
{
    match program_from(alloc, bytes, MOST_LEVELS) {
        Ok(program) => Ok(program),
        Err(Stop::Memory) => Err(Stop::Memory),
        Err(Stop::Fault(error)) => Err(Stop::Fault(JsonError {
            code: error.code,
            path: error.path,
        })),
    }
}

fn program_from(alloc: Global, bytes: &[u8], levels: u8) -> Result<Program, Stop<ShapeError>>
    ensures program { Answers (λ p. p) result (program_or_fault levels bytes.now) }
    ensures fits { IfOk result (λ p. is_program levels p ≡ true) }
{
    let node = read(alloc, bytes)?;
    let mut counts = Counts {
        statements: 0,
        comparisons: 0,
    };
    program_in(alloc, &node, levels, &mut counts)
}
