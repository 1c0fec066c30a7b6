ghost use Rattle.std.specs.Prelude.{◌≡◌, IfOk, Ok};
ghost use Rattle.serde_json.specs.Data.{string};
ghost use Rattle.serde_json.specs.Written.{compact_text};
ghost use Rattle.euclid_ast.specs.Limits.{IsWithinLimits};
ghost use Rattle.json_program.specs.Programs.{program_file};
ghost use Rattle.json_program.specs.Written.{selection_data, program_data};

use crate::written::{program_value, selection_value};
use euclid_ast::{Program, Selection};
use key_table::{NoMemory, Text};
use serde_json::Value;
use std::alloc::Global;

/// The program as JSON, with no space and the names of each object in ascending order of bytes. A program within the limits
/// reads back from it.
pub fn write_json(alloc: Global, program: &Program) -> Result<Text, NoMemory>
    ensures text { IfOk result (λ t. t ≡ compact_text (program_data program.now)) }
    ensures reads_back { IfOk result (λ t. IsWithinLimits program.now → program_file t ≡ Ok program.now) }
{
    let value = program_value(alloc, program)?;
    Ok(Text::from(value.to_string(alloc)?))
}

/// The selection as JSON, with no space and the names of each object in ascending order of bytes.
pub fn write_selection(alloc: Global, selection: &Selection) -> Result<Text, NoMemory>
    ensures { IfOk result (λ t. t ≡ compact_text (selection_data selection.now)) }
{
    let value = selection_value(alloc, selection)?;
    Ok(Text::from(value.to_string(alloc)?))
}

/// The text as a JSON string.
pub fn write_string(alloc: Global, text: &Text) -> Result<Text, NoMemory>
    ensures { IfOk result (λ t. t ≡ compact_text (string text.now)) }
{
    let value = Value::String(String::from_str(alloc, text.as_str())?);
    Ok(Text::from(value.to_string(alloc)?))
}
