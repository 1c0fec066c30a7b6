ghost use Rattle.std.specs.Prelude.{[]};
ghost use Rattle.serde_json.specs.View.{view};
ghost use Rattle.key_table.specs.Answers.{Answers, StopsWith};
ghost use Rattle.json_shape.specs.Paths.{fault};
ghost use Rattle.json_shape.specs.Shapes.{json_of};

use crate::error::NOT_JSON;
use crate::{Path, ShapeError};
use key_table::Stop;
use serde_json::{Category, Value};
use std::alloc::Global;
use std::str;

/// The JSON value (RFC 8259) that the bytes are. NotJson, with the empty path, exactly where they are not UTF-8 or
/// serde_json refuses them for another cause than memory: also where arrays and objects nest more than 127 deep, or where a
/// number is too large for a float. Where an object has equal names, the last of them stands.
pub fn read(alloc: Global, bytes: &[u8]) -> Result<Value, Stop<ShapeError>>
    ensures { Answers view result (json_of bytes.now) }
{
    let Ok(text) = str::from_utf8(bytes) else {
        return Err(not_json(alloc));
    };
    match Value::from_str(alloc, text) {
        Ok(value) => Ok(value),
        Err(error) if error.classify() == Category::Memory => Err(Stop::Memory),
        Err(_) => Err(not_json(alloc)),
    }
}

fn not_json(alloc: Global) -> Stop<ShapeError>
    ensures { StopsWith result (fault 1 []) }
{
    Path::root(alloc).stop(NOT_JSON)
}
