ghost use Rattle.std.specs.Prelude.{◌≡◌, true, IfOk};
ghost use Rattle.std.specs.Option.{option_map_or};
ghost use Rattle.serde_json.specs.View.{view};
ghost use Rattle.key_table.specs.Answers.{Answers};
ghost use Rattle.key_table.specs.Integers.{is_signed};
ghost use Rattle.euclid_ast.specs.Limits.{is_short};
ghost use Rattle.json_shape.specs.Shapes.{whole_of};
ghost use Rattle.json_shape.specs.Fields.{within_field, within_optional};
ghost use Rattle.json_program.specs.Texts.{text_of, name_in};

use crate::limits::MOST_BYTES;
use json_shape::{Path, ShapeError, field, optional, text_up_to, whole};
use key_table::{Stop, Text};
use serde_json::Value;
use std::alloc::Global;

/// A text of at most 255 bytes.
pub(crate) fn short_text(alloc: Global, node: &Value, path: &Path) -> Result<Text, Stop<ShapeError>>
    ensures text { Answers (λ t. t) result (text_of path.now (view node.now)) }
    ensures fits { IfOk result (λ t. is_short t ≡ true) }
{
    text_up_to(alloc, node, path, MOST_BYTES)
}

/// The text of a field, of at most 255 bytes.
pub(crate) fn short_text_in(
    alloc: Global,
    node: &Value,
    path: &Path,
    name: &str,
) -> Result<Text, Stop<ShapeError>>
    ensures text { Answers (λ t. t) result (within_field name.now text_of path.now (view node.now)) }
    ensures fits { IfOk result (λ t. is_short t ≡ true) }
{
    let at = path.name(name)?;
    short_text(alloc, field(alloc, node, path, name)?, &at)
}

/// The text of a field, of at most 255 bytes, unless it is missing or null.
pub(crate) fn optional_text_in(
    alloc: Global,
    node: &Value,
    path: &Path,
    name: &str,
) -> Result<Option<Text>, Stop<ShapeError>>
    ensures text { Answers (λ o. o) result (within_optional name.now text_of path.now (view node.now)) }
    ensures fits { IfOk result (λ o. option_map_or is_short o true ≡ true) }
{
    match optional(alloc, node, path, name)? {
        Some(text) => {
            let at = path.name(name)?;
            Ok(Some(short_text(alloc, text, &at)?))
        }
        None => Ok(None),
    }
}

/// The whole number of a field.
pub(crate) fn whole_in(
    alloc: Global,
    node: &Value,
    path: &Path,
    name: &str,
) -> Result<i64, Stop<ShapeError>>
    ensures number { Answers (λ z. z) result (within_field name.now whole_of path.now (view node.now)) }
    ensures fits { IfOk result (λ z. is_signed z ≡ true) }
{
    let at = path.name(name)?;
    whole(alloc, field(alloc, node, path, name)?, &at)
}

/// The second name of a field where the object has it and lacks the first, and else the first.
pub(crate) fn name_in<'a>(first: &'a str, second: &'a str, node: &Value) -> &'a str
    ensures { result.now ≡ name_in first.now second.now (view node.now) }
{
    if node.get(first).is_none() && node.get(second).is_some() {
        second
    } else {
        first
    }
}
