ghost use Rattle.std.specs.Prelude.{◌≡◌, ◌≤◌, map, option_map, length, true, IfOk};
ghost use Rattle.serde_json.specs.View.{view};
ghost use Rattle.key_table.specs.Answers.{Answers};
ghost use Rattle.key_table.specs.Integers.{is_signed};
ghost use Rattle.json_shape.specs.Shapes.{field_of, optional_of, short_text_of, whole_of, list_of};

use crate::error::{LIMIT, MISSING, NOT_WHOLE, WRONG_SHAPE};
use crate::{Path, ShapeError};
use key_table::{Stop, Text};
use serde_json::Value;
use std::alloc::Global;

/// The field with a name, of the object at the path. WrongShape at the path exactly where no object stands there. Missing at
/// the field's path exactly where the object has no field with the name.
pub fn field<'a>(
    _alloc: Global,
    node: &'a Value,
    path: &Path,
    name: &str,
) -> Result<&'a Value, Stop<ShapeError>>
    ensures { Answers (λ v. view v.now) result (field_of path.now name.now (view node.now)) }
{
    if !node.is_object() {
        return Err(path.stop(WRONG_SHAPE));
    }
    match node.get(name) {
        Some(value) => Ok(value),
        None => Err(path.name(name)?.stop(MISSING)),
    }
}

/// The field with a name, of the object at the path, and none exactly where it is missing or null. WrongShape at the path
/// exactly where no object stands there.
pub fn optional<'a>(
    _alloc: Global,
    node: &'a Value,
    path: &Path,
    name: &str,
) -> Result<Option<&'a Value>, Stop<ShapeError>>
    ensures { Answers (λ o. option_map (λ v. view v.now) o) result (optional_of path.now name.now (view node.now)) }
{
    if !node.is_object() {
        return Err(path.stop(WRONG_SHAPE));
    }
    let found = node.get(name);
    match found {
        Some(value) if value.is_null() => Ok(None),
        _ => Ok(found),
    }
}

/// The string at the path, of at most so many bytes of UTF-8. WrongShape exactly where no string stands there, and Limit
/// exactly where it has more bytes.
pub fn text_up_to(
    alloc: Global,
    node: &Value,
    path: &Path,
    most: usize,
) -> Result<Text, Stop<ShapeError>>
    ensures text { Answers (λ t. t) result (short_text_of path.now most (view node.now)) }
    ensures within { IfOk result (λ t. length t ≤ most) }
{
    let Some(text) = node.as_str() else {
        return Err(path.stop(WRONG_SHAPE));
    };
    if text.len() > most {
        return Err(path.stop(LIMIT));
    }
    Ok(Text::from_str(alloc, text)?)
}

/// The whole number at the path, from -9223372036854775808 to 9223372036854775807. WrongShape exactly where no number stands
/// there. NotWhole exactly where the number is past these bounds, or is written with a fraction, with an exponent or as `-0`
/// (RFC 8259, section 6).
pub fn whole(_alloc: Global, node: &Value, path: &Path) -> Result<i64, Stop<ShapeError>>
    ensures number { Answers (λ z. z) result (whole_of path.now (view node.now)) }
    ensures signed { IfOk result (λ z. is_signed z ≡ true) }
{
    if !node.is_number() {
        return Err(path.stop(WRONG_SHAPE));
    }
    match node.as_i64() {
        Some(number) => Ok(number),
        None => Err(path.stop(NOT_WHOLE)),
    }
}

/// The items of the array at the path, of which there are at most so many. WrongShape exactly where no array stands there,
/// and Limit exactly where it has more items.
#[tactic(auto, using(crate::proofs::Lists::list_of_long, crate::proofs::Lists::list_of_fits, key_table::specs::Answers::fails_with))]
pub fn list_up_to<'a>(
    _alloc: Global,
    node: &'a Value,
    path: &Path,
    most: usize,
) -> Result<&'a [Value], Stop<ShapeError>>
    ensures list { Answers (λ vs. map view vs.now) result (list_of path.now most (view node.now)) }
    ensures within { IfOk result (λ vs. length vs.now ≤ most) }
{
    let Some(items) = node.as_array() else {
        return Err(path.stop(WRONG_SHAPE));
    };
    if items.len() > most {
        return Err(path.stop(LIMIT));
    }
    Ok(items.as_slice())
}
