ghost use Rattle.std.specs.Prelude.{◌≡◌, None};
ghost use Rattle.serde_json.specs.View.{view};
ghost use Rattle.key_table.specs.Answers.{Answers};
ghost use Rattle.key_table.specs.Slots.{at};
ghost use Rattle.json_shape.specs.Paths.{fault};
ghost use Rattle.payment_reader.specs.Reading.{fitting_put, variant_put, number_put, text_put, value_put, kind_named, field_put};

use crate::error::{OUT_OF_BOUNDS, TEXT_LONG, UNKNOWN_KEY, UNKNOWN_VARIANT, WRONG_SHAPE};
use crate::metadata::put_texts;
use json_shape::{Path, ShapeError, whole};
use key_table::{Datum, KeyTable, Kind, Payment, Slot, Stop, Text};
use serde_json::Value;
use std::alloc::Global;

/// Puts what a field of the object at the root says.
pub(crate) fn put_field(
    alloc: Global,
    payment: &mut Payment,
    table: &KeyTable,
    name: &str,
    value: &Value,
) -> Result<(), Stop<ShapeError>>
    ensures { Answers (λ u. payment.new) result (field_put table.now name.now (view value.now) payment.old) }
{
    let root = Path::root(alloc);
    let path = root.name(name)?;
    let Some((key, kind)) = key_named(table, name) else {
        return Err(path.stop(UNKNOWN_KEY));
    };
    if value.is_null() {
        return Ok(());
    }
    put_value(alloc, payment, table, key, kind, &path, value)
}

// The number and the kind of the key with a name.
fn key_named(table: &KeyTable, name: &str) -> Option<(u32, Kind)>
    ensures { result ≡ kind_named name.now table.now }
{
    let key = table.find(name.as_bytes())?;
    Some((key, table.kind_of(key)))
}

// Puts what the value of a key says.
fn put_value(
    alloc: Global,
    payment: &mut Payment,
    table: &KeyTable,
    key: u32,
    kind: Kind,
    path: &Path,
    value: &Value,
) -> Result<(), Stop<ShapeError>>
    ensures { Answers (λ u. payment.new) result (value_put table.now key kind path.now (view value.now) payment.old) }
{
    match kind {
        Kind::Enum => put_variant(payment, table, key, path, value),
        Kind::Number => put_number(alloc, payment, table, key, path, value),
        Kind::Text => put_text(alloc, payment, table, Slot { key, sub: None }, path, value),
        Kind::Metadata => put_texts(alloc, payment, table, key, path, value),
    }
}

// Puts the variant that the string at a path names.
fn put_variant(
    payment: &mut Payment,
    table: &KeyTable,
    key: u32,
    path: &Path,
    value: &Value,
) -> Result<(), Stop<ShapeError>>
    ensures { Answers (λ u. payment.new) result (variant_put table.now key path.now (view value.now) payment.old) }
{
    let Some(word) = value.as_str() else {
        return Err(path.stop(WRONG_SHAPE));
    };
    let Some(variant) = table.variant(key, word.as_bytes()) else {
        return Err(path.stop(UNKNOWN_VARIANT));
    };
    payment.put(Slot { key, sub: None }, Datum::Variant(variant))?;
    Ok(())
}

// Puts the whole number at a path, within the bounds of its key.
fn put_number(
    alloc: Global,
    payment: &mut Payment,
    table: &KeyTable,
    key: u32,
    path: &Path,
    value: &Value,
) -> Result<(), Stop<ShapeError>>
    ensures { Answers (λ u. payment.new) result (number_put table.now key path.now (view value.now) payment.old) }
{
    let number = whole(alloc, value, path)?;
    let slot = Slot { key, sub: None };
    put_fitting(
        payment,
        table,
        slot,
        Datum::Number(number),
        path,
        OUT_OF_BOUNDS,
    )
}

/// Puts the string at a path as the text of a slot, of at most as many bytes as a text may have.
pub(crate) fn put_text(
    alloc: Global,
    payment: &mut Payment,
    table: &KeyTable,
    slot: Slot,
    path: &Path,
    value: &Value,
) -> Result<(), Stop<ShapeError>>
    ensures { Answers (λ u. payment.new) result (text_put table.now slot path.now (view value.now) payment.old) }
{
    let Some(text) = value.as_str() else {
        return Err(path.stop(WRONG_SHAPE));
    };
    let text = Text::from_str(alloc, text)?;
    put_fitting(payment, table, slot, Datum::Text(text), path, TEXT_LONG)
}

// Puts a value at a slot where it fits, and else gives the fault with a code at a path.
fn put_fitting(
    payment: &mut Payment,
    table: &KeyTable,
    slot: Slot,
    datum: Datum,
    path: &Path,
    code: u8,
) -> Result<(), Stop<ShapeError>>
    ensures { Answers (λ u. payment.new) result (fitting_put table.now (fault code path.now) slot datum payment.old) }
{
    if !table.datum_fits(&slot, &datum) {
        return Err(path.stop(code));
    }
    payment.put(slot, datum)?;
    Ok(())
}
