ghost use Rattle.serde_json.specs.View.{view, members_view};
ghost use Rattle.key_table.specs.Answers.{Answers};
ghost use Rattle.payment_reader.specs.Reading.{sub_put, subs_put, texts_put};

use crate::error::{LIMIT, TEXT_LONG, WRONG_SHAPE};
use crate::field::put_text;
use json_shape::{Path, ShapeError};
use key_table::{KeyTable, Payment, Slot, Stop, Text};
use serde_json::{Map, Value};
use std::alloc::Global;

// The most sub names of a metadata key in a file.
const MOST_SUBS: usize = 4096;

/// Puts the texts of a metadata key, which stand in the object at a path.
#[tactic(auto, using(crate::proofs::Members::too_many, crate::proofs::Members::few_enough, key_table::specs::Answers::fails_with))]
pub(crate) fn put_texts(
    alloc: Global,
    payment: &mut Payment,
    table: &KeyTable,
    key: u32,
    path: &Path,
    value: &Value,
) -> Result<(), Stop<ShapeError>>
    ensures { Answers (λ u. payment.new) result (texts_put table.now key path.now (view value.now) payment.old) }
{
    let Some(members) = value.as_object() else {
        return Err(path.stop(WRONG_SHAPE));
    };
    if members.len() > MOST_SUBS {
        return Err(path.stop(LIMIT));
    }
    put_subs(alloc, payment, table, key, path, members)
}

// Puts what each sub name in turn says.
fn put_subs(
    alloc: Global,
    payment: &mut Payment,
    table: &KeyTable,
    key: u32,
    path: &Path,
    members: &Map<String, Value>,
) -> Result<(), Stop<ShapeError>>
    ensures { Answers (λ u. payment.new) result (subs_put table.now key path.now (members_view members.now.entries) payment.old) }
{
    for (name, value) in members {
        put_sub(alloc, payment, table, key, path, name.as_str(), value)?;
    }
    Ok(())
}

// Puts what a sub name says.
fn put_sub(
    alloc: Global,
    payment: &mut Payment,
    table: &KeyTable,
    key: u32,
    path: &Path,
    name: &str,
    value: &Value,
) -> Result<(), Stop<ShapeError>>
    ensures { Answers (λ u. payment.new) result (sub_put table.now key path.now name.now (view value.now) payment.old) }
{
    let path = path.name(name)?;
    let sub = Some(Text::from_str(alloc, name)?);
    let slot = Slot { key, sub };
    if !table.slot_fits(&slot) {
        return Err(path.stop(TEXT_LONG));
    }
    if value.is_null() {
        return Ok(());
    }
    put_text(alloc, payment, table, slot, &path, value)
}
