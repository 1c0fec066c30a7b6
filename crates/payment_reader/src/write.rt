ghost use Rattle.std.specs.Prelude.{◌≡◌, ◌<◌, Some, None, Ok, IfOk, OnOk, option_map, length, slice_get, true};
ghost use Rattle.serde_json.specs.View.{view, members_view};
ghost use Rattle.serde_json.specs.Data.{string, put};
ghost use Rattle.key_table.specs.Slots.{at};
ghost use Rattle.key_table.specs.Tables.{name_at, variants_at, datum_fits};
ghost use Rattle.key_table.specs.Payments.{AreAscending, under, is_legal};
ghost use Rattle.payment_reader.specs.Reading.{payment_of};
ghost use Rattle.payment_reader.specs.WellMade.{HasBits, HasBitsAt, IsWellMade};
ghost use Rattle.payment_reader.specs.Written.{datum_data, text_added, texts_of, object_of, data_at, with_field, payment_data, payment_text, HasFewSubs};

use key_table::{Datum, KeyTable, Kind, NoMemory, Payment, Slot, Text};
use serde_json::{Map, Value, put};
use std::alloc::Global;

/// The payment as a JSON object (RFC 8259) with no space, whose names are the names of the keys that have something, in
/// ascending order of their bytes. A variant stands as its name, a number in decimal, and a text as a string. A metadata key
/// has the object of its texts by sub name, in ascending order of their bytes, where it has at least one.
pub fn write_payment(alloc: Global, table: &KeyTable, payment: &Payment) -> Result<Text, NoMemory>
    requires { is_legal table.now payment.now ≡ true }
    ensures text { IfOk result (λ t. t ≡ payment_text table.now payment.now) }
    ensures reads_back { IfOk result (λ t. HasFewSubs payment.now → payment_of table.now t ≡ Ok payment.now) }
{
    let value = payment_value(alloc, table, payment)?;
    Ok(Text::from(value.to_string(alloc)?))
}

fn payment_value(alloc: Global, table: &KeyTable, payment: &Payment) -> Result<Value, NoMemory>
    requires { is_legal table.now payment.now ≡ true }
    ensures value { IfOk result (λ v. view v ≡ payment_data table.now payment.now) }
    ensures well_made { OnOk result (IsWellMade table.now payment.now) }
{
    let keys = table.count();
    let mut fields = Map::new(alloc);
    if payment.count() == 0 {
        return Ok(Value::Object(fields));
    }
    for key in 0..keys {
        add_field(alloc, &mut fields, table, payment, key)?;
    }
    Ok(Value::Object(fields))
}

// Adds what stands under a key.
fn add_field(
    alloc: Global,
    fields: &mut Map<String, Value>,
    table: &KeyTable,
    payment: &Payment,
    key: u32,
) -> Result<(), NoMemory>
    requires ascending { AreAscending payment.now }
    requires legal { is_legal table.now payment.now ≡ true }
    requires within { key < length table.now }
    ensures fields { OnOk result (members_view fields.new.entries ≡ with_field (name_at key table.now) (data_at key table.now payment.now) (members_view fields.old.entries)) }
    ensures bits { OnOk result (HasBitsAt key table.now payment.now) }
{
    if let Some(value) = key_value(alloc, table, payment, key)? {
        put(fields, alloc, table.name_as_str(key), value)?;
    }
    Ok(())
}

// What is written for a key, where it has something.
fn key_value(
    alloc: Global,
    table: &KeyTable,
    payment: &Payment,
    key: u32,
) -> Result<Option<Value>, NoMemory>
    requires ascending { AreAscending payment.now }
    requires legal { is_legal table.now payment.now ≡ true }
    requires within { key < length table.now }
    ensures value { IfOk result (λ o. option_map view o ≡ data_at key table.now payment.now) }
    ensures bits { OnOk result (HasBitsAt key table.now payment.now) }
{
    if table.kind_of(key) == Kind::Metadata {
        return texts_value(alloc, payment, key);
    }
    match payment.value_at(key, None) {
        Some(datum) => Ok(Some(datum_value(alloc, table, key, datum)?)),
        None => Ok(None),
    }
}

// The value of an entry with no sub name.
fn datum_value(alloc: Global, table: &KeyTable, key: u32, datum: &Datum) -> Result<Value, NoMemory>
    requires { datum_fits table.now (at key None) datum.now ≡ true }
    ensures value { IfOk result (λ v. view v ≡ datum_data (variants_at key table.now) datum.now) }
    ensures bits { OnOk result (HasBits (Some datum.now)) }
{
    match datum {
        Datum::Variant(variant) => string(alloc, table.variant_as_str(key, *variant)),
        Datum::Number(number) => Ok(Value::from(*number)),
        Datum::Text(text) => string(alloc, text.as_str()),
    }
}

fn string(alloc: Global, text: &str) -> Result<Value, NoMemory>
    ensures { IfOk result (λ v. view v ≡ string text.now) }
{
    Ok(Value::String(String::from_str(alloc, text)?))
}

// The object of the texts under a key, where there are some.
fn texts_value(alloc: Global, payment: &Payment, key: u32) -> Result<Option<Value>, NoMemory>
    requires { AreAscending payment.now }
    ensures { IfOk result (λ o. option_map view o ≡ object_of (texts_of (under key payment.now))) }
{
    let texts = texts(alloc, payment, key)?;
    if texts.is_empty() {
        return Ok(None);
    }
    Ok(Some(Value::Object(texts)))
}

// The texts under a key by sub name.
fn texts(alloc: Global, payment: &Payment, key: u32) -> Result<Map<String, Value>, NoMemory>
    requires { AreAscending payment.now }
    ensures { IfOk result (λ m. members_view m.entries ≡ texts_of (under key payment.now)) }
{
    let mut texts = Map::new(alloc);
    for (slot, datum) in payment.under(key) {
        add_text(alloc, &mut texts, slot, datum)?;
    }
    Ok(texts)
}

// Adds the text of an entry, where it stands under a sub name.
fn add_text(
    alloc: Global,
    texts: &mut Map<String, Value>,
    slot: &Slot,
    datum: &Datum,
) -> Result<(), NoMemory>
    ensures { OnOk result (members_view texts.new.entries ≡ text_added put slot.now.sub datum.now (members_view texts.old.entries)) }
{
    match (&slot.sub, datum) {
        (Some(sub), Datum::Text(text)) => {
            put(texts, alloc, sub.as_str(), string(alloc, text.as_str())?)?;
            Ok(())
        }
        _ => Ok(()),
    }
}
