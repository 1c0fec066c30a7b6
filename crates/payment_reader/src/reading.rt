ghost use Rattle.std.specs.Prelude.{◌≡◌, [], IfOk, true};
ghost use Rattle.serde_json.specs.View.{view, members_view};
ghost use Rattle.key_table.specs.Answers.{Answers};
ghost use Rattle.key_table.specs.Payments.{is_legal};
ghost use Rattle.payment_reader.specs.Reading.{fields_put, payment_in, payment_or_fault, payment_of};

use crate::PaymentError;
use crate::error::WRONG_SHAPE;
use crate::field::put_field;
use json_shape::{Path, ShapeError, read};
use key_table::{KeyTable, Payment, Stop};
use serde_json::{Map, Value};
use std::alloc::Global;

/// The payment that the bytes of a file are: a JSON object (RFC 8259) whose names are names of keys. An enum key has a
/// string that names a variant, a number key a whole number within its bounds, a text key a string, and a metadata key an
/// object of strings by sub name. Where a value is null, the slot isn't there. Where an object has equal names, the last of
/// them stands.
///
/// The fault is the first one. At the empty path stand NotJson exactly where the bytes are no JSON (they are not UTF-8, or
/// nest more than 127 deep, too), and WrongShape exactly where they are no object. Names are visited in ascending order of
/// their bytes, and a fault stands at the name's path, a JSON Pointer (RFC 6901):
///
/// - UnknownKey exactly where no key has the name. The faults below are those of a value that is not null.
/// - WrongShape exactly where the value is no string under an enum or a text key, no number under a number key, or no
///   object under a metadata key.
/// - NotWhole exactly where the number is past -9223372036854775808 to 9223372036854775807, or is written with a fraction,
///   with an exponent or as `-0`.
/// - UnknownVariant exactly where no variant of the key has the string, byte by byte, and OutOfBounds exactly where the
///   number lies outside the key's bounds.
/// - TextLong exactly where a text has more than 1,024 bytes of UTF-8.
/// - Limit exactly where the object of a metadata key has more than 4,096 names. Then each of these names in turn, at its
///   own path, has TextLong exactly where it has more than 255 bytes and, unless its value is null, WrongShape exactly
///   where the value is no string, and TextLong exactly where the string has more than 1,024 bytes.
#[tactic(auto, using(crate::proofs::Legal::read_is_legal))]
pub fn read_payment(
    alloc: Global,
    table: &KeyTable,
    bytes: &[u8],
) -> Result<Payment, Stop<PaymentError>>
    ensures payment { Answers (λ p. p) result (payment_of table.now bytes.now) }
    ensures legal { IfOk result (λ p. is_legal table.now p ≡ true) }
{
    match payment_from(alloc, table, bytes) {
        Ok(payment) => Ok(payment),
        Err(Stop::Memory) => Err(Stop::Memory),
        Err(Stop::Fault(error)) => Err(Stop::Fault(PaymentError {
            code: error.code,
            path: error.path,
        })),
    }
}

fn payment_from(alloc: Global, table: &KeyTable, bytes: &[u8]) -> Result<Payment, Stop<ShapeError>>
    ensures { Answers (λ p. p) result (payment_or_fault table.now bytes.now) }
{
    let node = read(alloc, bytes)?;
    payment(alloc, table, &node)
}

fn payment(alloc: Global, table: &KeyTable, node: &Value) -> Result<Payment, Stop<ShapeError>>
    ensures { Answers (λ p. p) result (payment_in table.now (view node.now)) }
{
    match node.as_object() {
        Some(members) => payment_of_members(alloc, table, members),
        None => Err(Path::root(alloc).stop(WRONG_SHAPE)),
    }
}

fn payment_of_members(
    alloc: Global,
    table: &KeyTable,
    members: &Map<String, Value>,
) -> Result<Payment, Stop<ShapeError>>
    ensures { Answers (λ p. p) result (fields_put table.now (members_view members.now.entries) []) }
{
    let mut payment = Payment::empty(alloc);
    for (name, value) in members {
        put_field(alloc, &mut payment, table, name.as_str(), value)?;
    }
    Ok(payment)
}
