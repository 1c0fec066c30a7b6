ghost use Rattle.std.specs.Prelude.{◌≡◌, IfSome, codes, bytes_eq, position, length, ◌==◌, ◌<◌};
ghost use Rattle.std.specs.List.{list_all};
ghost use Rattle.certificate_text.specs.Spelled.{number_of, signed_of};
ghost use Rattle.certificate_text.specs.Forms.{is_led, without_minus, is_hex, is_hex_digit};

use key_table::NoMemory;
use std::alloc::Global;
use std::str;

// Whether the bytes are `0`, or begin with a digit from 1 to 9.
fn is_led(bytes: &[u8]) -> bool
    ensures { result ≡ is_led bytes.now }
{
    match bytes {
        [] => false,
        [first, rest @ ..] => matches!(*first, b'1'..=b'9') || (*first == b'0' && rest.is_empty()),
    }
}

/// The number that a field spells.
pub(crate) fn number(field: &[u8]) -> Option<u32>
    ensures { result ≡ number_of field.now }
{
    if !is_led(field) {
        return None;
    }
    match str::from_utf8(field) {
        Ok(text) => text.parse::<u32>().ok(),
        Err(_) => None,
    }
}

fn without_minus(bytes: &[u8]) -> &[u8]
    ensures { result.now ≡ without_minus bytes.now }
{
    match bytes {
        [b'-', rest @ ..] => rest,
        _ => bytes,
    }
}

/// The signed number that a field spells.
pub(crate) fn signed(field: &[u8]) -> Option<i64>
    ensures { result ≡ signed_of field.now }
{
    if !is_led(without_minus(field)) {
        return None;
    }
    if is_minus_zero(field) {
        return None;
    }
    match str::from_utf8(field) {
        Ok(text) => text.parse::<i64>().ok(),
        Err(_) => None,
    }
}

fn is_minus_zero(field: &[u8]) -> bool
    ensures { result ≡ bytes_eq field.now (codes "-0") }
{
    field == b"-0".as_slice()
}

/// Whether the field is the hexadecimal text of some bytes, in lower case.
pub(crate) fn is_hex(field: &[u8]) -> bool
    ensures { result ≡ is_hex field.now }
{
    field.len() % 2 == 0 && are_hex_digits(field)
}

fn are_hex_digits(bytes: &[u8]) -> bool
    ensures { result ≡ list_all is_hex_digit bytes.now }
{
    bytes.iter().all(|digit| is_hex_digit(*digit))
}

fn is_hex_digit(digit: u8) -> bool
    ensures { result ≡ is_hex_digit digit }
{
    matches!(digit, b'0'..=b'9' | b'a'..=b'f')
}

/// The first place of a byte.
pub(crate) fn place_of(bytes: &[u8], byte: u8) -> Option<usize>
    ensures place { result ≡ position (λ b. b == byte) bytes.now }
    ensures within { IfSome result (λ at. at < length bytes.now) }
{
    bytes.iter().position(|b| *b == byte)
}
