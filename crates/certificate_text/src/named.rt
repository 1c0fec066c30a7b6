ghost use Rattle.std.specs.Prelude.{◌≡◌, option_map, take, drop};
ghost use Rattle.certificate_text.specs.Spelled.{word_of, bytes_of};
ghost use Rattle.certificate_text.specs.Views.{unhex, test_view, sub_view, is_hex_test, is_hex_sub};
ghost use Rattle.certificate_text.specs.Forms.{is_hex};
ghost use Rattle.std.specs.Option.{option_map_or};
ghost use Rattle.std.specs.Prelude.{true};
ghost use Rattle.certificate_text.specs.Named.{variant, text, after, op_of, number_test_of, test_of, sub_of, quantifier_of, head_of};

use crate::spelling::{is_hex, signed};
use key_table::{Op, is_word};

/// A test as a field spells it: the name of a variant, the hexadecimal of a text, or a relation and a number.
#[derive(Clone, Copy)]
pub(crate) enum NamedTest<'a> {
    Variant(&'a [u8]),
    Text(&'a [u8]),
    Number(Op, i64),
}

/// What a line says of an atom before its tests: the name of its key, the hexadecimal of its sub name, and whether none
/// of its tests is to be true.
#[derive(Clone, Copy)]
pub(crate) struct Head<'a> {
    pub(crate) key: &'a [u8],
    pub(crate) sub: Option<&'a [u8]>,
    pub(crate) none_of: bool,
}

/// What follows the label, where the field begins with it.
pub(crate) fn after<'a>(field: &'a [u8], label: &[u8]) -> Option<&'a [u8]>
    ensures { option_map (λ rest. rest.now) result ≡ after label.now field.now }
{
    field.strip_prefix(label)
}

fn op(label: &[u8]) -> Option<Op>
    ensures { result ≡ op_of label.now }
{
    if label == b"eq:".as_slice() {
        Some(Op::Equal)
    } else if label == b"ne:".as_slice() {
        Some(Op::NotEqual)
    } else if label == b"lt:".as_slice() {
        Some(Op::Less)
    } else if label == b"le:".as_slice() {
        Some(Op::LessEqual)
    } else if label == b"gt:".as_slice() {
        Some(Op::Greater)
    } else if label == b"ge:".as_slice() {
        Some(Op::GreaterEqual)
    } else {
        None
    }
}

// The label, of three bytes, and the rest of a field.
fn split_label(field: &[u8]) -> (&[u8], &[u8])
    ensures label { result.0.now ≡ take 3 field.now }
    ensures rest { result.1.now ≡ drop 3 field.now }
{
    field.split_at(field.len().min(3))
}

impl<'a> NamedTest<'a> {
    ghost use Rattle.certificate_text.specs.Views.{test_view};

    /// The test that a field spells.
    #[tactic(auto, unfolding(crate::specs::Named::test_of))]
    pub(crate) fn of(field: &'a [u8]) -> Option<NamedTest<'a>>
        ensures test { option_map test_view result ≡ test_of field.now }
        ensures hex { option_map_or is_hex_test result true ≡ true }
    {
        if let Some(name) = after(field, b"v:") {
            return variant(name);
        }
        if let Some(digits) = after(field, b"t:") {
            return text(digits);
        }
        number(field)
    }
}

fn variant(name: &[u8]) -> Option<NamedTest<'_>>
    ensures test { option_map test_view result ≡ option_map variant (word_of name.now) }
    ensures hex { option_map_or is_hex_test result true ≡ true }
{
    if is_word(name) {
        Some(NamedTest::Variant(name))
    } else {
        None
    }
}

fn text(digits: &[u8]) -> Option<NamedTest<'_>>
    ensures test { option_map test_view result ≡ option_map text (bytes_of digits.now) }
    ensures hex { option_map_or is_hex_test result true ≡ true }
{
    let digits = hex_digits(digits)?;
    Some(NamedTest::Text(digits))
}

// The field, where it is the hexadecimal text of some bytes.
fn hex_digits(field: &[u8]) -> Option<&[u8]>
    ensures bytes { option_map (λ digits. unhex digits.now) result ≡ bytes_of field.now }
    ensures hex { option_map_or (λ digits. is_hex digits.now) result true ≡ true }
{
    if is_hex(field) { Some(field) } else { None }
}

#[tactic(auto, unfolding(crate::specs::Named::number_test_of))]
fn number(field: &[u8]) -> Option<NamedTest<'_>>
    ensures test { option_map test_view result ≡ number_test_of field.now }
    ensures hex { option_map_or is_hex_test result true ≡ true }
{
    let (label, digits) = split_label(field);
    let op = op(label)?;
    let number = signed(digits)?;
    Some(NamedTest::Number(op, number))
}

// The hexadecimal of the sub name that a field spells, where it has one.
#[tactic(auto, unfolding(crate::specs::Named::sub_of))]
fn sub(field: &[u8]) -> Option<Option<&[u8]>>
    ensures sub { option_map sub_view result ≡ sub_of field.now }
    ensures hex { option_map_or is_hex_sub result true ≡ true }
{
    if field == b"-".as_slice() {
        return Some(None);
    }
    let digits = hex_digits(after(field, b"x")?)?;
    Some(Some(digits))
}

#[tactic(auto, unfolding(crate::specs::Named::quantifier_of))]
fn none_of(field: &[u8]) -> Option<bool>
    ensures { result ≡ quantifier_of field.now }
{
    if field == b"any".as_slice() {
        Some(false)
    } else if field == b"none".as_slice() {
        Some(true)
    } else {
        None
    }
}

impl<'a> Head<'a> {
    ghost use Rattle.certificate_text.specs.Views.{head_view};
    ghost use Rattle.certificate_text.specs.declared.named.Head.{Head};

    /// What the first three fields of a line spell.
    #[tactic(auto, unfolding(crate::specs::Named::head_of))]
    pub(crate) fn of(key: &'a [u8], sub_name: &'a [u8], quantifier: &'a [u8]) -> Option<Head<'a>>
        ensures head { option_map head_view result ≡ head_of key.now sub_name.now quantifier.now }
        ensures hex { option_map_or (λ (h : Head). is_hex_sub h.sub) result true ≡ true }
    {
        if !is_word(key) {
            return None;
        }
        let sub = sub(sub_name)?;
        let none_of = none_of(quantifier)?;
        Some(Head { key, sub, none_of })
    }
}
