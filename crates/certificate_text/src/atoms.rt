ghost use Rattle.std.specs.Prelude.{◌≡◌, length, nat_le, None, MatchOption, IfOk, true};
ghost use Rattle.std.specs.List.{list_all};
ghost use Rattle.key_table.specs.Answers.{Answers, or_fault};
ghost use Rattle.certificate_text.specs.Named.{atom_of, sub_within, each};
ghost use Rattle.certificate_text.specs.Numbered.{utf8, fitting, sub_numbered};
ghost use Rattle.certificate_text.specs.Reading.{atom_in};
ghost use Rattle.certificate_text.specs.Forms.{fields_of, is_hex};
ghost use Rattle.certificate_text.specs.Views.{unhex, sub_view, head_view, is_test, field_within, field_numbered, is_hex_sub, line_view, fields_within, numbered_in, fault_code};
ghost use Rattle.hex.specs.declared.error.FromHexError.TheVariants as hex_error;

use crate::error::{BAD_ATOM, BAD_LINE, LIMIT};
use crate::fields::Fields;
use crate::named::{Head, NamedTest};
use hex::FromHexError;
use key_table::{Atom, KeyTable, NoMemory, Seq, Slot, Stop, Test, Text};
use std::alloc::Global;

// The most bytes of a sub name and of a text.
const MOST_BYTES: usize = 255;

// The most tests of an atom.
const MOST_TESTS: usize = 4096;

/// The atom that a line is, or the code of the line's fault: that of its form, then of the limits, then of what the table
/// has. The tests of a line that is an atom are read once.
#[tactic(auto, using(crate::proofs::AtomLaws::known, crate::proofs::AtomLaws::unknown), unfolding(crate::specs::Reading::atom_in))]
pub(crate) fn atom(alloc: Global, table: &KeyTable, line: &[u8]) -> Result<Atom, Stop<u8>>
    ensures { Answers (λ a. a) result (atom_in table.now line.now) }
{
    let Some((head, tests)) = parts(line) else {
        return Err(Stop::Fault(BAD_LINE));
    };
    match numbered(alloc, table, head, tests) {
        Ok(atom) => Ok(atom),
        Err(Stop::Fault(_)) => Err(Stop::Fault(fault(head, tests))),
        Err(Stop::Memory) => Err(Stop::Memory),
    }
}

// What the fields before the tests spell, and the fields of the tests.
#[tactic(auto, unfolding(crate::specs::Named::atom_of))]
fn parts(line: &[u8]) -> Option<(Head<'_>, Fields<'_>)>
    ensures parts { MatchOption result (atom_of line.now ≡ None) (λ p. atom_of line.now ≡ line_view (head_view p.0) (fields_of p.1.rest)) }
    ensures hex { MatchOption result (Unit {0}) (λ p. is_hex_sub p.0.sub ≡ true) }
{
    let mut fields = Fields::of(line);
    let key = fields.next()?;
    let sub = fields.next()?;
    let quantifier = fields.next()?;
    let head = Head::of(key, sub, quantifier)?;
    Some((head, fields))
}

// The code of the fault of a line that is no atom.
fn fault(head: Head, tests: Fields) -> u8
    requires { is_hex_sub head.sub ≡ true }
    ensures { result ≡ fault_code (head_view head.entry) (fields_of tests.entry.rest) }
{
    if !are_tests(tests) {
        BAD_LINE
    } else if !are_within(head, tests) {
        LIMIT
    } else {
        BAD_ATOM
    }
}

fn are_tests(tests: Fields) -> bool
    ensures { result ≡ list_all is_test (fields_of tests.entry.rest) }
{
    let mut fields = tests;
    while let Some(field) = fields.next() {
        if NamedTest::of(field).is_none() {
            return false;
        }
    }
    true
}

fn are_within(head: Head, tests: Fields) -> bool
    requires { is_hex_sub head.sub ≡ true }
    ensures { result ≡ fields_within (head_view head.entry) (fields_of tests.entry.rest) }
{
    has_few(tests) && is_sub_within(head.sub) && are_tests_within(tests)
}

fn has_few(tests: Fields) -> bool
    ensures { result ≡ nat_le (length (fields_of tests.entry.rest)) 4096 }
{
    let mut fields = tests;
    for _ in 0..MOST_TESTS {
        if fields.next().is_none() {
            return true;
        }
    }
    fields.next().is_none()
}

fn are_tests_within(tests: Fields) -> bool
    ensures { result ≡ list_all field_within (fields_of tests.entry.rest) }
{
    let mut fields = tests;
    while let Some(field) = fields.next() {
        if !is_test_within(field) {
            return false;
        }
    }
    true
}

fn is_test_within(field: &[u8]) -> bool
    ensures { result ≡ field_within field.now }
{
    match NamedTest::of(field) {
        Some(NamedTest::Text(digits)) => is_short(digits),
        Some(_) => true,
        None => false,
    }
}

fn is_sub_within(sub: Option<&[u8]>) -> bool
    requires { is_hex_sub sub ≡ true }
    ensures { result ≡ sub_within (sub_view sub.entry) }
{
    match sub {
        Some(digits) => is_short(digits),
        None => true,
    }
}

// Whether these are the digits of at most 255 bytes.
fn is_short(digits: &[u8]) -> bool
    requires { is_hex digits.now ≡ true }
    ensures { result ≡ nat_le (length (unhex digits.now)) 255 }
{
    digits.len() / 2 <= MOST_BYTES
}

// The atom with the numbers that the table has for the names.
#[tactic(auto, unfolding(crate::specs::Views::numbered_in))]
fn numbered(alloc: Global, table: &KeyTable, head: Head, tests: Fields) -> Result<Atom, Stop<u8>>
    requires { is_hex_sub head.sub ≡ true }
    ensures { Answers (λ a. a) result (numbered_in table.now (head_view head.entry) (fields_of tests.entry.rest)) }
{
    let Some(key) = table.find(head.key) else {
        return Err(Stop::Fault(BAD_ATOM));
    };
    let sub = sub_name(alloc, head.sub)?;
    let tests = numbered_tests(alloc, table, key, tests)?;
    let none_of = head.none_of;
    fitting(
        table,
        Atom {
            slot: Slot { key, sub },
            none_of,
            tests,
        },
    )
}

fn fitting(table: &KeyTable, atom: Atom) -> Result<Atom, Stop<u8>>
    ensures { Answers (λ a. a) result (or_fault 2 (fitting table.now atom)) }
{
    if table.atom_fits(&atom) {
        Ok(atom)
    } else {
        Err(Stop::Fault(BAD_ATOM))
    }
}

fn sub_name(alloc: Global, sub: Option<&[u8]>) -> Result<Option<Text>, Stop<u8>>
    requires { is_hex_sub sub ≡ true }
    ensures { Answers (λ s. s) result (or_fault 2 (sub_numbered (sub_view sub.entry))) }
{
    match sub {
        Some(digits) => Ok(Some(text(alloc, digits)?)),
        None => Ok(None),
    }
}

fn numbered_tests(
    alloc: Global,
    table: &KeyTable,
    key: u32,
    tests: Fields,
) -> Result<Seq<Test>, Stop<u8>>
    ensures { Answers (λ t. t) result (or_fault 2 (each (field_numbered table.now key) (fields_of tests.entry.rest))) }
{
    let mut numbered = Seq::new(alloc);
    let mut fields = tests;
    while let Some(field) = fields.next() {
        numbered.push(numbered_test(alloc, table, key, field)?)?;
    }
    Ok(numbered)
}

fn numbered_test(alloc: Global, table: &KeyTable, key: u32, field: &[u8]) -> Result<Test, Stop<u8>>
    ensures { Answers (λ t. t) result (or_fault 2 (field_numbered table.now key field.now)) }
{
    match NamedTest::of(field) {
        Some(NamedTest::Variant(name)) => match table.variant(key, name) {
            Some(variant) => Ok(Test::Variant(variant)),
            None => Err(Stop::Fault(BAD_ATOM)),
        },
        Some(NamedTest::Text(digits)) => Ok(Test::Text(text(alloc, digits)?)),
        Some(NamedTest::Number(op, number)) => Ok(Test::Number(op, number)),
        None => Err(Stop::Fault(BAD_ATOM)),
    }
}

// The text whose hexadecimal digits these are.
fn text(alloc: Global, digits: &[u8]) -> Result<Text, Stop<u8>>
    requires { is_hex digits.now ≡ true }
    ensures { Answers (λ t. t) result (or_fault 2 (utf8 (unhex digits.now))) }
{
    let bytes = decoded(alloc, digits)?;
    match String::from_utf8(bytes) {
        Ok(text) => Ok(Text::from(text)),
        Err(_) => Err(Stop::Fault(BAD_ATOM)),
    }
}

fn decoded(alloc: Global, digits: &[u8]) -> Result<Vec<u8>, NoMemory>
    requires { is_hex digits.now ≡ true }
    ensures { IfOk result (λ v. v.items ≡ unhex digits.now) }
{
    match hex::decode(alloc, digits) {
        Ok(bytes) => Ok(bytes),
        Err(error) => Err(no_memory(error)),
    }
}

// The one error that hexadecimal digits can meet.
fn no_memory(error: FromHexError) -> NoMemory
    requires { error ≡ hex_error.OutOfMemory }
{
    let _ = error;
    NoMemory
}
