ghost use Rattle.std.specs.Prelude.{◌≡◌, ◌+◌, ◌<◌, ◌≤◌, ◌∷◌, ◌++◌, [], suc, List, ℕ, length, IfOk, OnOk, codes, bytes_eq, is_some};
ghost use Rattle.key_table.specs.Answers.{Answers};
ghost use Rattle.std.specs.List.{list_all};
ghost use Rattle.key_table.specs.Atoms.{atom_fits};
ghost use Rattle.key_table.specs.Tables.{Table};
ghost use Rattle.key_table.specs.declared.atom.Atom.{Atom};
ghost use Rattle.rule_problem.specs.declared.certificate.Item.{Item};
ghost use Rattle.certificate_text.specs.Items.{item_of};
ghost use Rattle.certificate_text.specs.Limits.{IsWithinLimits};
ghost use Rattle.certificate_text.specs.Reading.{first_of, count_of, item_in, opening, counting, naming, proving, closed, certificate_of};
ghost use Rattle.certificate_text.specs.Walks.{Goes, GoesOn, after_item, from};
ghost use Rattle.certificate_text.specs.Spelled.{number_of};
ghost use Rattle.certificate_text.specs.Named.{after};
ghost use Rattle.std.specs.Prelude.{option_and_then, true};

use crate::CertError;
use crate::atoms::atom;
use crate::error::{BAD_LINE, LIMIT, PARTIAL, TRAILING};
use crate::lines::Lines;
use crate::named::after;
use crate::spelling::number;
use key_table::{Atom, KeyTable, Seq, Stop};
use rule_problem::{Certificate, Item};
use std::alloc::Global;

// The most atoms of a certificate.
const MOST_ATOMS: u32 = 65536;

// The most items of a certificate.
const MOST_ITEMS: usize = 131073;

/// The certificate that a file is, or the first fault, line by line. On a line the order is Unended, Partial, BadLine, Limit,
/// BadAtom, and bytes after the line `end` are Trailing on the next line. The limits are 65,536 atoms and 131,073 items, and
/// for an atom 4,096 tests and 255 bytes in a sub name or text. Each certificate has one spelling.
pub fn read_certificate(
    alloc: Global,
    table: &KeyTable,
    bytes: &[u8],
) -> Result<Certificate, Stop<CertError>>
    ensures value { Answers (λ c. c) result (certificate_of table.now bytes.now) }
    ensures fits { IfOk result (λ c. list_all (atom_fits table.now) c.atoms ≡ true) }
    ensures limits { IfOk result (λ c. IsWithinLimits c) }
{
    let mut lines = Lines {
        rest: bytes,
        read: 0,
    };
    let count = read_front(&mut lines)?;
    let atoms = read_atoms(alloc, table, &mut lines, count)?;
    let items = read_items(alloc, &mut lines)?;
    if lines.is_read() {
        Ok(Certificate { atoms, items })
    } else {
        Err(Stop::Fault(CertError {
            line: lines.read + 1,
            code: TRAILING,
        }))
    }
}

// Reads the first two lines, and gives the number of atoms.
fn read_front(lines: &mut Lines) -> Result<u32, CertError>
    requires { lines.old.read ≡ 0 }
    ensures goes { (table : Table) → GoesOn result (from table opening lines.old.read lines.old.rest.now) (λ n. from table (naming n []) lines.new.read lines.new.rest.now) }
    ensures read { OnOk result (lines.new.read ≡ 2) }
    ensures few { IfOk result (λ n. n ≤ 65536) }
{
    read_first(lines)?;
    read_count(lines)
}

// Reads the first line.
fn read_first(lines: &mut Lines) -> Result<(), CertError>
    requires { lines.old.read ≡ 0 }
    ensures goes { (table : Table) → GoesOn result (from table opening lines.old.read lines.old.rest.now) (λ u. from table counting lines.new.read lines.new.rest.now) }
    ensures read { OnOk result (lines.new.read ≡ 1) }
{
    let line = lines.next()?;
    match first(line) {
        Ok(()) => Ok(()),
        Err(code) => Err(lines.fault(code)),
    }
}

fn first(line: &[u8]) -> Result<(), u8>
    ensures { result ≡ first_of line.now }
{
    if line == b"euclid trace 1".as_slice() {
        Err(PARTIAL)
    } else if line == b"euclid certificate 1".as_slice() {
        Ok(())
    } else {
        Err(BAD_LINE)
    }
}

// Reads the number of atoms.
fn read_count(lines: &mut Lines) -> Result<u32, CertError>
    requires { lines.old.read ≡ 1 }
    ensures goes { (table : Table) → GoesOn result (from table counting lines.old.read lines.old.rest.now) (λ n. from table (naming n []) lines.new.read lines.new.rest.now) }
    ensures read { OnOk result (lines.new.read ≡ 2) }
    ensures few { IfOk result (λ n. n ≤ 65536) }
{
    let line = lines.next()?;
    match count(line) {
        Ok(count) => Ok(count),
        Err(code) => Err(lines.fault(code)),
    }
}

#[tactic(auto, unfolding(crate::specs::Reading::count_of))]
fn count(line: &[u8]) -> Result<u32, u8>
    ensures count { result ≡ count_of line.now }
    ensures few { IfOk result (λ n. n ≤ 65536) }
{
    match count_spelled(line) {
        Some(count) if count <= MOST_ATOMS => Ok(count),
        Some(_) => Err(LIMIT),
        None => Err(BAD_LINE),
    }
}

fn count_spelled(line: &[u8]) -> Option<u32>
    ensures { result ≡ option_and_then number_of (after (codes "atoms ") line.now) }
{
    number(after(line, b"atoms ")?)
}

// Reads the atom lines.
fn read_atoms(
    alloc: Global,
    table: &KeyTable,
    lines: &mut Lines,
    count: u32,
) -> Result<Seq<Atom>, Stop<CertError>>
    requires few { count ≤ 65536 }
    requires second { lines.old.read ≡ 2 }
    ensures goes { Goes result (from table.now (naming count []) lines.old.read lines.old.rest.now) (λ atoms. from table.now (naming 0 atoms) lines.new.read lines.new.rest.now) }
    ensures read { OnOk result (lines.new.read ≡ 2 + count) }
{
    let mut atoms = Seq::new(alloc);
    for _ in 0..count {
        let atom = read_atom(alloc, table, lines)?;
        atoms.push(atom)?;
    }
    Ok(atoms)
}

fn read_atom(alloc: Global, table: &KeyTable, lines: &mut Lines) -> Result<Atom, Stop<CertError>>
    requires { lines.old.read < 4294967295 }
    ensures goes { (n : ℕ) (atoms : List Atom) → Goes result (from table.now (naming (suc n) atoms) lines.old.read lines.old.rest.now) (λ atom. from table.now (naming n (atoms ++ atom ∷ [])) lines.new.read lines.new.rest.now) }
    ensures read { OnOk result (lines.new.read ≡ lines.old.read + 1) }
{
    let line = lines.next()?;
    match atom(alloc, table, line) {
        Ok(atom) => Ok(atom),
        Err(Stop::Fault(code)) => Err(Stop::Fault(lines.fault(code))),
        Err(Stop::Memory) => Err(Stop::Memory),
    }
}

// Reads the item lines up to the line `end`, which is read too.
fn read_items(alloc: Global, lines: &mut Lines) -> Result<Seq<Item>, Stop<CertError>>
    requires { lines.old.read ≤ 65538 }
    ensures goes { (table : Table) (atoms : List Atom) → Goes result (from table (naming 0 atoms) lines.old.read lines.old.rest.now) (λ items. from table (closed (record { atoms = atoms; items = items })) lines.new.read lines.new.rest.now) }
    ensures read { OnOk result (lines.new.read < 4294967295) }
{
    let mut items = Seq::new(alloc);
    while let Some(item) = read_item(lines, items.as_slice().len())? {
        items.push(item)?;
    }
    Ok(items)
}

// Reads an item after so many, or the line `end`.
fn read_item(lines: &mut Lines, count: usize) -> Result<Option<Item>, CertError>
    requires { lines.old.read < 4294967295 }
    ensures goes { (table : Table) (atoms : List Atom) (items : List Item) → length items ≡ count → GoesOn result (from table (proving atoms items) lines.old.read lines.old.rest.now) (λ item. from table (after_item atoms items item) lines.new.read lines.new.rest.now) }
    ensures read { OnOk result (lines.new.read ≡ lines.old.read + 1) }
    ensures few { IfOk result (λ item. is_some item ≡ true → count < 131073) }
    ensures shorter { OnOk result (length lines.new.rest.now < length lines.old.rest.now) }
{
    let line = lines.next()?;
    if is_end(line) {
        return Ok(None);
    }
    match item(line, count) {
        Ok(item) => Ok(Some(item)),
        Err(code) => Err(lines.fault(code)),
    }
}

fn is_end(line: &[u8]) -> bool
    ensures { result ≡ bytes_eq line.now (codes "end") }
{
    line == b"end".as_slice()
}

fn item(line: &[u8], count: usize) -> Result<Item, u8>
    ensures item { result ≡ item_in count line.now }
    ensures few { OnOk result (count < 131073) }
{
    match item_on(line) {
        Some(item) if count < MOST_ITEMS => Ok(item),
        Some(_) => Err(LIMIT),
        None => Err(BAD_LINE),
    }
}

#[tactic(auto, unfolding(crate::specs::Items::item_of))]
fn item_on(line: &[u8]) -> Option<Item>
    ensures { result ≡ item_of line.now }
{
    if line == b"goal".as_slice() {
        return Some(Item::Goal);
    }
    if let Some(atom) = after(line, b"split ") {
        return Some(Item::Split(number(atom)?));
    }
    if let Some(atom) = after(line, b"void ") {
        return Some(Item::Void(number(atom)?));
    }
    if let Some(want) = after(line, b"want ") {
        return Some(Item::Want(number(want)?));
    }
    if let Some(bar) = after(line, b"bar ") {
        return Some(Item::Bar(number(bar)?));
    }
    None
}
