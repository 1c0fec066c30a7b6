ghost use Rattle.std.specs.Prelude.{◌≡◌, ◌++◌, ◌∷◌, [], true, string_bytes, IfOk, OnOk, Ok, option_copied, IsUtf8};
ghost use Rattle.std.specs.List.{list_all, flat_map, AllByRecursion};
ghost use Rattle.std.specs.Fmt.{signed_decimal};
ghost use Rattle.hex.specs.Hex.{encode_lower};
ghost use Rattle.key_table.specs.Atoms.{atom_fits};
ghost use Rattle.key_table.specs.Integers.{is_signed};
ghost use Rattle.key_table.specs.Tables.{variants_at};
ghost use Rattle.certificate_text.specs.Named.{sub_text, test_text, op_label, quantifier_text};
ghost use Rattle.certificate_text.specs.Numbered.{named_test, is_named};
ghost use Rattle.certificate_text.specs.Items.{item_text};
ghost use Rattle.certificate_text.specs.Lines.{text_of_lines};
ghost use Rattle.certificate_text.specs.Texts.{atom_line, body, certificate_text, trace_text};
ghost use Rattle.certificate_text.specs.Limits.{IsWithinLimits};
ghost use Rattle.certificate_text.specs.CodeValues.{IsTest, IsSub, IsAtom, IsItem};
ghost use Rattle.certificate_text.specs.Reading.{certificate_of};

use key_table::{Atom, KeyTable, NoMemory, Op, Test, Text};
use rule_problem::{Certificate, Item, Trace};
use std::alloc::Global;

/// The text of a certificate, of which each atom fits the table. What has at most 65,536 atoms and 131,073 items, and no `Todo`
/// among them, reads back as the same.
pub fn write_certificate(
    alloc: Global,
    table: &KeyTable,
    certificate: &Certificate,
) -> Result<Text, NoMemory>
    requires { list_all (atom_fits table.now) certificate.now.atoms ≡ true }
    ensures text { IfOk result (λ t. t ≡ certificate_text table.now certificate.now) }
    ensures reads_back { IfOk result (λ t. IsWithinLimits certificate.now → certificate_of table.now t ≡ Ok certificate.now) }
{
    let _ = table.count();
    let atoms = certificate.atoms.as_slice();
    let items = certificate.items.as_slice();
    file(alloc, table, "euclid certificate 1", atoms, items)
}

/// The text of a trace, of which each atom fits the table.
pub fn write_trace(alloc: Global, table: &KeyTable, trace: &Trace) -> Result<Text, NoMemory>
    requires { list_all (atom_fits table.now) trace.now.atoms ≡ true }
    ensures { IfOk result (λ t. t ≡ trace_text table.now trace.now) }
{
    let atoms = trace.atoms.as_slice();
    let items = trace.items.as_slice();
    file(alloc, table, "euclid trace 1", atoms, items)
}

// The first line, and those of the atoms and items.
fn file(
    alloc: Global,
    table: &KeyTable,
    first: &str,
    atoms: &[Atom],
    items: &[Item],
) -> Result<Text, NoMemory>
    requires { list_all (atom_fits table.now) atoms.now ≡ true }
    ensures text { IfOk result (λ t. t ≡ text_of_lines (first.now ∷ body table.now atoms.now items.now)) }
    ensures atoms { OnOk result (AllByRecursion IsAtom atoms.now) }
    ensures items { OnOk result (AllByRecursion IsItem items.now) }
{
    let count = atoms.len();
    let mut out = String::new(alloc);
    write!(out, "{first}\natoms {count}\n")?;
    put_atoms(alloc, &mut out, table, atoms)?;
    put_items(&mut out, items)?;
    out.push_str("end\n")?;
    Ok(Text::from(out))
}

fn put_atoms(
    alloc: Global,
    out: &mut String,
    table: &KeyTable,
    atoms: &[Atom],
) -> Result<(), NoMemory>
    requires { list_all (atom_fits table.now) atoms.now ≡ true }
    ensures text { OnOk result (string_bytes out.new ≡ string_bytes out.old ++ flat_map (λ a. atom_line table.now a ++ 10 ∷ []) atoms.now) }
    ensures atoms { OnOk result (AllByRecursion IsAtom atoms.now) }
{
    for atom in atoms {
        put_atom(alloc, out, table, atom)?;
    }
    Ok(())
}

// Appends the line of an atom.
fn put_atom(alloc: Global, out: &mut String, table: &KeyTable, atom: &Atom) -> Result<(), NoMemory>
    requires { atom_fits table.now atom.now ≡ true }
    ensures text { OnOk result (string_bytes out.new ≡ string_bytes out.old ++ (atom_line table.now atom.now ++ 10 ∷ [])) }
    ensures atom { OnOk result (IsAtom atom.now) }
{
    let key = atom.slot.key;
    out.push_str(table.name_as_str(key))?;
    put_sub(alloc, out, atom.slot.sub.as_ref())?;
    out.push_str(quantifier(atom.none_of))?;
    put_tests(alloc, out, table, key, atom.tests.as_slice())?;
    out.push_str("\n")?;
    Ok(())
}

// Appends a space and the field of a sub name.
fn put_sub(alloc: Global, out: &mut String, sub: Option<&Text>) -> Result<(), NoMemory>
    ensures text { OnOk result (string_bytes out.new ≡ string_bytes out.old ++ 32 ∷ sub_text (option_copied sub.entry)) }
    ensures sub { OnOk result (IsSub (option_copied sub.entry)) }
{
    match sub {
        Some(name) => {
            out.push_str(" x")?;
            put_hex(alloc, out, name)
        }
        None => {
            out.push_str(" -")?;
            Ok(())
        }
    }
}

fn quantifier(none_of: bool) -> &'static str
    ensures { result.now ≡ 32 ∷ quantifier_text none_of }
{
    if none_of { " none" } else { " any" }
}

// Appends tests of a key, each with a space before it.
fn put_tests(
    alloc: Global,
    out: &mut String,
    table: &KeyTable,
    key: u32,
    tests: &[Test],
) -> Result<(), NoMemory>
    requires { list_all (is_named (variants_at key table.now)) tests.now ≡ true }
    ensures text { OnOk result (string_bytes out.new ≡ string_bytes out.old ++ flat_map (λ t. 32 ∷ test_text (named_test (variants_at key table.now) t)) tests.now) }
    ensures tests { OnOk result (AllByRecursion IsTest tests.now) }
{
    for test in tests {
        out.push_str(" ")?;
        put_test(alloc, out, table, key, test)?;
    }
    Ok(())
}

fn put_test(
    alloc: Global,
    out: &mut String,
    table: &KeyTable,
    key: u32,
    test: &Test,
) -> Result<(), NoMemory>
    requires { is_named (variants_at key table.now) test.now ≡ true }
    ensures text { OnOk result (string_bytes out.new ≡ string_bytes out.old ++ test_text (named_test (variants_at key table.now) test.now)) }
    ensures test { OnOk result (IsTest test.now) }
{
    match test {
        Test::Variant(variant) => {
            out.push_str("v:")?;
            out.push_str(table.variant_as_str(key, *variant))?;
            Ok(())
        }
        Test::Text(text) => {
            out.push_str("t:")?;
            put_hex(alloc, out, text)
        }
        Test::Number(op, number) => put_number(out, *op, *number),
    }
}

fn put_number(out: &mut String, op: Op, number: i64) -> Result<(), NoMemory>
    ensures text { OnOk result (string_bytes out.new ≡ string_bytes out.old ++ (op_label op ++ signed_decimal number)) }
    ensures number { is_signed number ≡ true }
{
    write!(out, "{}{number}", label(op))?;
    Ok(())
}

fn label(op: Op) -> &'static str
    ensures { result.now ≡ op_label op }
{
    match op {
        Op::Equal => "eq:",
        Op::NotEqual => "ne:",
        Op::Less => "lt:",
        Op::LessEqual => "le:",
        Op::Greater => "gt:",
        Op::GreaterEqual => "ge:",
    }
}

// Appends the hexadecimal of a text.
fn put_hex(alloc: Global, out: &mut String, text: &Text) -> Result<(), NoMemory>
    ensures text { OnOk result (string_bytes out.new ≡ string_bytes out.old ++ encode_lower text.now) }
    ensures utf8 { IsUtf8 text.now }
{
    let digits = hex::encode(alloc, text.as_bytes())?;
    out.push_str(digits.as_str())?;
    Ok(())
}

fn put_items(out: &mut String, items: &[Item]) -> Result<(), NoMemory>
    ensures text { OnOk result (string_bytes out.new ≡ string_bytes out.old ++ flat_map (λ i. item_text i ++ 10 ∷ []) items.now) }
    ensures items { OnOk result (AllByRecursion IsItem items.now) }
{
    for item in items {
        put_item(out, *item)?;
    }
    Ok(())
}

// Appends the line of an item.
fn put_item(out: &mut String, item: Item) -> Result<(), NoMemory>
    ensures text { OnOk result (string_bytes out.new ≡ string_bytes out.old ++ (item_text item ++ 10 ∷ [])) }
    ensures item { IsItem item }
{
    match item {
        Item::Split(atom) => write!(out, "split {atom}\n")?,
        Item::Void(atom) => write!(out, "void {atom}\n")?,
        Item::Want(want) => write!(out, "want {want}\n")?,
        Item::Bar(bar) => write!(out, "bar {bar}\n")?,
        Item::Goal => out.push_str("goal\n")?,
        Item::Todo => out.push_str("todo\n")?,
    }
    Ok(())
}
