ghost use Rattle.std.specs.Prelude.{◌≡◌, IfOk, map};
ghost use Rattle.euclid_ast.specs.Comparisons.{sub_of};
ghost use Rattle.dir_typing.specs.Numbered.{key_number, variant_number, value_of, comparison_of};

use crate::{DirComparison, DirValue};
use euclid_ast::{Comparison, NumberTest, ValueForm};
use key_table::{KeyTable, NoMemory, Seq, Slot, Text};
use std::alloc::Global;

/// A comparison with numbers for names. A name that is none has the number past the last one.
pub(crate) fn comparison_of(
    alloc: Global,
    table: &KeyTable,
    comparison: &Comparison,
) -> Result<DirComparison, NoMemory>
    ensures { IfOk result (λ c. c ≡ comparison_of table.now comparison.now) }
{
    let key = key_number(table, &comparison.lhs);
    let sub = sub_of(&comparison.value)?;
    let value = value_of(alloc, table, key, &comparison.value)?;
    Ok(DirComparison {
        slot: Slot { key, sub },
        op: comparison.op,
        value,
    })
}

fn key_number(table: &KeyTable, name: &Text) -> u32
    ensures { result ≡ key_number table.now name.now }
{
    table.find(name.as_bytes()).unwrap_or(table.count())
}

fn variant_number(table: &KeyTable, key: u32, word: &Text) -> u32
    ensures { result ≡ variant_number table.now key word.now }
{
    table
        .variant(key, word.as_bytes())
        .unwrap_or(table.variants(key))
}

fn sub_of(value: &ValueForm) -> Result<Option<Text>, NoMemory>
    ensures { IfOk result (λ sub. sub ≡ sub_of value.now) }
{
    match value {
        ValueForm::Metadata { key, .. } => Ok(Some(key.copy()?)),
        _ => Ok(None),
    }
}

fn value_of(
    alloc: Global,
    table: &KeyTable,
    key: u32,
    value: &ValueForm,
) -> Result<DirValue, NoMemory>
    ensures { IfOk result (λ v. v ≡ value_of table.now key value.now) }
{
    Ok(match value {
        ValueForm::Number(number) => DirValue::Number(*number),
        ValueForm::Variant(word) => DirValue::Variant(variant_number(table, key, word)),
        ValueForm::Metadata { value, .. } => DirValue::Text(value.copy()?),
        ValueForm::Str(text) => DirValue::Text(text.copy()?),
        ValueForm::Numbers(numbers) => DirValue::Numbers(numbers.copy()?),
        ValueForm::Variants(words) => {
            DirValue::Variants(variant_numbers(alloc, table, key, words.as_slice())?)
        }
        ValueForm::NumberTests(tests) => {
            DirValue::NumberTests(number_tests(alloc, tests.as_slice())?)
        }
    })
}

fn variant_numbers(
    alloc: Global,
    table: &KeyTable,
    key: u32,
    words: &[Text],
) -> Result<Seq<u32>, NoMemory>
    ensures { IfOk result (λ numbers. numbers ≡ map (variant_number table.now key) words.now) }
{
    let mut numbers = Seq::with_capacity(alloc, words.len())?;
    for word in words {
        numbers.push(variant_number(table, key, word))?;
    }
    Ok(numbers)
}

fn number_tests(alloc: Global, tests: &[NumberTest]) -> Result<Seq<NumberTest>, NoMemory>
    ensures { IfOk result (λ copies. copies ≡ tests.now) }
{
    let mut copies = Seq::with_capacity(alloc, tests.len())?;
    for test in tests {
        copies.push(*test)?;
    }
    Ok(copies)
}
