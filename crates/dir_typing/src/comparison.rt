ghost use Rattle.std.specs.Prelude.{◌≡◌};
ghost use Rattle.std.specs.List.{list_all};
ghost use Rattle.dir_typing.specs.Comparisons.{form_fits, operator_fits, words_in, is_variant, comparison_code};

use crate::fault::{UNKNOWN_KEY, UNKNOWN_VARIANT, WRONG_FORM, WRONG_OPERATOR};
use euclid_ast::{Comparison, ValueForm};
use key_table::{KeyTable, Kind, Op, Text};

/// The code of the first thing that is wrong with a comparison.
pub(crate) fn comparison_code(table: &KeyTable, comparison: &Comparison) -> Option<u8>
    ensures { result ≡ comparison_code table.now comparison.now }
{
    let Some(key) = table.find(comparison.lhs.as_bytes()) else {
        return Some(UNKNOWN_KEY);
    };
    if !form_fits(table.kind_of(key), &comparison.value) {
        return Some(WRONG_FORM);
    }
    if !operator_fits(comparison.op, &comparison.value) {
        return Some(WRONG_OPERATOR);
    }
    if !are_variants(table, key, &comparison.value) {
        return Some(UNKNOWN_VARIANT);
    }
    None
}

fn form_fits(kind: Kind, value: &ValueForm) -> bool
    ensures { result ≡ form_fits kind value.now }
{
    match (kind, value) {
        (Kind::Enum, ValueForm::Variant(_) | ValueForm::Variants(_))
        | (Kind::Number, ValueForm::Number(_) | ValueForm::Numbers(_) | ValueForm::NumberTests(_))
        | (Kind::Text, ValueForm::Str(_))
        | (Kind::Metadata, ValueForm::Metadata { .. }) => true,
        _ => false,
    }
}

fn operator_fits(op: Op, value: &ValueForm) -> bool
    ensures { result ≡ operator_fits op value.now }
{
    match value {
        ValueForm::Number(_) => true,
        _ => matches!(op, Op::Equal | Op::NotEqual),
    }
}

// Whether each variant that a value names is one of the key.
fn are_variants(table: &KeyTable, key: u32, value: &ValueForm) -> bool
    ensures { result ≡ list_all (is_variant table.now key) (words_in value.now) }
{
    match value {
        ValueForm::Variant(word) => is_variant(table, key, word),
        ValueForm::Variants(words) => words
            .as_slice()
            .iter()
            .all(|word| is_variant(table, key, word)),
        _ => true,
    }
}

fn is_variant(table: &KeyTable, key: u32, word: &Text) -> bool
    ensures { result ≡ is_variant table.now key word.now }
{
    table.variant(key, word.as_bytes()).is_some()
}
