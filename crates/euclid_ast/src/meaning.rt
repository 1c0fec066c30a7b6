ghost use Rattle.std.specs.Prelude.{◌≡◌, ◌<◌, ◌^◌, length, position, IfSome};
ghost use Rattle.std.specs.List.{list_any, list_all};
ghost use Rattle.key_table.specs.Tables.{variants_at};
ghost use Rattle.euclid_ast.specs.Comparisons.{fits, is_equality, is_word, is_number, is_text, meets, compares, comparison_holds};
ghost use Rattle.euclid_ast.specs.Meaning.{statement_holds, rule_matches, choice, IsWithin};

use crate::{Comparison, NumberTest, Program, Rule, Statement, ValueForm};
use key_table::{Datum, KeyTable, Kind, Op, Payment, Text};

/// What decides: the rule with a number, counted from 0, or the default.
#[derive(Clone, Copy, Debug, PartialEq, Eq)]
pub enum Choice {
    Rule(u32),
    Default,
}

/// What a program decides on a payment: the first rule that matches, else the default. A comparison whose key is not
/// in the table, or whose form or operator does not fit its key, is false.
pub fn choice_of_source(table: &KeyTable, program: &Program, payment: &Payment) -> Choice
    requires { length program.now.rules < 2 ^ 32 }
    ensures choice { result ≡ choice table.now payment.now program.now }
    ensures within { IsWithin result (length program.now.rules) }
{
    match first_match(table, program.rules.as_slice(), payment) {
        Some(number) => Choice::Rule(number as u32),
        None => Choice::Default,
    }
}

fn first_match(table: &KeyTable, rules: &[Rule], payment: &Payment) -> Option<usize>
    ensures number { result ≡ position (rule_matches table.now payment.now) rules.now }
    ensures within { IfSome result (λ number. number < length rules.now) }
{
    rules
        .iter()
        .position(|rule| rule_matches(table, payment, rule))
}

fn rule_matches(table: &KeyTable, payment: &Payment, rule: &Rule) -> bool
    ensures { result ≡ rule_matches table.now payment.now rule.now }
{
    rule.statements
        .as_slice()
        .iter()
        .any(|statement| statement_holds(table, payment, statement))
}

fn statement_holds(table: &KeyTable, payment: &Payment, statement: &Statement) -> bool
    ensures { result ≡ statement_holds table.now payment.now statement.now }
{
    if !condition_holds(table, payment, statement.condition.as_slice()) {
        return false;
    }
    match &statement.nested {
        None => true,
        Some(nested) => {
            for inner in nested.as_slice() {
                if statement_holds(table, payment, inner) {
                    return true;
                }
            }
            false
        }
    }
}

fn condition_holds(table: &KeyTable, payment: &Payment, condition: &[Comparison]) -> bool
    ensures { result ≡ list_all (comparison_holds table.now payment.now) condition.now }
{
    condition
        .iter()
        .all(|comparison| comparison_holds(table, payment, comparison))
}

fn comparison_holds(table: &KeyTable, payment: &Payment, comparison: &Comparison) -> bool
    ensures { result ≡ comparison_holds table.now payment.now comparison.now }
{
    let Some(key) = table.find(comparison.lhs.as_bytes()) else {
        return false;
    };
    let sub = match &comparison.value {
        ValueForm::Metadata { key, .. } => Some(key),
        _ => None,
    };
    let Some(datum) = payment.value_at(key, sub) else {
        return false;
    };
    fits(table.kind_of(key), comparison.op, &comparison.value)
        && compares(table, key, datum, comparison.op, &comparison.value)
}

// Whether the form and the operator fit a key of this kind.
fn fits(kind: Kind, op: Op, value: &ValueForm) -> bool
    ensures { result ≡ fits kind op value.now }
{
    match (kind, value) {
        (Kind::Number, ValueForm::Number(_)) => true,
        (Kind::Enum, ValueForm::Variant(_) | ValueForm::Variants(_))
        | (Kind::Number, ValueForm::Numbers(_) | ValueForm::NumberTests(_))
        | (Kind::Text, ValueForm::Str(_))
        | (Kind::Metadata, ValueForm::Metadata { .. }) => is_equality(op),
        _ => false,
    }
}

fn is_equality(op: Op) -> bool
    ensures { result ≡ is_equality op }
{
    matches!(op, Op::Equal | Op::NotEqual)
}

fn compares(table: &KeyTable, key: u32, datum: &Datum, op: Op, value: &ValueForm) -> bool
    ensures { result ≡ compares (variants_at key table.now) datum.now op value.now }
{
    match (op, value) {
        (Op::Equal, _) => meets(table, key, datum, value),
        (Op::NotEqual, _) => !meets(table, key, datum, value),
        (_, ValueForm::Number(number)) => is_number(datum, op, *number),
        _ => false,
    }
}

// Whether the datum meets the single value, or an item of the array.
fn meets(table: &KeyTable, key: u32, datum: &Datum, value: &ValueForm) -> bool
    ensures { result ≡ meets (variants_at key table.now) datum.now value.now }
{
    match value {
        ValueForm::Number(number) => is_number(datum, Op::Equal, *number),
        ValueForm::Variant(name) => is_word(table, key, datum, name),
        ValueForm::Metadata { value, .. } => is_text(datum, value),
        ValueForm::Str(text) => is_text(datum, text),
        ValueForm::Numbers(numbers) => is_some_number(datum, numbers.as_slice()),
        ValueForm::Variants(names) => is_some_word(table, key, datum, names.as_slice()),
        ValueForm::NumberTests(tests) => passes_some_test(datum, tests.as_slice()),
    }
}

fn is_some_number(datum: &Datum, numbers: &[i64]) -> bool
    ensures { result ≡ list_any (λ n. is_number Op.Equal n datum.now) numbers.now }
{
    numbers
        .iter()
        .any(|number| is_number(datum, Op::Equal, *number))
}

fn is_some_word(table: &KeyTable, key: u32, datum: &Datum, names: &[Text]) -> bool
    ensures { result ≡ list_any (λ word. is_word (variants_at key table.now) word datum.now) names.now }
{
    names.iter().any(|name| is_word(table, key, datum, name))
}

fn passes_some_test(datum: &Datum, tests: &[NumberTest]) -> bool
    ensures { result ≡ list_any (λ (t : NumberTest). is_number t.op t.number datum.now) tests.now }
{
    tests
        .iter()
        .any(|test| is_number(datum, test.op, test.number))
}

fn is_word(table: &KeyTable, key: u32, datum: &Datum, name: &Text) -> bool
    ensures { result ≡ is_word (variants_at key table.now) name.now datum.now }
{
    match datum {
        Datum::Variant(variant) if *variant < table.variants(key) => {
            name.is(table.variant_name(key, *variant))
        }
        _ => false,
    }
}

fn is_text(datum: &Datum, text: &Text) -> bool
    ensures { result ≡ is_text text.now datum.now }
{
    match datum {
        Datum::Text(there) => there.is(text.as_bytes()),
        _ => false,
    }
}

fn is_number(datum: &Datum, op: Op, number: i64) -> bool
    ensures { result ≡ is_number op number datum.now }
{
    match datum {
        Datum::Number(there) => op.relates(*there, number),
        _ => false,
    }
}
