//! Whether the text form can say a program.

ghost use Rattle.std.specs.Prelude.{◌≡◌, ◌<◌, ◌^◌, length, position, not, IfSome};
ghost use Rattle.std.specs.List.{list_all};
ghost use Rattle.key_table.specs.Names.{is_word};
ghost use Rattle.euclid_lexer.specs.Pieces.{is_quotable};
ghost use Rattle.euclid_printer.specs.Expressible.{says_value, says_comparison, says_statement, says_account, says_share, says_selection, says_rule, unsaid};

use crate::Inexpressible;
use euclid_ast::{Account, Comparison, Program, Rule, Selection, Share, Statement, ValueForm};
use key_table::{Text, is_word};

/// What the text form cannot say of a program: the default, or the first such rule.
pub(crate) fn unsaid(program: &Program) -> Option<Inexpressible>
    requires { length program.now.rules < 2 ^ 32 }
    ensures { result ≡ unsaid program.now }
{
    if !says_selection(&program.default_selection) {
        return Some(Inexpressible { rule: None });
    }
    match first_unsaid(program.rules.as_slice()) {
        Some(number) => Some(Inexpressible {
            rule: Some(number as u32),
        }),
        None => None,
    }
}

fn first_unsaid(rules: &[Rule]) -> Option<usize>
    ensures number { result ≡ position (λ r. not (says_rule r)) rules.now }
    ensures within { IfSome result (λ number. number < length rules.now) }
{
    rules.iter().position(|rule| !says_rule(rule))
}

fn says_rule(rule: &Rule) -> bool
    ensures { result ≡ says_rule rule.now }
{
    is_quotable(&rule.name)
        && says_selection(&rule.selection)
        && says_statements(rule.statements.as_slice())
}

fn says_statements(statements: &[Statement]) -> bool
    ensures { result ≡ list_all says_statement statements.now }
{
    statements.iter().all(|statement| says_statement(statement))
}

fn says_selection(selection: &Selection) -> bool
    ensures { result ≡ says_selection selection.now }
{
    match selection {
        Selection::Priority(accounts) => says_accounts(accounts.as_slice()),
        Selection::Volume(shares) => says_shares(shares.as_slice()),
        _ => true,
    }
}

fn says_accounts(accounts: &[Account]) -> bool
    ensures { result ≡ list_all says_account accounts.now }
{
    accounts.iter().all(|account| says_account(account))
}

fn says_shares(shares: &[Share]) -> bool
    ensures { result ≡ list_all says_share shares.now }
{
    shares.iter().all(|share| says_account(&share.account))
}

fn says_account(account: &Account) -> bool
    ensures { result ≡ says_account account.now }
{
    is_quotable(&account.connector)
        && match &account.id {
            Some(id) => is_quotable(id),
            None => true,
        }
}

fn says_statement(statement: &Statement) -> bool
    ensures { result ≡ says_statement statement.now }
{
    let condition = statement.condition.as_slice();
    if condition.is_empty() || !says_comparisons(condition) {
        return false;
    }
    match &statement.nested {
        None => true,
        Some(nested) => {
            for inner in nested.as_slice() {
                if !says_statement(inner) {
                    return false;
                }
            }
            !nested.as_slice().is_empty()
        }
    }
}

fn says_comparisons(comparisons: &[Comparison]) -> bool
    ensures { result ≡ list_all says_comparison comparisons.now }
{
    comparisons
        .iter()
        .all(|comparison| says_comparison(comparison))
}

fn says_comparison(comparison: &Comparison) -> bool
    ensures { result ≡ says_comparison comparison.now }
{
    is_word(comparison.lhs.as_bytes()) && says_value(&comparison.value)
}

fn says_value(value: &ValueForm) -> bool
    ensures { result ≡ says_value value.now }
{
    match value {
        ValueForm::Number(_) => true,
        ValueForm::Variant(name) => is_word(name.as_bytes()),
        ValueForm::Metadata { key, value } => is_quotable(key) && is_quotable(value),
        ValueForm::Str(text) => is_quotable(text),
        ValueForm::Numbers(numbers) => !numbers.as_slice().is_empty(),
        ValueForm::Variants(names) => {
            !names.as_slice().is_empty() && are_words(names.as_slice())
        }
        ValueForm::NumberTests(tests) => !tests.as_slice().is_empty(),
    }
}

fn are_words(names: &[Text]) -> bool
    ensures { result ≡ list_all is_word names.now }
{
    names.iter().all(|name| is_word(name.as_bytes()))
}

// Whether the text can stand between quotes.
fn is_quotable(text: &Text) -> bool
    ensures { result ≡ is_quotable text.now }
{
    text.as_bytes()
        .iter()
        .all(|byte| !matches!(*byte, b'"' | b'\n'))
}
