ghost use Rattle.std.specs.Prelude.{◌≡◌, ◌<◌, ◌≤◌, length, position, IfSome};
ghost use Rattle.euclid_ast.specs.Meaning.{choice, IsWithin};
ghost use Rattle.vir_lowering.specs.Decisions.{condition_holds, statement_holds, rule_matches, decision};

use euclid_ast::Choice;
use key_table::{Atom, Payment, atom_holds};
use vir_lowering::{VirProgram, VirRule, VirStatement};

/// What a program decides on a payment: the first rule that matches, else the default. It is what its source program
/// decides.
pub fn decide(program: &VirProgram, payment: &Payment) -> Choice
    ensures choice { result ≡ choice program.now.table payment.now program.now.source }
    ensures within { IsWithin result (length program.now.source.rules) }
{
    decision(program.rules(), payment)
}

fn decision(rules: &[VirRule], payment: &Payment) -> Choice
    requires { length rules.now ≤ 256 }
    ensures decision { result ≡ decision payment.now rules.now }
    ensures within { IsWithin result (length rules.now) }
{
    match first_match(rules, payment) {
        Some(number) => Choice::Rule(number as u32),
        None => Choice::Default,
    }
}

fn first_match(rules: &[VirRule], payment: &Payment) -> Option<usize>
    ensures number { result ≡ position (rule_matches payment.now) rules.now }
    ensures within { IfSome result (λ number. number < length rules.now) }
{
    rules.iter().position(|rule| rule_matches(rule, payment))
}

fn rule_matches(rule: &VirRule, payment: &Payment) -> bool
    ensures { result ≡ rule_matches payment.now rule.now }
{
    rule.statements
        .as_slice()
        .iter()
        .any(|statement| statement_holds(statement, payment))
}

fn statement_holds(statement: &VirStatement, payment: &Payment) -> bool
    ensures { result ≡ statement_holds payment.now statement.now }
{
    if !condition_holds(statement.condition.as_slice(), payment) {
        return false;
    }
    match &statement.nested {
        None => true,
        Some(nested) => {
            for inner in nested.as_slice() {
                if statement_holds(inner, payment) {
                    return true;
                }
            }
            false
        }
    }
}

fn condition_holds(condition: &[Atom], payment: &Payment) -> bool
    ensures { result ≡ condition_holds payment.now condition.now }
{
    condition.iter().all(|atom| atom_holds(atom, payment))
}
