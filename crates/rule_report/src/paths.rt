ghost use Rattle.std.specs.Prelude.{◌≡◌, ◌++◌, [], map, IfOk, OnOk};
ghost use Rattle.std.specs.List.{All, flat_map};
ghost use Rattle.rule_report.specs.Paths.{behind};
ghost use Rattle.rule_report.specs.Numbered.{atoms_at, statement_numbers, rule_numbers, AreWithin};
ghost use Rattle.rule_report.specs.Taken.{IsTaking, IsAdded};

use crate::numbered::NumberedStatement;
use crate::taken::{Taken, take_all};
use key_table::{Atom, NoMemory, Seq};
use rule_problem::Literal;
use std::alloc::Global;

/// The paths of rules, rule by rule.
pub(crate) fn paths_of_rules(
    alloc: Global,
    shared: &[Atom],
    rules: &[Seq<NumberedStatement>],
    taken: &mut Taken,
) -> Result<Seq<Seq<Literal>>, NoMemory>
    requires within { All (λ rule. AreWithin shared.now (rule_numbers rule)) rules.now }
    requires taken { IsTaking shared.now taken.old }
    ensures taken { OnOk result (IsTaking shared.now taken.new) }
    ensures added { IfOk result (λ paths. IsAdded taken.old.atoms (flat_map (λ rule. map (atoms_at shared.now) (rule_numbers rule)) rules.now) taken.new.atoms [] paths) }
{
    let mut paths = Seq::new(alloc);
    for rule in rules {
        push_rule(alloc, shared, rule.as_slice(), taken, &mut paths)?;
    }
    Ok(paths)
}

/// The paths of a rule.
pub(crate) fn paths_of_rule(
    alloc: Global,
    shared: &[Atom],
    rule: &[NumberedStatement],
    taken: &mut Taken,
) -> Result<Seq<Seq<Literal>>, NoMemory>
    requires within { AreWithin shared.now (rule_numbers rule.now) }
    requires taken { IsTaking shared.now taken.old }
    ensures taken { OnOk result (IsTaking shared.now taken.new) }
    ensures added { IfOk result (λ paths. IsAdded taken.old.atoms (map (atoms_at shared.now) (rule_numbers rule.now)) taken.new.atoms [] paths) }
{
    let mut paths = Seq::new(alloc);
    push_rule(alloc, shared, rule, taken, &mut paths)?;
    Ok(paths)
}

// The paths of a rule stand last.
fn push_rule(
    alloc: Global,
    shared: &[Atom],
    rule: &[NumberedStatement],
    taken: &mut Taken,
    paths: &mut Seq<Seq<Literal>>,
) -> Result<(), NoMemory>
    requires within { AreWithin shared.now (rule_numbers rule.now) }
    requires taken { IsTaking shared.now taken.old }
    ensures taken { OnOk result (IsTaking shared.now taken.new) }
    ensures added { OnOk result (IsAdded taken.old.atoms (map (atoms_at shared.now) (rule_numbers rule.now)) taken.new.atoms paths.old paths.new) }
{
    push_statements(alloc, shared, &[], rule, taken, paths)
}

// The paths of some statements, each after the atoms above, stand last.
#[cycle(statements)]
fn push_statements(
    alloc: Global,
    shared: &[Atom],
    above: &[u32],
    statements: &[NumberedStatement],
    taken: &mut Taken,
    paths: &mut Seq<Seq<Literal>>,
) -> Result<(), NoMemory>
    requires within { AreWithin shared.now (behind above.now (rule_numbers statements.now)) }
    requires taken { IsTaking shared.now taken.old }
    ensures taken { OnOk result (IsTaking shared.now taken.new) }
    ensures added { OnOk result (IsAdded taken.old.atoms (map (atoms_at shared.now) (behind above.now (rule_numbers statements.now))) taken.new.atoms paths.old paths.new) }
{
    for statement in statements {
        push_statement(alloc, shared, above, statement, taken, paths)?;
    }
    Ok(())
}

#[cycle(statements)]
fn push_statement(
    alloc: Global,
    shared: &[Atom],
    above: &[u32],
    statement: &NumberedStatement,
    taken: &mut Taken,
    paths: &mut Seq<Seq<Literal>>,
) -> Result<(), NoMemory>
    requires within { AreWithin shared.now (behind above.now (statement_numbers statement.now)) }
    requires taken { IsTaking shared.now taken.old }
    ensures taken { OnOk result (IsTaking shared.now taken.new) }
    ensures added { OnOk result (IsAdded taken.old.atoms (map (atoms_at shared.now) (behind above.now (statement_numbers statement.now))) taken.new.atoms paths.old paths.new) }
{
    let here = extended(alloc, above, statement.condition.as_slice())?;
    match statement.nested() {
        None => paths.push(take_all(alloc, shared, here.as_slice(), taken)?),
        Some(nested) => push_statements(alloc, shared, here.as_slice(), nested, taken, paths),
    }
}

// The numbers above, and then these.
fn extended(alloc: Global, above: &[u32], condition: &[u32]) -> Result<Seq<u32>, NoMemory>
    ensures { IfOk result (λ numbers. numbers ≡ above.now ++ condition.now) }
{
    let mut numbers = Seq::with_capacity(alloc, above.len() + condition.len())?;
    push_all(above, &mut numbers)?;
    push_all(condition, &mut numbers)?;
    Ok(numbers)
}

fn push_all(more: &[u32], numbers: &mut Seq<u32>) -> Result<(), NoMemory>
    ensures { OnOk result (numbers.new ≡ numbers.old ++ more.now) }
{
    for number in more {
        numbers.push(*number)?;
    }
    Ok(())
}
