ghost use Rattle.std.specs.Prelude.{◌≡◌, map, option_copied, IfOk, OnOk};
ghost use Rattle.std.specs.List.{flat_map};
ghost use Rattle.rule_report.specs.Paths.{statement_paths, rule_paths};
ghost use Rattle.rule_report.specs.Numbered.{statement_numbers, rule_numbers, IsGrown, ArePathsOf, AreRulesOf};

use crate::atoms::number_atoms;
use indexmap::IndexSet;
use key_table::{Atom, NoMemory, Seq};
use std::alloc::Global;
use vir_lowering::{VirRule, VirStatement};

/// A statement with the number of each atom in the atom's place.
#[derive(Debug, Drop)]
pub(crate) struct NumberedStatement {
    pub(crate) condition: Seq<u32>,
    pub(crate) nested: Option<Seq<NumberedStatement>>,
}

impl NumberedStatement {
    ghost use Rattle.rule_report.specs.declared.numbered.NumberedStatement.TheViews.{out-NumberedStatement};

    /// The statements nested under it, where there is such a list.
    pub(crate) fn nested(&self) -> Option<&[NumberedStatement]>
        ensures { option_copied result ≡ (out-NumberedStatement self.now).nested }
    {
        match &self.nested {
            Some(nested) => Some(nested.as_slice()),
            None => None,
        }
    }
}

/// The statements of each rule with numbers for atoms, of which a new one gets the next number.
pub(crate) fn number_rules(
    alloc: Global,
    atoms: &mut IndexSet<Atom>,
    rules: &[VirRule],
) -> Result<Seq<Seq<NumberedStatement>>, NoMemory>
    ensures grown { OnOk result (IsGrown atoms.old.keys atoms.new.keys) }
    ensures right { IfOk result (λ numbered. AreRulesOf atoms.new.keys (map rule_numbers numbered) (map rule_paths rules.now)) }
{
    let mut numbered = Seq::with_capacity(alloc, rules.len())?;
    for rule in rules {
        numbered.push(number_statements(alloc, atoms, rule.statements.as_slice())?)?;
    }
    Ok(numbered)
}

#[cycle(statements)]
fn number_statements(
    alloc: Global,
    atoms: &mut IndexSet<Atom>,
    statements: &[VirStatement],
) -> Result<Seq<NumberedStatement>, NoMemory>
    ensures grown { OnOk result (IsGrown atoms.old.keys atoms.new.keys) }
    ensures right { IfOk result (λ numbered. ArePathsOf atoms.new.keys (rule_numbers numbered) (flat_map statement_paths statements.now)) }
{
    let mut numbered = Seq::with_capacity(alloc, statements.len())?;
    for statement in statements {
        numbered.push(number_statement(alloc, atoms, statement)?)?;
    }
    Ok(numbered)
}

#[cycle(statements)]
fn number_statement(
    alloc: Global,
    atoms: &mut IndexSet<Atom>,
    statement: &VirStatement,
) -> Result<NumberedStatement, NoMemory>
    ensures grown { OnOk result (IsGrown atoms.old.keys atoms.new.keys) }
    ensures right { IfOk result (λ numbered. ArePathsOf atoms.new.keys (statement_numbers numbered) (statement_paths statement.now)) }
{
    let condition = number_atoms(alloc, atoms, statement.condition.as_slice())?;
    match &statement.nested {
        None => Ok(NumberedStatement {
            condition,
            nested: None,
        }),
        Some(nested) => {
            let nested = number_statements(alloc, atoms, nested.as_slice())?;
            Ok(NumberedStatement {
                condition,
                nested: Some(nested),
            })
        }
    }
}
