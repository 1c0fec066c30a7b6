ghost use Rattle.std.specs.Prelude.{◌≡◌, IfOk, map};
ghost use Rattle.vir_lowering.specs.Valued.{valued_statement, valued_rule};
ghost use Rattle.vir_lowering.specs.Decisions.{IsKept};

use crate::condition::condition;
use crate::laws::keeps_law;
use crate::{VirProgram, VirRule, VirStatement};
use dir_typing::{DirProgram, DirRule, DirStatement};
use key_table::{KeyTable, NoMemory, Seq};
use std::alloc::Global;

/// The program with one atom for each comparison, those of a condition grouped by slot: the slots in order of first
/// appearance, the atoms of a slot in source order. The program was typed with this table. For every payment, legal or
/// not, the result decides what the source program does. It is refused for want of memory alone.
pub fn lower(alloc: Global, table: &KeyTable, program: &DirProgram) -> Result<VirProgram, NoMemory>
    requires { program.now.table ≡ table.now }
    ensures program { IfOk result (λ p. p ≡ program.now) }
    ensures kept { IfOk result (λ p. IsKept p) }
{
    let sources = program.rules();
    keeps_law();
    let rules = rules(alloc, sources)?;
    let default_selection = program.default_selection().copy()?;
    Ok(VirProgram::new(program, default_selection, rules))
}

fn rules(alloc: Global, rules: &[DirRule]) -> Result<Seq<VirRule>, NoMemory>
    ensures { IfOk result (λ r. r ≡ map valued_rule rules.now) }
{
    let mut valued = Seq::with_capacity(alloc, rules.len())?;
    for source in rules {
        valued.push(rule(alloc, source)?)?;
    }
    Ok(valued)
}

fn rule(alloc: Global, rule: &DirRule) -> Result<VirRule, NoMemory>
    ensures { IfOk result (λ r. r ≡ valued_rule rule.now) }
{
    Ok(VirRule {
        name: rule.name.copy()?,
        selection: rule.selection.copy()?,
        statements: statements(alloc, rule.statements.as_slice())?,
    })
}

#[cycle(statements)]
fn statements(alloc: Global, statements: &[DirStatement]) -> Result<Seq<VirStatement>, NoMemory>
    ensures { IfOk result (λ s. s ≡ map valued_statement statements.now) }
{
    let mut valued = Seq::with_capacity(alloc, statements.len())?;
    for source in statements {
        valued.push(statement(alloc, source)?)?;
    }
    Ok(valued)
}

#[cycle(statements)]
#[tactic(auto, using(crate::proofs::Parts::valued_out))]
fn statement(alloc: Global, statement: &DirStatement) -> Result<VirStatement, NoMemory>
    ensures { IfOk result (λ s. s ≡ valued_statement statement.now) }
{
    let condition = condition(alloc, statement.condition.as_slice())?;
    let nested = match &statement.nested {
        Some(nested) => Some(statements(alloc, nested.as_slice())?),
        None => None,
    };
    Ok(VirStatement { condition, nested })
}
