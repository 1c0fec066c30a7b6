ghost use Rattle.std.specs.Prelude.{◌≡◌, length, map, IfOk};
ghost use Rattle.std.specs.List.{AllZip, range_with_len};
ghost use Rattle.euclid_ast.specs.declared.meaning.Choice.TheVariants.{Rule};
ghost use Rattle.connector_settings.specs.GraphOf.{IsMadeWith};
ghost use Rattle.rule_report.specs.Aims.{aims};
ghost use Rattle.rule_report.specs.Answers.{IsAnswerOn, AreAnswersOn};

use crate::targets::Targets;
use connector_settings::ConnectorGraph;
use euclid_ast::Choice;
use key_table::{KeyTable, NoMemory, Seq};
use rule_problem::Report;
use std::alloc::Global;
use vir_lowering::VirProgram;

/// One answer of the search, with a budget of splits, for each rule of a program in order, and then one for the default, as
/// `Targets::report` gives it. The program and the connector graph were both made with this table. It is refused for want of
/// memory alone.
pub fn report_all(
    alloc: Global,
    table: &KeyTable,
    program: &VirProgram,
    connectors: &ConnectorGraph,
    budget: u32,
) -> Result<Seq<Report>, NoMemory>
    requires program { program.now.table ≡ table.now }
    requires connectors { IsMadeWith table.now connectors.now }
    ensures { IfOk result (AreAnswersOn (aims program.now connectors.now) budget) }
{
    let targets = Targets::new(alloc, table, program, connectors)?;
    let mut reports = report_rules(alloc, table, &targets, budget)?;
    reports.push(targets.report(alloc, table, Choice::Default, budget)?)?;
    Ok(reports)
}

// The answers for the rules.
fn report_rules(
    alloc: Global,
    table: &KeyTable,
    targets: &Targets,
    budget: u32,
) -> Result<Seq<Report>, NoMemory>
    requires { targets.now.program.table ≡ table.now }
    ensures { IfOk result (AllZip (IsAnswerOn targets.now budget) (map (λ rule. Rule rule) (range_with_len 0 (length targets.now.program.source.rules)))) }
{
    let count = targets.rule_count();
    let mut reports = Seq::with_capacity(alloc, count as usize)?;
    for rule in 0..count {
        reports.push(targets.report(alloc, table, Choice::Rule(rule), budget)?)?;
    }
    Ok(reports)
}
