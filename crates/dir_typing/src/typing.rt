ghost use Rattle.std.specs.Prelude.{◌≡◌, ◌<◌, ◌^◌, is_some, map, length};
ghost use Rattle.key_table.specs.Answers.{Answers};
ghost use Rattle.euclid_ast.specs.Limits.{IsWithinLimits, comparisons_of, comparisons_in};
ghost use Rattle.dir_typing.specs.declared.fault.Place.TheVariants as place;
ghost use Rattle.dir_typing.specs.Numbered.{comparison_of, statement_of, rule_of};
ghost use Rattle.dir_typing.specs.Selections.{selection_code};
ghost use Rattle.dir_typing.specs.Faults.{faults, fault_at, numbered, comparison_faults, rule_faults};
ghost use Rattle.dir_typing.specs.Typed.{judged, counted, typed};

use crate::comparison::comparison_code;
use crate::numbering::comparison_of;
use crate::selection::{Family, first_family, selection_code};
use crate::{DirComparison, DirProgram, DirRule, DirStatement, Place, TypeFault};
use euclid_ast::{Comparison, Program, Rule, Selection, Statement};
use key_table::{KeyTable, Seq, Stop};
use std::alloc::Global;

/// The program with numbers for names, or its first fault. The default's selection comes first, and then for each rule its
/// selection and its comparisons, those of a statement before those of its nested statements. A selection or a comparison
/// has at most one fault, that with the least code.
pub fn type_program(
    alloc: Global,
    table: &KeyTable,
    program: &Program,
) -> Result<DirProgram, Stop<TypeFault>>
    requires { IsWithinLimits program.now }
    ensures { Answers (λ p. p) result (judged (faults table.now program.now) (typed table.now program.now)) }
{
    let first = first_family(program);
    let default_selection = selection(alloc, None, first, &program.default_selection)?;
    let rules = rules(alloc, table, first, program.rules.as_slice())?;
    // Every table is well made, as its count says.
    let _ = table.count();
    Ok(DirProgram::new(table, program, default_selection, rules))
}

// The rules with numbers for names, or their first fault.
fn rules(
    alloc: Global,
    table: &KeyTable,
    first: Option<Family>,
    rules: &[Rule],
) -> Result<Seq<DirRule>, Stop<TypeFault>>
    requires { length rules.now < 2 ^ 32 }
    ensures { Answers (λ r. r) result (judged (numbered (rule_faults table.now first) 0 rules.now) (map (rule_of table.now) rules.now)) }
{
    let mut typed = Seq::with_capacity(alloc, rules.len())?;
    let mut number: u32 = 0;
    for source in rules {
        typed.push(rule(alloc, table, first, number, source)?)?;
        number += 1;
    }
    Ok(typed)
}

fn rule(
    alloc: Global,
    table: &KeyTable,
    first: Option<Family>,
    number: u32,
    rule: &Rule,
) -> Result<DirRule, Stop<TypeFault>>
    ensures { Answers (λ r. r) result (judged (rule_faults table.now first number rule.now) (rule_of table.now rule.now)) }
{
    let selection = selection(alloc, Some(number), first, &rule.selection)?;
    let mut next = 0;
    let statements = statements(alloc, table, number, &mut next, rule.statements.as_slice())?;
    Ok(DirRule {
        name: rule.name.copy()?,
        selection,
        statements,
    })
}

// An equal selection of a rule with a number, or of the default, or its fault.
fn selection(
    alloc: Global,
    rule: Option<u32>,
    first: Option<Family>,
    selection: &Selection,
) -> Result<Selection, Stop<TypeFault>>
    ensures { Answers (λ s. s) result (judged (fault_at rule place.Selection (selection_code (is_some rule) first selection.now)) selection.now) }
{
    match selection_code(rule.is_some(), first, selection) {
        None => Ok(selection.copy()?),
        Some(code) => Err(Stop::Fault(TypeFault {
            rule,
            place: Place::Selection,
            code,
        })),
    }
}

// Statements of a rule, of which the next comparison has this number.
#[cycle(statements)]
fn statements(
    alloc: Global,
    table: &KeyTable,
    rule: u32,
    next: &mut u32,
    statements: &[Statement],
) -> Result<Seq<DirStatement>, Stop<TypeFault>>
    ensures { Answers (λ s. (s, next.new)) result (counted table.now rule next.old (comparisons_in statements.now) (map (statement_of table.now) statements.now)) }
{
    let mut typed = Seq::with_capacity(alloc, statements.len())?;
    for source in statements {
        typed.push(statement(alloc, table, rule, next, source)?)?;
    }
    Ok(typed)
}

#[cycle(statements)]
fn statement(
    alloc: Global,
    table: &KeyTable,
    rule: u32,
    next: &mut u32,
    statement: &Statement,
) -> Result<DirStatement, Stop<TypeFault>>
    ensures { Answers (λ s. (s, next.new)) result (counted table.now rule next.old (comparisons_of statement.now) (statement_of table.now statement.now)) }
{
    let condition = comparisons(alloc, table, rule, next, statement.condition.as_slice())?;
    let Some(nested) = &statement.nested else {
        return Ok(DirStatement {
            condition,
            nested: None,
        });
    };
    let nested = statements(alloc, table, rule, next, nested.as_slice())?;
    Ok(DirStatement {
        condition,
        nested: Some(nested),
    })
}

fn comparisons(
    alloc: Global,
    table: &KeyTable,
    rule: u32,
    next: &mut u32,
    comparisons: &[Comparison],
) -> Result<Seq<DirComparison>, Stop<TypeFault>>
    ensures { Answers (λ c. (c, next.new)) result (counted table.now rule next.old comparisons.now (map (comparison_of table.now) comparisons.now)) }
{
    let mut typed = Seq::with_capacity(alloc, comparisons.len())?;
    for source in comparisons {
        typed.push(comparison(alloc, table, rule, *next, source)?)?;
        // A program within the limits has far fewer comparisons than a u32 counts.
        let Some(after) = next.checked_add(1) else {
            return Err(Stop::Memory);
        };
        *next = after;
    }
    Ok(typed)
}

fn comparison(
    alloc: Global,
    table: &KeyTable,
    rule: u32,
    number: u32,
    comparison: &Comparison,
) -> Result<DirComparison, Stop<TypeFault>>
    ensures { Answers (λ c. c) result (judged (comparison_faults table.now rule number comparison.now) (comparison_of table.now comparison.now)) }
{
    match comparison_code(table, comparison) {
        None => Ok(comparison_of(alloc, table, comparison)?),
        Some(code) => Err(Stop::Fault(TypeFault {
            rule: Some(rule),
            place: Place::Comparison(number),
            code,
        })),
    }
}
