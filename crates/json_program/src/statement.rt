ghost use Rattle.std.specs.Prelude.{◌≡◌, suc, map, true, IfOk};
ghost use Rattle.std.specs.List.{list_all};
ghost use Rattle.std.specs.Option.{option_map_or};
ghost use Rattle.serde_json.specs.View.{view};
ghost use Rattle.key_table.specs.Answers.{Answers};
ghost use Rattle.euclid_ast.specs.Limits.{is_comparison};
ghost use Rattle.json_shape.specs.Counted.{each};
ghost use Rattle.json_program.specs.Parts.{is_statement};
ghost use Rattle.json_program.specs.Statements.{comparison_of, condition_of, nested_of, body_of, statement_of};

use crate::comparison::fields;
use crate::counts::Counts;
use crate::error::LIMIT;
use crate::limits::{MOST_COMPARISONS, MOST_STATEMENTS};
use euclid_ast::{Comparison, Statement};
use json_shape::{CountingReader, Path, ShapeError, each_counted, field, list_up_to, optional};
use key_table::{Seq, Stop};
use serde_json::Value;
use std::alloc::Global;

/// The statements of a list, where so many levels may open.
#[cycle(statements)]
pub(crate) fn statements(
    alloc: Global,
    nodes: &[Value],
    path: &Path,
    levels: u8,
    counts: &mut Counts,
) -> Result<Seq<Statement>, Stop<ShapeError>>
    ensures statements { Answers (λ s. (s, counts.new)) result (each (statement_of levels) path.now 0 (map view nodes.now) counts.old) }
    ensures fit { IfOk result (λ s. list_all (is_statement levels) s ≡ true) }
{
    let mut items = Seq::with_capacity(alloc, nodes.len())?;
    for (i, node) in nodes.iter().enumerate() {
        let at = path.item(i)?;
        items.push(statement(alloc, node, &at, levels, counts)?)?;
    }
    Ok(items)
}

#[cycle(statements)]
fn statement(
    alloc: Global,
    node: &Value,
    path: &Path,
    levels: u8,
    counts: &mut Counts,
) -> Result<Statement, Stop<ShapeError>>
    ensures statement { Answers (λ s. (s, counts.new)) result (statement_of levels path.now (view node.now) counts.old) }
    ensures fits { IfOk result (λ s. is_statement levels s ≡ true) }
{
    if levels == 0 {
        return Err(path.stop(LIMIT));
    }
    body(alloc, node, path, levels - 1, counts)
}

// A statement, where so many levels may open in it.
#[cycle(statements)]
#[tactic(auto, unfolding(crate::specs::Statements::body_of), using(crate::proofs::Parts::is_statement_made))]
fn body(
    alloc: Global,
    node: &Value,
    path: &Path,
    levels: u8,
    counts: &mut Counts,
) -> Result<Statement, Stop<ShapeError>>
    ensures statement { Answers (λ s. (s, counts.new)) result (body_of (statement_of levels) path.now (view node.now) counts.old) }
    ensures fits { IfOk result (λ s. is_statement (suc levels) s ≡ true) }
{
    counts.begin_statement(path)?;
    let condition = condition(alloc, node, path, counts)?;
    let nested = nested(alloc, node, path, levels, counts)?;
    Ok(Statement { condition, nested })
}

#[cycle(statements)]
fn nested(
    alloc: Global,
    node: &Value,
    path: &Path,
    levels: u8,
    counts: &mut Counts,
) -> Result<Option<Seq<Statement>>, Stop<ShapeError>>
    ensures nested { Answers (λ s. (s, counts.new)) result (nested_of (statement_of levels) path.now (view node.now) counts.old) }
    ensures fit { IfOk result (λ o. option_map_or (list_all (is_statement levels)) o true ≡ true) }
{
    match optional(alloc, node, path, "nested")? {
        None => Ok(None),
        Some(inner) => {
            let at = path.name("nested")?;
            let nodes = list_up_to(alloc, inner, &at, MOST_STATEMENTS as usize)?;
            Ok(Some(statements(alloc, nodes, &at, levels, counts)?))
        }
    }
}

fn condition(
    alloc: Global,
    node: &Value,
    path: &Path,
    counts: &mut Counts,
) -> Result<Seq<Comparison>, Stop<ShapeError>>
    ensures condition { Answers (λ s. (s, counts.new)) result (condition_of path.now (view node.now) counts.old) }
    ensures fit { IfOk result (λ s. list_all is_comparison s ≡ true) }
{
    let at = path.name("condition")?;
    let list = field(alloc, node, path, "condition")?;
    let nodes = list_up_to(alloc, list, &at, MOST_COMPARISONS as usize)?;
    each_counted(alloc, &OneComparison, nodes, &at, counts)
}

// A comparison.
struct OneComparison;

impl CountingReader for OneComparison {
    ghost use Rattle.euclid_ast.specs.Limits.{is_comparison};
    ghost use Rattle.json_program.specs.Statements.{comparison_of};

    type Item = Comparison;

    type Counts = Counts;

    ghost reads = { λ _. comparison_of };

    ghost fits = { λ _ c. is_comparison c };

    #[tactic(auto, unfolding(crate::specs::Statements::comparison_of))]
    fn read(
        &self,
        alloc: Global,
        node: &Value,
        path: &Path,
        counts: &mut Counts,
    ) -> Result<Comparison, Stop<ShapeError>> {
        counts.begin_comparison(path)?;
        fields(alloc, node, path)
    }
}
