ghost use Rattle.std.specs.Prelude.{◌≡◌, codes, true, IfOk};
ghost use Rattle.std.specs.List.{list_all};
ghost use Rattle.serde_json.specs.View.{view};
ghost use Rattle.key_table.specs.Answers.{Answers};
ghost use Rattle.euclid_ast.specs.Limits.{is_selection};
ghost use Rattle.json_shape.specs.Fields as fields;
ghost use Rattle.json_shape.specs.Counting.{within_field, items};
ghost use Rattle.json_program.specs.Parts.{is_statement, is_program};
ghost use Rattle.json_program.specs.Statements.{statement_of};
ghost use Rattle.json_program.specs.Selections.{selection_of};
ghost use Rattle.json_program.specs.Programs.{given_of, program_of, is_wrapped, program_in};

use crate::counts::Counts;
use crate::field::{name_in, short_text_in};
use crate::limits::{MOST_RULES, MOST_STATEMENTS};
use crate::selection::selection;
use crate::statement::statements;
use euclid_ast::{Program, Rule, Selection, Statement};
use json_shape::{CountingReader, Path, ShapeError, each_counted, field, list_up_to};
use key_table::{Seq, Stop};
use serde_json::Value;
use std::alloc::Global;

/// The program at the root of a file, or in the wrapper there.
pub(crate) fn program_in(
    alloc: Global,
    node: &Value,
    levels: u8,
    counts: &mut Counts,
) -> Result<Program, Stop<ShapeError>>
    ensures program { Answers (λ p. (p, counts.new)) result (program_in levels (view node.now) counts.old) }
    ensures fits { IfOk result (λ p. is_program levels p ≡ true) }
{
    let root = Path::root(alloc);
    if is_wrapped(node) {
        let at = root.name("data")?;
        let data = field(alloc, node, &root, "data")?;
        program(alloc, data, &at, levels, counts)
    } else {
        program(alloc, node, &root, levels, counts)
    }
}

fn is_wrapped(node: &Value) -> bool
    ensures { result ≡ is_wrapped (view node.now) }
{
    match node.get("type").and_then(Value::as_str) {
        Some("advanced") => true,
        _ => false,
    }
}

#[tactic(auto, unfolding(crate::specs::Programs::program_of))]
fn program(
    alloc: Global,
    node: &Value,
    path: &Path,
    levels: u8,
    counts: &mut Counts,
) -> Result<Program, Stop<ShapeError>>
    ensures program { Answers (λ p. (p, counts.new)) result (program_of levels path.now (view node.now) counts.old) }
    ensures fits { IfOk result (λ p. is_program levels p ≡ true) }
{
    let default_selection = selection_in(alloc, node, path, "defaultSelection")?;
    let at = path.name("rules")?;
    let list = field(alloc, node, path, "rules")?;
    let nodes = list_up_to(alloc, list, &at, MOST_RULES)?;
    let rules = each_counted(alloc, &OneRule { levels }, nodes, &at, counts)?;
    Ok(Program {
        default_selection,
        rules,
    })
}

// The selection of a field.
fn selection_in(
    alloc: Global,
    node: &Value,
    path: &Path,
    name: &str,
) -> Result<Selection, Stop<ShapeError>>
    ensures selection { Answers (λ s. s) result (fields.within_field name.now selection_of path.now (view node.now)) }
    ensures fits { IfOk result (λ s. is_selection s ≡ true) }
{
    let at = path.name(name)?;
    selection(alloc, field(alloc, node, path, name)?, &at)
}

// A rule, where so many levels of statements may open.
#[derive(Drop)]
struct OneRule {
    levels: u8,
}

impl CountingReader for OneRule {
    ghost use Rattle.json_program.specs.Parts.{is_rule};
    ghost use Rattle.json_program.specs.Programs.{rule_of};

    type Item = Rule;

    type Counts = Counts;

    ghost reads = { λ r. rule_of r.levels };

    ghost fits = { λ r. is_rule r.levels };

    #[tactic(auto, unfolding(crate::specs::Programs::rule_of))]
    fn read(
        &self,
        alloc: Global,
        node: &Value,
        path: &Path,
        counts: &mut Counts,
    ) -> Result<Rule, Stop<ShapeError>> {
        let name = short_text_in(alloc, node, path, "name")?;
        let selection = given(alloc, node, path)?;
        let statements = statements_in(alloc, node, path, self.levels, counts)?;
        Ok(Rule {
            name,
            selection,
            statements,
        })
    }
}

// What a rule gives, under either of two names.
#[tactic(auto, unfolding(crate::specs::Programs::given_of))]
fn given(alloc: Global, node: &Value, path: &Path) -> Result<Selection, Stop<ShapeError>>
    ensures selection { Answers (λ s. s) result (given_of path.now (view node.now)) }
    ensures fits { IfOk result (λ s. is_selection s ≡ true) }
{
    let name = name_in("connectorSelection", "routingOutput", node);
    selection_in(alloc, node, path, name)
}

// The statements of a rule.
fn statements_in(
    alloc: Global,
    node: &Value,
    path: &Path,
    levels: u8,
    counts: &mut Counts,
) -> Result<Seq<Statement>, Stop<ShapeError>>
    ensures statements { Answers (λ s. (s, counts.new)) result (within_field (codes "statements") (items 16384 (statement_of levels)) path.now (view node.now) counts.old) }
    ensures fit { IfOk result (λ s. list_all (is_statement levels) s ≡ true) }
{
    let at = path.name("statements")?;
    let list = field(alloc, node, path, "statements")?;
    let nodes = list_up_to(alloc, list, &at, MOST_STATEMENTS as usize)?;
    statements(alloc, nodes, &at, levels, counts)
}
