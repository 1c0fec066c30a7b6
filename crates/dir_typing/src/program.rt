use crate::DirRule;
use euclid_ast::{Program, Selection};
use key_table::{KeyTable, Seq};
use std::marker::Model;
use std::snapshot::Snapshot;

/// A program with the numbers of keys and variants in place of their names. Contracts see the table and the source
/// program that it was typed from, which is within the limits and has no fault.
#[derive(Drop)]
pub struct DirProgram {
    default_selection: Selection,
    rules: Seq<DirRule>,
    table: Snapshot<KeyTable>,
    source: Snapshot<Program>,
}

impl Model for DirProgram {
    ghost use Rattle.std.specs.Prelude.{◌≡◌, map};
    ghost use Rattle.std.specs.Coded.{codes};
    ghost use Rattle.euclid_ast.specs.contracts.statement.Statement as statement;
    ghost use Rattle.dir_typing.specs.Typed.{Typed, typed, IsTyped};
    ghost use Rattle.dir_typing.specs.Numbered.{rule_of};

    ghost Value = { Typed };

    ghost coded = { Prim.hlevel (codes, statement.the_row.coded) };

    ghost view = { λ p. typed p.table.value p.source.value };

    ghost invariant = { λ p. IsTyped (typed p.table.value p.source.value)
        × (p.rules ≡ map (rule_of p.table.value) p.source.value.rules)
        × (p.default_selection ≡ p.source.value.default_selection) };
}

impl DirProgram {
    ghost use Rattle.std.specs.Prelude.{◌≡◌, map, [], true};
    ghost use Rattle.key_table.specs.Tables.{is_table};
    ghost use Rattle.euclid_ast.specs.Limits.{IsWithinLimits};
    ghost use Rattle.dir_typing.specs.Numbered.{rule_of};
    ghost use Rattle.dir_typing.specs.Faults.{faults};
    ghost use Rattle.dir_typing.specs.Typed.{typed, IsTyped};

    // What a source program without a fault is, by a table.
    pub(crate) fn new(
        table: &KeyTable,
        source: &Program,
        default_selection: Selection,
        rules: Seq<DirRule>,
    ) -> DirProgram
        requires table { is_table table.now ≡ true }
        requires within { IsWithinLimits source.now }
        requires well_typed { faults table.now source.now ≡ [] }
        requires rules { rules ≡ map (rule_of table.now) source.now.rules }
        requires default { default_selection ≡ source.now.default_selection }
        ensures { result ≡ typed table.now source.now }
    {
        DirProgram {
            default_selection,
            rules,
            table: Snapshot::of(table),
            source: Snapshot::of(source),
        }
    }

    /// The rules, with numbers for names. The slot of a metadata comparison has the sub name that is compared.
    pub fn rules(&self) -> &[DirRule]
        ensures rules { result.now ≡ map (rule_of self.now.table) self.now.source.rules }
        ensures typed { IsTyped self.now }
    {
        self.rules.as_slice()
    }

    /// What is given where no rule matches.
    pub fn default_selection(&self) -> &Selection
        ensures { result.now ≡ self.now.source.default_selection }
    {
        &self.default_selection
    }
}
