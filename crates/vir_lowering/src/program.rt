use crate::VirRule;
use crate::laws::{fits_law, keeps_law};
use dir_typing::DirProgram;
use euclid_ast::Selection;
use key_table::Seq;
use std::marker::Model;
use std::snapshot::Snapshot;

/// A program of atoms. Contracts see the table and the source program that it was made from, which is within the
/// limits and has no fault.
#[derive(Drop)]
pub struct VirProgram {
    default_selection: Selection,
    rules: Seq<VirRule>,
    typed: Snapshot<DirProgram>,
}

impl Model for VirProgram {
    ghost use Rattle.std.specs.Prelude.{◌≡◌};
    ghost use Rattle.std.specs.Coded.{codes};
    ghost use Rattle.euclid_ast.specs.contracts.statement.Statement as statement;
    ghost use Rattle.dir_typing.specs.Typed.{Typed, IsTyped};
    ghost use Rattle.vir_lowering.specs.Valued.{valued_rules};

    ghost Value = { Typed };

    ghost coded = { Prim.hlevel (codes, statement.the_row.coded) };

    ghost view = { λ p. p.typed.value };

    ghost invariant = { λ p. IsTyped p.typed.value
        × (p.rules ≡ valued_rules p.typed.value)
        × (p.default_selection ≡ p.typed.value.source.default_selection) };
}

impl VirProgram {
    ghost use Rattle.std.specs.Prelude.{◌≡◌};
    ghost use Rattle.dir_typing.specs.Typed.{IsTyped};
    ghost use Rattle.vir_lowering.specs.Valued.{valued_rules};
    ghost use Rattle.vir_lowering.specs.Decisions.{IsKept};
    ghost use Rattle.vir_lowering.specs.Fits.{AllFit};

    /// The rules, with atoms for comparisons. For every payment they decide what the source program does, and each of
    /// their atoms fits the table.
    pub fn rules(&self) -> &[VirRule]
        ensures rules { result.now ≡ valued_rules self.now }
        ensures typed { IsTyped self.now }
        ensures kept { IsKept self.now }
        ensures fits { AllFit self.now }
    {
        keeps_law();
        fits_law();
        self.rules.as_slice()
    }

    /// What is given where no rule matches.
    pub fn default_selection(&self) -> &Selection
        ensures { result.now ≡ self.now.source.default_selection }
    {
        &self.default_selection
    }

    // What a typed program is with these rules, which are its own with atoms for comparisons.
    pub(crate) fn new(
        typed: &DirProgram,
        default_selection: Selection,
        rules: Seq<VirRule>,
    ) -> VirProgram
        requires typed { IsTyped typed.now }
        requires rules { rules ≡ valued_rules typed.now }
        requires default { default_selection ≡ typed.now.source.default_selection }
        ensures { result ≡ typed.now }
    {
        VirProgram {
            default_selection,
            rules,
            typed: Snapshot::of(typed),
        }
    }
}
