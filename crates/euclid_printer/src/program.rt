//! Rules, and whole programs.

ghost use Rattle.std.specs.Prelude.{◌≡◌, ◌++◌, OnOk, IfOk, codes, string_bytes};
ghost use Rattle.std.specs.List.{flat_map};
ghost use Rattle.euclid_lexer.specs.Pieces.{text_of};
ghost use Rattle.euclid_printer.specs.Layout.{statement_pieces, program_pieces};

use crate::print::{Print, put_all};
use crate::statement::put_statements;
use euclid_ast::{Program, Rule, Statement};
use key_table::NoMemory;
use std::alloc::Global;

/// The text of a program in the printed layout, whether or not the text form can say it.
pub(crate) fn program_text(alloc: Global, program: &Program) -> Result<String, NoMemory>
    ensures { IfOk result (λ t. string_bytes t ≡ text_of (program_pieces program.now)) }
{
    let mut out = String::new(alloc);
    out.push_str("default: ")?;
    program.default_selection.print(&mut out)?;
    out.push_str("\n")?;
    put_all(&mut out, program.rules.as_slice())?;
    Ok(out)
}

impl Print for Rule {
    ghost use Rattle.euclid_lexer.specs.Pieces.{text_of};
    ghost use Rattle.euclid_printer.specs.Layout.{rule_pieces};

    ghost text = { λ r. text_of (rule_pieces r) };

    fn print(&self, out: &mut String) -> Result<(), NoMemory> {
        write!(out, "\"{}\": ", self.name.as_str())?;
        self.selection.print(out)?;
        put_block(out, self.statements.as_slice())?;
        Ok(())
    }
}

// The statements of a rule in curly brackets, behind its selection.
fn put_block(out: &mut String, statements: &[Statement]) -> Result<(), NoMemory>
    ensures { OnOk result (string_bytes out.new ≡ string_bytes out.old ++ (codes " {\n" ++ (flat_map (λ s. text_of (statement_pieces s 1)) statements.now ++ codes "}\n"))) }
{
    out.push_str(" {\n")?;
    put_statements(out, 1, statements)?;
    out.push_str("}\n")?;
    Ok(())
}
