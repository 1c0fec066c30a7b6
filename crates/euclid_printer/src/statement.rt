//! Statements, one to a line, and their indentation.

ghost use Rattle.std.specs.Prelude.{◌≡◌, ◌++◌, ◌+◌, ◌*◌, OnOk, IfOk, codes, string_bytes};
ghost use Rattle.std.specs.List.{flat_map};
ghost use Rattle.std.proofs.Common.{replicate};
ghost use Rattle.euclid_lexer.specs.Pieces.{text_of};
ghost use Rattle.euclid_printer.specs.Layout.{statement_pieces};

use crate::print::put_joined;
use euclid_ast::Statement;
use key_table::NoMemory;

/// Statements of this level, the outermost being level 1.
#[cycle(statements)]
pub(crate) fn put_statements(
    out: &mut String,
    level: usize,
    statements: &[Statement],
) -> Result<(), NoMemory>
    ensures { OnOk result (string_bytes out.new ≡ string_bytes out.old ++ flat_map (λ s. text_of (statement_pieces s level)) statements.now) }
{
    for statement in statements {
        put_statement(out, level, statement)?;
    }
    Ok(())
}

// A statement of this level, with those nested in it.
#[cycle(statements)]
fn put_statement(out: &mut String, level: usize, statement: &Statement) -> Result<(), NoMemory>
    ensures { OnOk result (string_bytes out.new ≡ string_bytes out.old ++ text_of (statement_pieces statement.now level)) }
{
    put_indent(out, level)?;
    put_joined(out, " & ", statement.condition.as_slice())?;
    match &statement.nested {
        None => out.push_str("\n")?,
        Some(nested) => {
            out.push_str(" {\n")?;
            put_statements(out, deeper(level)?, nested.as_slice())?;
            put_closing(out, level)?
        }
    }
    Ok(())
}

// The line that ends the statements nested in one of this level.
fn put_closing(out: &mut String, level: usize) -> Result<(), NoMemory>
    ensures { OnOk result (string_bytes out.new ≡ string_bytes out.old ++ (replicate (2 * level) 32 ++ codes "}\n")) }
{
    put_indent(out, level)?;
    out.push_str("}\n")?;
    Ok(())
}

// The next level. No memory holds a statement of a level that no number has.
fn deeper(level: usize) -> Result<usize, NoMemory>
    ensures { IfOk result (λ next. next ≡ level + 1) }
{
    level.checked_add(1).ok_or(NoMemory)
}

// Two spaces for each level.
fn put_indent(out: &mut String, level: usize) -> Result<(), NoMemory>
    ensures { OnOk result (string_bytes out.new ≡ string_bytes out.old ++ replicate (2 * level) 32) }
{
    'levels: for _ in 0..level {
        out.push_str("  ")?;
    }
    Ok(())
}
