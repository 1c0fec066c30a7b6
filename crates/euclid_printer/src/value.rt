//! Comparisons and their values.

ghost use Rattle.std.specs.Prelude.{◌≡◌};
ghost use Rattle.euclid_lexer.specs.Signs.{sign_text};
ghost use Rattle.euclid_grammar.specs.Grammar.{op_sign};

use crate::print::{Print, put_list};
use euclid_ast::{Comparison, NumberTest, ValueForm};
use key_table::{NoMemory, Op, Text};

impl Print for i64 {
    ghost use Rattle.euclid_lexer.specs.Pieces.{text_of};
    ghost use Rattle.euclid_printer.specs.Values.{number_item};

    ghost text = { λ z. text_of (number_item z) };

    fn print(&self, out: &mut String) -> Result<(), NoMemory> {
        let number = *self;
        write!(out, "{number}")?;
        Ok(())
    }
}

/// The name of a variant.
impl Print for Text {
    ghost use Rattle.euclid_lexer.specs.Pieces.{text_of};
    ghost use Rattle.euclid_printer.specs.Values.{variant_item};

    ghost text = { λ w. text_of (variant_item w) };

    fn print(&self, out: &mut String) -> Result<(), NoMemory> {
        out.push_str(self.as_str())?;
        Ok(())
    }
}

impl Print for NumberTest {
    ghost use Rattle.euclid_lexer.specs.Pieces.{text_of};
    ghost use Rattle.euclid_printer.specs.Values.{test_item};

    ghost text = { λ t. text_of (test_item t) };

    fn print(&self, out: &mut String) -> Result<(), NoMemory> {
        let number = self.number;
        write!(out, "{} {number}", op_text(self.op))?;
        Ok(())
    }
}

impl Print for ValueForm {
    ghost use Rattle.euclid_lexer.specs.Pieces.{text_of};
    ghost use Rattle.euclid_printer.specs.Values.{value_pieces};

    ghost text = { λ v. text_of (value_pieces v) };

    fn print(&self, out: &mut String) -> Result<(), NoMemory> {
        match self {
            ValueForm::Number(number) => number.print(out)?,
            ValueForm::Variant(name) => name.print(out)?,
            ValueForm::Metadata { key, value } => {
                write!(out, "\"{}\" : \"{}\"", key.as_str(), value.as_str())?
            }
            ValueForm::Str(text) => write!(out, "\"{}\"", text.as_str())?,
            ValueForm::Numbers(numbers) => put_list(out, "(", numbers.as_slice(), ")")?,
            ValueForm::Variants(names) => put_list(out, "(", names.as_slice(), ")")?,
            ValueForm::NumberTests(tests) => put_list(out, "(", tests.as_slice(), ")")?,
        }
        Ok(())
    }
}

impl Print for Comparison {
    ghost use Rattle.euclid_lexer.specs.Pieces.{text_of};
    ghost use Rattle.euclid_printer.specs.Layout.{comparison_pieces};

    ghost text = { λ c. text_of (comparison_pieces c) };

    fn print(&self, out: &mut String) -> Result<(), NoMemory> {
        write!(out, "{} {} ", self.lhs.as_str(), op_text(self.op))?;
        self.value.print(out)
    }
}

fn op_text(op: Op) -> &'static str
    ensures { result.now ≡ sign_text (op_sign op) }
{
    match op {
        Op::Equal => "=",
        Op::NotEqual => "/=",
        Op::Less => "<",
        Op::LessEqual => "<=",
        Op::Greater => ">",
        Op::GreaterEqual => ">=",
    }
}
