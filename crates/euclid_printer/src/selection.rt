//! Selections.

ghost use Rattle.std.specs.Prelude.{◌≡◌};
ghost use Rattle.euclid_grammar.specs.Grammar.{secure_word};

use crate::print::{Print, put_list};
use euclid_ast::{Account, Selection, Share, ThreeDs};
use key_table::NoMemory;

impl Print for Account {
    ghost use Rattle.euclid_lexer.specs.Pieces.{text_of};
    ghost use Rattle.euclid_printer.specs.Values.{account_item};

    ghost text = { λ a. text_of (account_item a) };

    fn print(&self, out: &mut String) -> Result<(), NoMemory> {
        match &self.id {
            None => write!(out, "\"{}\"", self.connector.as_str())?,
            Some(id) => write!(out, "\"{}\" @ \"{}\"", self.connector.as_str(), id.as_str())?,
        }
        Ok(())
    }
}

impl Print for Share {
    ghost use Rattle.euclid_lexer.specs.Pieces.{text_of};
    ghost use Rattle.euclid_printer.specs.Values.{share_item};

    ghost text = { λ s. text_of (share_item s) };

    fn print(&self, out: &mut String) -> Result<(), NoMemory> {
        let split = self.split;
        self.account.print(out)?;
        write!(out, " % {split}")?;
        Ok(())
    }
}

impl Print for Selection {
    ghost use Rattle.euclid_lexer.specs.Pieces.{text_of};
    ghost use Rattle.euclid_printer.specs.Values.{selection_pieces};

    ghost text = { λ s. text_of (selection_pieces s) };

    fn print(&self, out: &mut String) -> Result<(), NoMemory> {
        match self {
            Selection::Priority(accounts) => put_list(out, "[", accounts.as_slice(), "]")?,
            Selection::Volume(shares) => put_list(out, "split [", shares.as_slice(), "]")?,
            Selection::SurchargeFixed(amount) => {
                out.push_str("surcharge ")?;
                amount.print(out)?
            }
            Selection::SurchargeRate(points) => {
                let points = *points;
                write!(out, "rate {points}")?
            }
            Selection::Auth(decision) => out.push_str(decision_text(*decision))?,
            Selection::Nothing => out.push_str("none")?,
        }
        Ok(())
    }
}

fn decision_text(decision: ThreeDs) -> &'static str
    ensures { result.now ≡ secure_word decision }
{
    match decision {
        ThreeDs::ThreeDs => "three_ds",
        ThreeDs::NoThreeDs => "no_three_ds",
    }
}
