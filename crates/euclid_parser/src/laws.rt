ghost use Rattle.euclid_parser.specs.TextFiles.{TextLaw};

use euclid_lexer::written_law;

/// A text has exactly one right answer: its program, or its first fault.
pub fn text_law()
    ensures { TextLaw }
{
    written_law();
}
