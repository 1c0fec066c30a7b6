ghost use Rattle.euclid_grammar.specs.Laws.{QuotedLaw, LimitsLaw};

/// The tree that a program has with its rules' names in quotes says that program.
pub fn quoted_law()
    ensures { QuotedLaw }
{}

/// A tree of the grammar is within the limits, token by token, exactly where its program is.
pub fn limits_law()
    ensures { LimitsLaw }
{}
