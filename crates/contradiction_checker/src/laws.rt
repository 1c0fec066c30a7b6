ghost use Rattle.contradiction_checker.specs.Representatives.{RepresentativesLaw};
ghost use Rattle.contradiction_checker.specs.Laws.{TriesLaw};

/// Of the options of a slot, few stand for all: absence, each variant, the least number, the number of each test and the
/// one above it, the text of each test, and one text that no test names. On one of these that may stand there the same
/// tests are true as on any given option.
pub fn representatives_law()
    ensures { RepresentativesLaw }
{}

/// Whether one of the few options that are tried has a truth under assumptions is whether any option has it.
pub fn tries_law()
    ensures { TriesLaw }
{}
