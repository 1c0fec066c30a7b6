ghost use Rattle.certificate_text.specs.Laws.{ReadsBackLaw, OneSpellingLaw, PrefixLaw, WrittenPrefixLaw};

/// What was written within the limits reads back as the same.
pub fn reads_back_law()
    ensures { ReadsBackLaw }
{}

/// Each certificate has one spelling: what reads as a certificate is its text.
pub fn one_spelling_law()
    ensures { OneSpellingLaw }
{}

/// A proper prefix of what reads, or of what was written within the limits, is refused as unended, on the line after its
/// last line feed.
pub fn prefix_law()
    ensures reads { PrefixLaw }
    ensures written { WrittenPrefixLaw }
{}
