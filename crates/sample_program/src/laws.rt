ghost use Rattle.sample_program.specs.Laws.{WithinLaw, CountLaw, TypedLaw, SettingsLaw, SmallLaw};

/// The program of each seed has 256 rules and is within the limits, so that it is read from its JSON.
pub fn within_law()
    ensures within { WithinLaw }
    ensures count { CountLaw }
{}

/// By the built-in table the program of each seed has no fault.
pub fn typed_law()
    ensures { TypedLaw }
{}

/// By the built-in table the text of the settings is read.
pub fn settings_law()
    ensures { SettingsLaw }
{}

/// A problem of a target of a seed's program under the settings has at most 11 atoms, one want and 256 bars.
pub fn small_law()
    ensures { SmallLaw }
{}
