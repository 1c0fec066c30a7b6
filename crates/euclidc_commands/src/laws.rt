ghost use Rattle.euclidc_commands.specs.Laws.{ReachedLaw, NeverLaw, EnoughLaw, SameReadLaw, PaymentLaw, CertificateLaw};

use key_table::atom_law;
use rule_problem::{bound_law, proof_law, reading_law};

/// A payment that is found on a target reaches it: it is allowed by the settings, and on it that very rule, or the default,
/// decides.
pub fn reached_law()
    ensures { ReachedLaw }
{}

/// Where a certificate is found on a target, no payment whatever reaches it.
pub fn never_law()
    ensures { NeverLaw }
{
    proof_law();
}

/// With a budget of at least `2^a - 1` splits a target is not left open, where `a` is the number of different atoms in its rule,
/// the rules before it and the settings.
pub fn enough_law()
    ensures { EnoughLaw }
{
    atom_law();
    bound_law();
}

/// A payment that is found on a target, put in a file, is read by `decide` as itself, and decided by that target: where it has
/// at most 1,048,576 bytes, and no key more than 4,096 sub names. So it is of what `report` and of what `prove` reads.
pub fn payment_law()
    ensures same { SameReadLaw }
    ensures payment { PaymentLaw }
{}

/// A certificate that is found on a target with a budget of at most 65,536 splits, put in a file of at most 16,777,216 bytes,
/// is accepted by `check` on that target.
pub fn certificate_law()
    ensures { CertificateLaw }
{
    reading_law();
}
