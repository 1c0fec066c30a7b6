ghost use Rattle.rule_report.specs.Reaching.{ReachesLaw};

use vir_lowering::keeps_law;

/// The problem of a target, whose goal is that of the graph of some settings, is satisfied exactly by the allowed payments,
/// which are legal and which the settings take, on which that very rule, or the default, decides.
pub fn reaches_law()
    ensures { ReachesLaw }
{
    keeps_law();
}
