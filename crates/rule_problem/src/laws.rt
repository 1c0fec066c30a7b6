ghost use Rattle.rule_problem.specs.ContextLaws.{AtomsFitLaw, GraphFitsLaw, GoalLaw, SettledLaw, LiveLaw, FoundLaw};
ghost use Rattle.rule_problem.specs.Laws.{OutcomeLaw, ProofLaw, ReadingLaw, TraceReadingLaw, SplitCountLaw, DropLaw, SplitsLaw, TraceLaw};

use constraint_graph::{agree_law, more_law, sound_law, undecided_law};
use key_table::{atom_law, forces_law, option_law, slot_law};

/// Where a problem fits, each of its atoms fits the table, and each atom of its graph is one of the problem's.
pub fn fits_law()
    ensures atoms { AtomsFitLaw }
    ensures graph { GraphFitsLaw }
{
    atom_law();
}

/// The goal has at most one verdict in a context.
pub fn goal_law()
    ensures { GoalLaw }
{
    agree_law();
}

/// A legal payment that has the truths of a settled context satisfies the problem.
pub fn settled_law()
    ensures { SettledLaw }
{
    option_law();
    slot_law();
    sound_law();
}

/// The items of a certificate come to one outcome.
pub fn outcome_law()
    ensures { OutcomeLaw }
{}

/// Where the items of a certificate prove on a problem that fits, no payment satisfies the problem, whoever made the
/// certificate.
pub fn proof_law()
    ensures { ProofLaw }
{
    option_law();
    slot_law();
    sound_law();
}

/// A tree that proves is read to its end, item by item, and its items prove. So is that of a trace, where gaps count as
/// leaves. The items have as many splits as their tree.
pub fn reading_law()
    ensures certificate { ReadingLaw }
    ensures trace { TraceReadingLaw }
    ensures count { SplitCountLaw }
{
    atom_law();
}

/// With fewer assumptions the proper splits of a tree stay proper.
pub fn drop_law()
    ensures { DropLaw }
{
    forces_law();
    atom_law();
    more_law();
}

/// A tree of proper splits has at most `2^a - 1` of them, where `a` is the number of the problem's atoms, and a trace is of a
/// smaller budget than that.
pub fn bound_law()
    ensures splits { SplitsLaw }
    ensures traces { TraceLaw }
{
    forces_law();
    atom_law();
    undecided_law();
}

/// An open context has a live atom: it cannot be that no atom is live, and where the verdict of each of the problem's atoms
/// is given, one that is live is found among them.
pub fn live_law()
    ensures some { LiveLaw }
    ensures found { FoundLaw }
{
    atom_law();
    undecided_law();
}
