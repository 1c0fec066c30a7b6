ghost use Rattle.constraint_graph.specs.Laws.{AgreeLaw, MoreLaw, UndecidedLaw, TotalLaw, SoundLaw};

/// Verdicts that agree on the graph's atoms give each node the same verdict.
pub fn agree_law()
    ensures { AgreeLaw }
{}

/// Where more becomes known of the graph's atoms, a node that is decided keeps its verdict.
pub fn more_law()
    ensures { MoreLaw }
{}

/// Where a node is undecided, one of the graph's atoms is.
pub fn undecided_law()
    ensures { UndecidedLaw }
{}

/// Where all is known of the atoms, a node's verdict is whether it holds.
pub fn total_law()
    ensures { TotalLaw }
{}

/// Where verdicts on the graph's atoms agree with a payment, so do those on the nodes: what is entailed holds, and what is
/// refuted does not.
pub fn sound_law()
    ensures { SoundLaw }
{}
