ghost use Rattle.std.specs.Prelude.{◌≡◌, ◌≤◌, ◌<◌, length, vec_len, vec_capacity, slice_get, option_map, Some, false};
ghost use Rattle.constraint_graph.specs.declared.node.Gate.{Gate};
ghost use Rattle.constraint_graph.specs.Logics.{lesser, greater, three_valued, every, some};
ghost use Rattle.constraint_graph.specs.Values.{carried, gate_value, node_value, values, verdict};
ghost use Rattle.key_table.specs.Contexts.{wanted};
ghost use Rattle.contradiction_checker.specs.Assumed.{premises_of};
ghost use Rattle.contradiction_checker.specs.Decisions.{atom_verdict, is_refuted};
ghost use Rattle.contradiction_checker.specs.Findings.{AreFound, IsFoundAt, KeepsFound, test_at};
ghost use Rattle.contradiction_checker.specs.Trails.{IsLinked};

use crate::finding::Finding;
use crate::options::Assumed;
use crate::premises::Premises;
use crate::trail::keep;
use constraint_graph::{Edge, Graph, Relation};
use key_table::{Atom, Verdict3};

// The lesser of two verdicts, in the order refuted, undecided, entailed.
fn lesser(one: Verdict3, other: Verdict3) -> Verdict3
    ensures { result ≡ lesser one other }
{
    match (one, other) {
        (Verdict3::Refuted, _) | (_, Verdict3::Refuted) => Verdict3::Refuted,
        (Verdict3::Entailed, Verdict3::Entailed) => Verdict3::Entailed,
        _ => Verdict3::Undecided,
    }
}

// The greater of two verdicts.
fn greater(one: Verdict3, other: Verdict3) -> Verdict3
    ensures { result ≡ greater one other }
{
    match (one, other) {
        (Verdict3::Entailed, _) | (_, Verdict3::Entailed) => Verdict3::Entailed,
        (Verdict3::Refuted, Verdict3::Refuted) => Verdict3::Refuted,
        _ => Verdict3::Undecided,
    }
}

// The verdict with entailed and refuted exchanged.
fn exchanged(verdict: Verdict3) -> Verdict3
    ensures { result ≡ wanted false verdict }
{
    match verdict {
        Verdict3::Entailed => Verdict3::Refuted,
        Verdict3::Refuted => Verdict3::Entailed,
        Verdict3::Undecided => Verdict3::Undecided,
    }
}

// What an edge carries: the verdict of its source, or that verdict exchanged.
fn carried(edge: &Edge, before: &[Verdict3]) -> Verdict3
    ensures { result ≡ carried three_valued before.now edge.now }
{
    let source = before
        .get(edge.from as usize)
        .copied()
        .unwrap_or(Verdict3::Refuted);
    match edge.relation {
        Relation::Positive => source,
        Relation::Negative => exchanged(source),
    }
}

fn every_carried(edges: &[Edge], before: &[Verdict3]) -> Verdict3
    ensures { result ≡ every three_valued (carried three_valued before.now) edges.now }
{
    let mut least = Verdict3::Entailed;
    for edge in edges {
        least = lesser(least, carried(edge, before));
        if least == Verdict3::Refuted {
            return least;
        }
    }
    least
}

fn some_carried(edges: &[Edge], before: &[Verdict3]) -> Verdict3
    ensures { result ≡ some three_valued (carried three_valued before.now) edges.now }
{
    let mut greatest = Verdict3::Refuted;
    for edge in edges {
        greatest = greater(greatest, carried(edge, before));
        if greatest == Verdict3::Entailed {
            return greatest;
        }
    }
    greatest
}

// Each call here writes over what stands in `mine`.
impl<'a> Premises<'a> {
    // The verdict of a test node, of whose atom something may have been found before.
    fn test_verdict(
        &self,
        atom: &Atom,
        node: u32,
        edges: &[Edge],
        before: &[Verdict3],
        findings: &mut Vec<Finding>,
        mine: &mut Vec<Assumed>,
    ) -> Verdict3
        requires linked { IsLinked self.now.atoms.now self.now.trail.now }
        requires room { vec_len self.now.trail.now.assumed ≤ vec_capacity mine.old }
        requires before { IsFoundAt self.now.table.now self.now.atoms.now self.now.trail.now atom.now node findings.old.items }
        ensures value { result ≡ gate_value three_valued (atom_verdict self.now.table.now (premises_of self.now)) (carried three_valued before.now) (Gate.Test atom.now) edges.now }
        ensures found { KeepsFound self.now.table.now self.now.atoms.now self.now.trail.now atom.now node findings.old.items findings.new.items }
        ensures room { vec_capacity mine.old ≤ vec_capacity mine.new }
        ensures room_for_findings { vec_capacity findings.old ≤ vec_capacity findings.new }
    {
        let own = self.verdict_at(atom, node as usize, findings, mine);
        if edges.is_empty() {
            return own;
        }
        lesser(own, some_carried(edges, before))
    }

    // The verdict of a node, by those of the nodes before it.
    fn node_verdict(
        &self,
        graph: &Graph,
        node: u32,
        before: &[Verdict3],
        findings: &mut Vec<Finding>,
        mine: &mut Vec<Assumed>,
    ) -> Verdict3
        requires node { node < length graph.now }
        requires linked { IsLinked self.now.atoms.now self.now.trail.now }
        requires room { vec_len self.now.trail.now.assumed ≤ vec_capacity mine.old }
        requires found { AreFound self.now.table.now self.now.atoms.now self.now.trail.now (test_at graph.now) findings.old.items }
        ensures value { option_map (node_value three_valued (atom_verdict self.now.table.now (premises_of self.now)) before.now) (slice_get graph.now node) ≡ Some result }
        ensures found { AreFound self.now.table.now self.now.atoms.now self.now.trail.now (test_at graph.now) findings.new.items }
        ensures room { vec_capacity mine.old ≤ vec_capacity mine.new }
        ensures room_for_findings { vec_capacity findings.old ≤ vec_capacity findings.new }
    {
        let edges = graph.incoming(node);
        if let Some(atom) = graph.atom(node) {
            return self.test_verdict(atom, node, edges, before, findings, mine);
        }
        if graph.is_all(node) {
            every_carried(edges, before)
        } else {
            some_carried(edges, before)
        }
    }

    // Leaves in `verdicts` the verdicts of the nodes, in their order.
    fn judge_nodes(
        &self,
        graph: &Graph,
        findings: &mut Vec<Finding>,
        mine: &mut Vec<Assumed>,
        verdicts: &mut Vec<Verdict3>,
    )
        requires linked { IsLinked self.now.atoms.now self.now.trail.now }
        requires on_slot { vec_len self.now.trail.now.assumed ≤ vec_capacity mine.old }
        requires nodes { length graph.now ≤ vec_capacity verdicts.old }
        requires found { AreFound self.now.table.now self.now.atoms.now self.now.trail.now (test_at graph.now) findings.old.items }
        ensures value { verdicts.new.items ≡ values three_valued (atom_verdict self.now.table.now (premises_of self.now)) graph.now }
        ensures found { AreFound self.now.table.now self.now.atoms.now self.now.trail.now (test_at graph.now) findings.new.items }
        ensures room { vec_capacity mine.old ≤ vec_capacity mine.new }
        ensures room_for_nodes { vec_capacity verdicts.old ≤ vec_capacity verdicts.new }
        ensures room_for_findings { vec_capacity findings.old ≤ vec_capacity findings.new }
    {
        verdicts.clear();
        for node in 0..graph.count() {
            let verdict = self.node_verdict(graph, node, verdicts, findings, mine);
            keep(verdicts, verdict);
        }
    }

    /// Whether the verdict of a node of the graph is refuted, by what was found before of the nodes' atoms. What stands in
    /// `mine` and `verdicts` is lost.
    pub(crate) fn is_goal_refuted(
        &self,
        graph: &Graph,
        goal: u32,
        findings: &mut Vec<Finding>,
        mine: &mut Vec<Assumed>,
        verdicts: &mut Vec<Verdict3>,
    ) -> bool
        requires linked { IsLinked self.now.atoms.now self.now.trail.now }
        requires on_slot { vec_len self.now.trail.now.assumed ≤ vec_capacity mine.old }
        requires nodes { length graph.now ≤ vec_capacity verdicts.old }
        requires found { AreFound self.now.table.now self.now.atoms.now self.now.trail.now (test_at graph.now) findings.old.items }
        ensures value { result ≡ is_refuted (verdict (atom_verdict self.now.table.now (premises_of self.now)) graph.now goal) }
        ensures found { AreFound self.now.table.now self.now.atoms.now self.now.trail.now (test_at graph.now) findings.new.items }
        ensures room { vec_capacity mine.old ≤ vec_capacity mine.new }
        ensures room_for_nodes { vec_capacity verdicts.old ≤ vec_capacity verdicts.new }
        ensures room_for_findings { vec_capacity findings.old ≤ vec_capacity findings.new }
    {
        self.judge_nodes(graph, findings, mine, verdicts);
        let verdict = verdicts
            .get(goal as usize)
            .copied()
            .unwrap_or(Verdict3::Refuted);
        verdict == Verdict3::Refuted
    }
}
