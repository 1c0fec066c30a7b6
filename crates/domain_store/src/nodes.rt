ghost use Rattle.std.specs.Prelude.{◌≡◌, ◌<◌, length, slice_get, false, IfSome, IfOk};
ghost use Rattle.key_table.specs.Contexts.{wanted};
ghost use Rattle.key_table.specs.declared.atom.Atom.{Atom};
ghost use Rattle.key_table.specs.declared.atom.Verdict3.{Verdict3};
ghost use Rattle.constraint_graph.specs.Logics.{three_valued, every, some, lesser, greater};
ghost use Rattle.constraint_graph.specs.Values.{carried, node_value, values};
ghost use Rattle.domain_store.specs.NodeVerdicts.{Gives};

use constraint_graph::{Edge, Graph, Relation};
use key_table::{NoMemory, Verdict3};
use std::alloc::Global;

/// The verdict of each node, by the verdict of each test node's own atom.
pub(crate) fn node_verdicts(
    alloc: Global,
    graph: &Graph,
    own: &[Verdict3],
) -> Result<Vec<Verdict3>, NoMemory>
    requires { length own.now ≡ length graph.now }
    ensures count { IfOk result (λ verdicts. length verdicts.items ≡ length graph.now) }
    ensures values { IfOk result (λ verdicts. (says : Atom → Verdict3) → Gives graph.now own.now says → verdicts.items ≡ values three_valued says graph.now) }
{
    let mut verdicts = Vec::with_capacity(alloc, own.len())?;
    for node in 0..graph.count() {
        let verdict = node_verdict(graph, node, own[node as usize], &verdicts);
        verdicts.push(verdict)?;
    }
    Ok(verdicts)
}

// The verdict of a node, by that of its own atom, where it has one, and those of the nodes before it.
fn node_verdict(graph: &Graph, node: u32, own: Verdict3, before: &[Verdict3]) -> Verdict3
    requires { node < length graph.now }
    ensures { IfSome (slice_get graph.now node) (λ n. result ≡ node_value three_valued (λ (atom : Atom). own) before.now n) }
{
    let edges = graph.incoming(node);
    if graph.atom(node).is_some() {
        if edges.is_empty() {
            own
        } else {
            lesser(own, greatest(edges, before))
        }
    } else if graph.is_all(node) {
        least(edges, before)
    } else {
        greatest(edges, before)
    }
}

// The least verdict that the edges carry, entailed where there is none.
fn least(edges: &[Edge], before: &[Verdict3]) -> Verdict3
    ensures { result ≡ every three_valued (carried three_valued before.now) edges.now }
{
    let mut least = Verdict3::Entailed;
    for edge in edges {
        least = lesser(least, carried(edge, before));
    }
    least
}

// The greatest verdict that the edges carry, refuted where there is none.
fn greatest(edges: &[Edge], before: &[Verdict3]) -> Verdict3
    ensures { result ≡ some three_valued (carried three_valued before.now) edges.now }
{
    let mut greatest = Verdict3::Refuted;
    for edge in edges {
        greatest = greater(greatest, carried(edge, before));
    }
    greatest
}

// A positive edge carries the verdict of its source, a negative one the opposite.
fn carried(edge: &Edge, before: &[Verdict3]) -> Verdict3
    ensures { result ≡ carried three_valued before.now edge.now }
{
    let source = before
        .get(edge.from as usize)
        .copied()
        .unwrap_or(Verdict3::Refuted);
    match edge.relation {
        Relation::Positive => source,
        Relation::Negative => opposite(source),
    }
}

/// The verdict of what is wanted false.
pub(crate) fn opposite(verdict: Verdict3) -> Verdict3
    ensures { result ≡ wanted false verdict }
{
    match verdict {
        Verdict3::Entailed => Verdict3::Refuted,
        Verdict3::Refuted => Verdict3::Entailed,
        Verdict3::Undecided => Verdict3::Undecided,
    }
}

/// The lesser of two verdicts, in the order refuted, undecided, entailed.
pub(crate) fn lesser(one: Verdict3, other: Verdict3) -> Verdict3
    ensures { result ≡ lesser one other }
{
    match (one, other) {
        (Verdict3::Refuted, _) | (_, Verdict3::Refuted) => Verdict3::Refuted,
        (Verdict3::Undecided, _) => Verdict3::Undecided,
        (Verdict3::Entailed, other) => other,
    }
}

// The greater of two verdicts in that order.
fn greater(one: Verdict3, other: Verdict3) -> Verdict3
    ensures { result ≡ greater one other }
{
    match (one, other) {
        (Verdict3::Entailed, _) | (_, Verdict3::Entailed) => Verdict3::Entailed,
        (Verdict3::Undecided, _) => Verdict3::Undecided,
        (Verdict3::Refuted, other) => other,
    }
}
