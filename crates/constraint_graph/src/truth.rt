ghost use Rattle.std.specs.Prelude.{◌≡◌, ◌<◌, length, IfOk};
ghost use Rattle.std.specs.List.{list_all, list_any};
ghost use Rattle.key_table.specs.Options.{holds_on};
ghost use Rattle.constraint_graph.specs.Logics.{two_valued};
ghost use Rattle.constraint_graph.specs.Values.{carried, node_value, values, holds};

use crate::node::{Gate, Node};
use crate::{Edge, Graph, Relation};
use key_table::{NoMemory, Payment, atom_holds};
use std::alloc::Global;

/// Whether the node holds of the payment. A test node holds where its test does and, where edges lead to it, some of them
/// is satisfied; an all node where each edge to it is satisfied; an any node where some is. A positive edge is satisfied
/// where its source holds, a negative one where it does not.
pub fn holds(alloc: Global, graph: &Graph, node: u32, payment: &Payment) -> Result<bool, NoMemory>
    requires { node < length graph.now }
    ensures { IfOk result (λ truth. truth ≡ holds graph.now payment.now node) }
{
    let truths = truths(alloc, graph.nodes(), payment)?;
    Ok(truths[node as usize])
}

// Whether each node holds of the payment, in the order of the nodes.
fn truths(alloc: Global, nodes: &[Node], payment: &Payment) -> Result<Vec<bool>, NoMemory>
    ensures { IfOk result (λ truths. truths.items ≡ values two_valued (λ atom. holds_on atom payment.now) nodes.now) }
{
    let mut truths = Vec::with_capacity(alloc, nodes.len())?;
    for node in nodes {
        let truth = node_holds(node, &truths, payment);
        truths.push(truth)?;
    }
    Ok(truths)
}

// Whether a node holds of the payment, by whether the nodes before it do.
#[tactic(auto, using(crate::specs::TwoValues::every_is_list_all, crate::specs::TwoValues::some_is_list_any))]
fn node_holds(node: &Node, before: &[bool], payment: &Payment) -> bool
    ensures { result ≡ node_value two_valued (λ atom. holds_on atom payment.now) before.now node.now }
{
    let edges = node.incoming.as_slice();
    match &node.gate {
        Gate::Test(atom) => {
            atom_holds(atom, payment) && (edges.is_empty() || some_satisfied(edges, before))
        }
        Gate::All => every_satisfied(edges, before),
        Gate::Any => some_satisfied(edges, before),
    }
}

fn every_satisfied(edges: &[Edge], before: &[bool]) -> bool
    ensures { result ≡ list_all (carried two_valued before.now) edges.now }
{
    edges.iter().all(|edge| is_satisfied(edge, before))
}

fn some_satisfied(edges: &[Edge], before: &[bool]) -> bool
    ensures { result ≡ list_any (carried two_valued before.now) edges.now }
{
    edges.iter().any(|edge| is_satisfied(edge, before))
}

// A positive edge is satisfied where its source holds, a negative one where it does not.
fn is_satisfied(edge: &Edge, before: &[bool]) -> bool
    ensures { result ≡ carried two_valued before.now edge.now }
{
    let source = before.get(edge.from as usize).copied().unwrap_or(false);
    match edge.relation {
        Relation::Positive => source,
        Relation::Negative => !source,
    }
}
