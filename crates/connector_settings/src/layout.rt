ghost use Rattle.std.specs.Prelude.{◌≡◌, ◌+◌, ◌*◌, ◌<◌, ◌≤◌, ◌++◌, ◌∷◌, [], length, map, fold, true, IfOk, OnOk};
ghost use Rattle.std.specs.List.{All};
ghost use Rattle.constraint_graph.specs.Graphs.{edge_count, with_edge};
ghost use Rattle.connector_settings.specs.Demands.{demands_of};
ghost use Rattle.connector_settings.specs.Fit.{settings_fit};
ghost use Rattle.connector_settings.specs.Layout.{edges_from, test_node, all_node, any_node, planned, with_demands, method_step, with_entries, connector_step};
ghost use Rattle.connector_settings.specs.Weights.{weight, plan_weight, method_weight, methods_weight, connector_weight, connectors_weight};
ghost use Rattle.connector_settings.specs.GraphOf.{IsGraphOf, IsMadeWith};

use crate::demand::{Demand, demands};
use crate::keys::Keys;
use crate::{Connector, Method, Settings, TypeEntry};
use constraint_graph::{Builder, Edge, Graph, Relation};
use key_table::{KeyTable, NoMemory, Seq, Slot, Stop};
use std::alloc::Global;

/// The graph of some settings: the node that holds exactly where they take a payment, and for each connector, in order, the
/// node that holds exactly where that connector does.
#[derive(Debug, Drop)]
pub struct ConnectorGraph {
    pub graph: Graph,
    pub goal: u32,
    pub per_connector: Seq<u32>,
}

/// The graph of settings, which fit the table. Its goal holds of a payment exactly where the settings take it, and the node of
/// each connector exactly where that connector does; what is known of these nodes is what is known of that. The atoms of
/// its test nodes are those of the type entries of connectors that are not disabled, and each of them fits the table. It is
/// refused for want of memory alone: all settings that fit leave room for their nodes and edges.
pub fn graph_of(
    alloc: Global,
    table: &KeyTable,
    settings: &Settings,
) -> Result<ConnectorGraph, NoMemory>
    requires { settings_fit table.now settings.now ≡ true }
    ensures graph { IfOk result (λ g. IsGraphOf table.now settings.now g) }
    ensures made_with { IfOk result (λ g. IsMadeWith table.now g) }
{
    let keys = Keys::of(table);
    let mut builder = Builder::new(alloc);
    let per_connector = add_connectors(alloc, &mut builder, keys, settings.connectors.as_slice())?;
    let goal = add_any(&mut builder, per_connector.as_slice())?;
    Ok(ConnectorGraph {
        graph: builder.finish(),
        goal,
        per_connector,
    })
}

// Adds the nodes of all connectors, and gives those that stand for one each.
fn add_connectors(
    alloc: Global,
    builder: &mut Builder,
    keys: Keys,
    connectors: &[Connector],
) -> Result<Seq<u32>, NoMemory>
    requires { weight builder.old + connectors_weight connectors.now ≤ 524288 }
    ensures { IfOk result (λ roots. planned builder.new roots ≡ fold (connector_step keys) (planned builder.old []) connectors.now) }
{
    let mut roots = Seq::new(alloc);
    for connector in connectors {
        let root = add_connector(alloc, builder, keys, connector)?;
        roots.push(root)?;
    }
    Ok(roots)
}

// Adds the nodes of one connector. The last is an any node over its entries, of which a disabled one has none.
fn add_connector(
    alloc: Global,
    builder: &mut Builder,
    keys: Keys,
    connector: &Connector,
) -> Result<u32, NoMemory>
    requires { weight builder.old + connector_weight connector.now ≤ 524288 }
    ensures number { IfOk result (λ root. root ≡ length (with_entries keys builder.old connector.now).nodes) }
    ensures nodes { OnOk result (builder.new ≡ (with_entries keys builder.old connector.now).nodes ++ any_node (with_entries keys builder.old connector.now).roots ∷ []) }
{
    let roots = add_inside(alloc, builder, keys, connector)?;
    add_any(builder, &roots)
}

// Adds the nodes of a connector's entries, and gives those that stand for one each.
fn add_inside(
    alloc: Global,
    builder: &mut Builder,
    keys: Keys,
    connector: &Connector,
) -> Result<Vec<u32>, NoMemory>
    requires { weight builder.old + connector_weight connector.now ≤ 524288 }
    ensures { IfOk result (λ roots. planned builder.new roots.items ≡ with_entries keys builder.old connector.now) }
{
    let mut roots = Vec::new(alloc);
    if connector.disabled {
        return Ok(roots);
    }
    add_methods(
        alloc,
        builder,
        &mut roots,
        keys,
        connector.methods.as_slice(),
    )?;
    Ok(roots)
}

fn add_methods(
    alloc: Global,
    builder: &mut Builder,
    roots: &mut Vec<u32>,
    keys: Keys,
    methods: &[Method],
) -> Result<(), NoMemory>
    requires { plan_weight (planned builder.old roots.old.items) + methods_weight methods.now ≤ 524288 }
    ensures { OnOk result (planned builder.new roots.new.items ≡ fold (method_step keys) (planned builder.old roots.old.items) methods.now) }
{
    for method in methods {
        add_entries(alloc, builder, roots, keys, method)?;
    }
    Ok(())
}

fn add_entries(
    alloc: Global,
    builder: &mut Builder,
    roots: &mut Vec<u32>,
    keys: Keys,
    method: &Method,
) -> Result<(), NoMemory>
    requires { plan_weight (planned builder.old roots.old.items) + method_weight method.now ≤ 524288 }
    ensures { OnOk result (planned builder.new roots.new.items ≡ method_step keys (planned builder.old roots.old.items) method.now) }
{
    for entry in method.types.as_slice() {
        let root = add_entry(alloc, builder, keys, method.method, entry)?;
        roots.push(root)?;
    }
    Ok(())
}

// Adds a node for each thing that an entry asks, and an all node over them.
fn add_entry(
    alloc: Global,
    builder: &mut Builder,
    keys: Keys,
    method: u32,
    entry: &TypeEntry,
) -> Result<u32, NoMemory>
    requires { weight builder.old + 89 ≤ 524288 }
    ensures number { IfOk result (λ root. root ≡ length builder.old + length (demands_of keys method entry.now)) }
    ensures nodes { OnOk result (builder.new ≡ with_demands builder.old (demands_of keys method entry.now)) }
{
    let demands = demands(alloc, keys, method, entry)?;
    let edges = add_tests(alloc, builder, demands)?;
    add_all(builder, &edges)
}

// Adds a test node for each demand, and gives the edges to a node that asks for all.
fn add_tests(
    alloc: Global,
    builder: &mut Builder,
    demands: Vec<Demand>,
) -> Result<Vec<Edge>, NoMemory>
    requires { length builder.old + length demands.items ≤ 65536 }
    ensures edges { IfOk result (λ edges. edges.items ≡ edges_from (length builder.old) demands.items) }
    ensures nodes { OnOk result (builder.new ≡ builder.old ++ map test_node demands.items) }
{
    let mut edges = Vec::new(alloc);
    for demand in demands {
        let relation = if demand.truth {
            Relation::Positive
        } else {
            Relation::Negative
        };
        let from = add_test(builder, demand)?;
        edges.push(Edge { from, relation })?;
    }
    Ok(edges)
}

fn add_test(builder: &mut Builder, demand: Demand) -> Result<u32, NoMemory>
    requires { length builder.old < 65536 }
    ensures number { IfOk result (λ number. number ≡ length builder.old) }
    ensures nodes { OnOk result (builder.new ≡ builder.old ++ test_node demand ∷ []) }
{
    let slot = Slot {
        key: demand.key,
        sub: None,
    };
    match builder.in_set(slot, demand.tests) {
        Ok(number) => Ok(number),
        Err(Stop::Memory) => Err(NoMemory),
        Err(Stop::Fault(_)) => unreachable!(),
    }
}

// Adds an all node with these edges.
fn add_all(builder: &mut Builder, edges: &[Edge]) -> Result<u32, NoMemory>
    requires nodes { length builder.old < 65536 }
    requires edges { edge_count builder.old + length edges.now ≤ 524288 }
    requires lower { All (λ e. e.from < length builder.old) edges.now }
    ensures number { IfOk result (λ number. number ≡ length builder.old) }
    ensures nodes { OnOk result (builder.new ≡ builder.old ++ all_node edges.now ∷ []) }
{
    let number = match builder.all() {
        Ok(number) => number,
        Err(Stop::Memory) => return Err(NoMemory),
        Err(Stop::Fault(_)) => unreachable!(),
    };
    for edge in edges {
        add_edge(builder, number, *edge)?;
    }
    Ok(number)
}

// Adds an any node over these nodes.
fn add_any(builder: &mut Builder, sources: &[u32]) -> Result<u32, NoMemory>
    requires nodes { length builder.old < 65536 }
    requires edges { edge_count builder.old + length sources.now ≤ 524288 }
    requires lower { All (λ n. n < length builder.old) sources.now }
    ensures number { IfOk result (λ number. number ≡ length builder.old) }
    ensures nodes { OnOk result (builder.new ≡ builder.old ++ any_node sources.now ∷ []) }
{
    let number = match builder.any() {
        Ok(number) => number,
        Err(Stop::Memory) => return Err(NoMemory),
        Err(Stop::Fault(_)) => unreachable!(),
    };
    for source in sources {
        let edge = Edge {
            from: *source,
            relation: Relation::Positive,
        };
        add_edge(builder, number, edge)?;
    }
    Ok(number)
}

fn add_edge(builder: &mut Builder, to: u32, edge: Edge) -> Result<(), NoMemory>
    requires within { to < length builder.old }
    requires lower { edge.from < to }
    requires room { edge_count builder.old < 524288 }
    ensures { OnOk result (builder.new ≡ with_edge builder.old to edge) }
{
    match builder.edge(edge.from, to, edge.relation) {
        Ok(()) => Ok(()),
        Err(Stop::Memory) => Err(NoMemory),
        Err(Stop::Fault(_)) => unreachable!(),
    }
}
