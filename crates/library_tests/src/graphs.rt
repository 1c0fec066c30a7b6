//! Graphs: what a builder answers, what then stands in the graph, and which of its nodes hold.

use crate::cases::expanded;
use crate::values::{atom, payment, slot, test, tests};
use constraint_graph::{BuildError, Builder, Edge, Graph, Relation, holds};
use key_table::Stop;
use std::alloc::Global;
use std::test::Fail;

// What a builder answers to each call, and behind the dashes what is so of the graph. The answer is that to the last of calls
// that are made so many times: the number of a node, `ok` of an edge, or a code after a `!`. An edge goes from the node behind
// its sign to the other one. Of a graph the lines say how many nodes there are, the gate of a node and the edges to it, an atom
// that no node has, and for each node in order whether it holds of a payment.
const GRAPHS: &str = "0 value 0 variant:0
1 all
2 any
ok edge +0 1
!1 edge +1 0
!2 edge +0 7
!1 edge +1 1
--
count 3
0 any 0 variant:0 <-
1 all <- +0
2 any <-
holds ++- 0=variant:0
holds --- 0=variant:1
holds ---
===
!2 edge +0 0
0 value 0 variant:0
!2 edge +0 1
!2 edge +1 0
!2 edge +1 1
!2 edge +4294967295 4294967295
!1 edge +0 0
1 key 3/a
2 in 5 variant:0 variant:1
3 all
!2 edge +4 3
!2 edge -3 4
!1 edge +3 2
!1 edge -3 3
ok edge +0 3
ok edge -2 3
ok edge +2 3
!1 edge +3 0
!2 edge +9 0
4 any
ok edge -3 4
5 value 7 >=:5
ok edge +4 5
ok edge +0 5
ok edge -0 5
--
count 6
0 any 0 variant:0 <-
1 none 3/a <-
2 any 5 variant:0 variant:1 <-
3 all <- +0 -2 +2
4 any <- -3
5 any 7 >=:5 <- +4 +0 -0
lacks any 0 variant:1
lacks none 0 variant:0
lacks any 3/a
lacks any 5 variant:0
lacks any 5 variant:1 variant:0
lacks any 7 >:5
===
0 value 0 variant:0
1 key 7
2 in 5 variant:0 variant:1
3 in 5
4 all
5 any
6 all
7 any
8 all
9 any
10 value 7 >:5
11 key 7
12 in 5 variant:0
13 any
ok edge +0 6
ok edge +2 6
ok edge +0 7
ok edge +2 7
ok edge -0 8
ok edge -0 9
ok edge -2 9
ok edge +0 10
ok edge -2 10
ok edge +5 11
ok edge -5 12
ok edge +6 13
ok edge -7 13
--
holds +++-+-++--+--+ 0=variant:0;5=variant:1;7=number:6
holds ----+---++---+
holds -++-+--+++--+- 0=variant:1;5=variant:0;7=number:6
holds ++--+--+-+---- 0=variant:0;7=number:5
holds -+--+---+++--+ 7=number:6
===
0 value 0 variant:0
65535 65535 times any
!3 all
!3 any
!3 key 1
!3 value 1 variant:0
!3 in 2 variant:0
!2 edge +0 65536
!1 edge +65535 0
ok edge +0 65535
--
count 65536
65535 any <- +0
lacks none 1
lacks any 1 variant:0
lacks any 2 variant:0
===
0 all
1 any
ok 524288 times edge +0 1
!3 edge +0 1
!3 edge -0 1
!2 edge +0 2
!2 edge +2 0
!1 edge +1 0
!1 edge +1 1
2 all
!3 edge +1 2
--
count 3
0 all <-
1 any <-|524288* +0|
2 all <-
holds +++";

fn edge(word: &str) -> Option<Edge> {
    let (relation, number) = match word.strip_prefix('-') {
        Some(number) => (Relation::Negative, number),
        None => (Relation::Positive, word.strip_prefix('+')?),
    };
    Some(Edge {
        from: number.parse().ok()?,
        relation,
    })
}

fn add_edge(builder: &mut Builder, words: &str) -> Option<Result<(), Stop<BuildError>>> {
    let (word, to) = words.split_once(' ')?;
    let Edge { from, relation } = edge(word)?;
    Some(builder.edge(from, to.parse().ok()?, relation))
}

fn add_node(
    alloc: Global,
    builder: &mut Builder,
    call: &str,
) -> Option<Result<u32, Stop<BuildError>>> {
    let (name, rest) = call.split_once(' ').unwrap_or((call, ""));
    let (place, words) = rest.split_once(' ').unwrap_or((rest, ""));
    Some(match name {
        "all" => builder.all(),
        "any" => builder.any(),
        "key" => builder.key(slot(alloc, place)?),
        "value" => builder.value(slot(alloc, place)?, test(alloc, words)?),
        _ => builder.in_set(slot(alloc, place)?, tests(alloc, words)?),
    })
}

fn refusal(alloc: Global, stop: Stop<BuildError>) -> Option<String> {
    match stop {
        Stop::Memory => None,
        Stop::Fault(BuildError { code }) => format!(in alloc; "!{code}").ok(),
    }
}

/// What the builder answers to a call: the number of a node, `ok` of an edge, or a code after a `!`.
pub(crate) fn answer(alloc: Global, builder: &mut Builder, call: &str) -> Option<String> {
    if let Some(words) = call.strip_prefix("edge ") {
        return match add_edge(builder, words)? {
            Ok(()) => String::from_str(alloc, "ok").ok(),
            Err(stop) => refusal(alloc, stop),
        };
    }
    match add_node(alloc, builder, call)? {
        Ok(number) => number.to_string(alloc).ok(),
        Err(stop) => refusal(alloc, stop),
    }
}

// What it answers to the last of the calls of a line.
fn last_answer(alloc: Global, builder: &mut Builder, line: &str) -> Option<String> {
    let (count, call) = line.split_once(" times ").unwrap_or(("1", line));
    let mut last = String::new(alloc);
    for _ in 0..count.parse::<u32>().ok()? {
        last = answer(alloc, builder, call)?;
    }
    Some(last)
}

// Whether all calls are answered as their lines say.
fn is_built(alloc: Global, builder: &mut Builder, calls: &str) -> Option<bool> {
    for line in calls.lines() {
        let (wanted, call) = line.split_once(' ')?;
        if last_answer(alloc, builder, call)?.as_str() != wanted {
            return Some(false);
        }
    }
    Some(true)
}

fn edges_are(edges: &[Edge], words: &str) -> bool {
    let wanted = words.split_ascii_whitespace();
    edges.len() == words.split_ascii_whitespace().count()
        && edges
            .iter()
            .zip(wanted)
            .all(|(own, word)| edge(word) == Some(*own))
}

// Whether a node has a gate, as `all`, `any` or an atom, and these edges to it.
fn node_is(alloc: Global, graph: &Graph, node: u32, gate: &str, words: &str) -> Option<bool> {
    if node >= graph.count() {
        return None;
    }
    let gate_is = match graph.atom(node) {
        Some(own) => *own == atom(alloc, gate)? && graph.has_atom(node, own),
        None => gate == if graph.is_all(node) { "all" } else { "any" },
    };
    Some(gate_is && edges_are(graph.incoming(node), words))
}

// Whether each node holds of a payment as its mark says.
fn hold_as(alloc: Global, graph: &Graph, marks: &str, entries: &str) -> Option<bool> {
    let payment = payment(alloc, entries)?;
    let mut found = String::new(alloc);
    for node in 0..graph.count() {
        let mark = if holds(alloc, graph, node, &payment).ok()? {
            '+'
        } else {
            '-'
        };
        found.push(mark).ok()?;
    }
    Some(found.as_str() == marks)
}

// Whether a line is right of a graph.
fn is_so(alloc: Global, graph: &Graph, line: &str) -> Option<bool> {
    let (what, rest) = line.split_once(' ')?;
    match what {
        "count" => Some(graph.count() == rest.parse().ok()?),
        "lacks" => Some(graph.count() > 0 && !graph.has_atom(0, &atom(alloc, rest)?)),
        "holds" => {
            let (marks, entries) = rest.split_once(' ').unwrap_or((rest, ""));
            hold_as(alloc, graph, marks, entries)
        }
        _ => {
            let (gate, words) = rest.split_once(" <-")?;
            node_is(alloc, graph, what.parse().ok()?, gate, words)
        }
    }
}

#[test]
fn graphs_are_as_built(rt: HostRuntime) -> Result<(), Fail> {
    let alloc = rt.alloc();
    for section in expanded(alloc, GRAPHS)?.split("\n===\n") {
        let (calls, lines) = section.split_once("\n--\n").ok_or(section)?;
        let mut builder = Builder::new(alloc);
        assert_eq!(rt;
            is_built(alloc, &mut builder, calls),
            Some(true),
            "at {calls}"
        );
        let graph = builder.finish().copy()?;
        for line in lines.lines() {
            assert_eq!(rt; is_so(alloc, &graph, line), Some(true), "at {line}");
        }
    }
    Ok(())
}
