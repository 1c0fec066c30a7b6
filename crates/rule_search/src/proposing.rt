use crate::verdicts::{has_entailed, is_forced, is_refuted};
use constraint_graph::{Edge, Graph, Relation};
use indexmap::IndexSet;
use key_table::{Atom, NoMemory, Seq, Verdict3};
use rule_problem::{Literal, Problem};
use std::alloc::Global;

/// Where no split closes a side at once: the first atom of a want, a bar or the goal, or the one that weighs most in short
/// paths and bars.
#[derive(Clone, Copy, Debug, PartialEq, Eq)]
pub(crate) enum Order {
    First,
    Heaviest,
}

/// By what splits are proposed: an order, and for each node of the graph the number of its atom.
#[derive(Drop)]
pub(crate) struct Guide {
    order: Order,
    node_atoms: Vec<Option<usize>>,
}

impl Guide {
    pub(crate) fn new(alloc: Global, problem: &Problem, order: Order) -> Result<Guide, NoMemory> {
        let node_atoms = node_atoms(alloc, problem.atoms.as_slice(), &problem.graph)?;
        Ok(Guide { order, node_atoms })
    }

    /// A proposal. First come atoms one of whose sides closes at once.
    pub(crate) fn proposed(
        &self,
        alloc: Global,
        problem: &Problem,
        verdicts: &[Verdict3],
        goal: Verdict3,
    ) -> Result<Option<u32>, NoMemory> {
        if let Some(atom) = unit(problem, verdicts) {
            return Ok(Some(atom));
        }
        let awaited = self.awaited(alloc, problem, verdicts, goal)?;
        if let Some(awaited) = awaited {
            if awaited.alone {
                return Ok(Some(awaited.atom));
            }
        }
        match self.branch(alloc, problem, verdicts)? {
            Some(atom) => Ok(Some(atom)),
            None => Ok(awaited.map(|awaited| awaited.atom)),
        }
    }

    /// Literals that the goal waits for, one way down from it: all that an undecided node waits for where it needs all of them,
    /// else the first.
    pub(crate) fn toward_goal(
        &self,
        alloc: Global,
        problem: &Problem,
        verdicts: &[Verdict3],
    ) -> Result<Vec<Literal>, NoMemory> {
        let graph = &problem.graph;
        let found = self.node_verdicts(alloc, graph, verdicts)?;
        let mut literals = Vec::new(alloc);
        let mut waiting = Vec::new(alloc);
        waiting.push((problem.goal, true))?;
        for _ in 0..graph.count() {
            match waiting.pop() {
                Some((node, want)) => {
                    if let Some(atom) = self.undecided_atom(node, verdicts) {
                        literals.push(Literal { atom, want })?;
                    }
                    wait_for(&mut waiting, graph, node, want, &found)?;
                }
                None => return Ok(literals),
            }
        }
        Ok(literals)
    }

    // The number of the atom of a node, if it is undecided.
    fn undecided_atom(&self, node: u32, verdicts: &[Verdict3]) -> Option<u32> {
        if self.own(node, verdicts) != Some(Verdict3::Undecided) {
            return None;
        }
        let atom = (*self.node_atoms.get(node as usize)?)?;
        u32::try_from(atom).ok()
    }

    // An atom of a want that waits or of a bar.
    fn branch(
        &self,
        alloc: Global,
        problem: &Problem,
        verdicts: &[Verdict3],
    ) -> Result<Option<u32>, NoMemory> {
        match self.order {
            Order::First => Ok(first(problem, verdicts)),
            Order::Heaviest => heaviest(alloc, problem, verdicts),
        }
    }

    // An atom of a node that the goal waits for.
    fn awaited(
        &self,
        alloc: Global,
        problem: &Problem,
        verdicts: &[Verdict3],
        goal: Verdict3,
    ) -> Result<Option<Awaited>, NoMemory> {
        if goal != Verdict3::Undecided {
            return Ok(None);
        }
        let graph = &problem.graph;
        let found = self.node_verdicts(alloc, graph, verdicts)?;
        Ok(self.descend(graph, problem.goal, verdicts, &found))
    }

    // The verdict of the atom of a node, if it has one.
    fn own(&self, node: u32, verdicts: &[Verdict3]) -> Option<Verdict3> {
        let atom = (*self.node_atoms.get(node as usize)?)?;
        verdicts.get(atom).copied()
    }

    fn node_verdicts(
        &self,
        alloc: Global,
        graph: &Graph,
        verdicts: &[Verdict3],
    ) -> Result<Vec<Verdict3>, NoMemory> {
        let mut found = Vec::with_capacity(alloc, graph.count() as usize)?;
        for node in 0..graph.count() {
            let edges = graph.incoming(node);
            let verdict = match self.own(node, verdicts) {
                Some(own) if edges.is_empty() => own,
                Some(own) => lesser(own, greatest(edges, &found)),
                None if graph.is_all(node) => least(edges, &found),
                None => greatest(edges, &found),
            };
            found.push(verdict)?;
        }
        Ok(found)
    }

    // Goes down from the goal along undecided edges, to a node whose own atom is undecided.
    fn descend(
        &self,
        graph: &Graph,
        goal: u32,
        verdicts: &[Verdict3],
        found: &[Verdict3],
    ) -> Option<Awaited> {
        let mut node = goal;
        let mut alone = true;
        for _ in 0..graph.count() {
            if let Some(atom) = self.undecided_atom(node, verdicts) {
                return Some(Awaited { atom, alone });
            }
            if node >= graph.count() {
                return None;
            }
            let edges = graph.incoming(node);
            alone = alone && (graph.is_all(node) || count_undecided(edges, found) == 1);
            node = first_undecided_source(edges, found)?;
        }
        None
    }
}

// An atom that the goal waits for, and whether each of its ways to be met asks for it.
#[derive(Clone, Copy)]
struct Awaited {
    atom: u32,
    alone: bool,
}

// For each node the number of its atom among the problem's, if it has one.
fn node_atoms(
    alloc: Global,
    atoms: &[Atom],
    graph: &Graph,
) -> Result<Vec<Option<usize>>, NoMemory> {
    let mut numbers = IndexSet::new(alloc);
    for atom in atoms {
        numbers.insert(atom.copy()?)?;
    }
    let mut node_atoms = Vec::with_capacity(alloc, graph.count() as usize)?;
    for node in 0..graph.count() {
        node_atoms.push(number_of(&numbers, graph.atom(node)))?;
    }
    Ok(node_atoms)
}

fn number_of(numbers: &IndexSet<Atom>, atom: Option<&Atom>) -> Option<usize> {
    match atom {
        Some(atom) => numbers.get_index_of(atom),
        None => None,
    }
}

// The least verdict that the edges carry, entailed where there is none.
fn least(edges: &[Edge], found: &[Verdict3]) -> Verdict3 {
    let mut least = Verdict3::Entailed;
    for edge in edges {
        least = lesser(least, carried(edge, found));
    }
    least
}

// The greatest verdict that the edges carry, refuted where there is none.
fn greatest(edges: &[Edge], found: &[Verdict3]) -> Verdict3 {
    let mut least = Verdict3::Entailed;
    for edge in edges {
        least = lesser(least, opposite(carried(edge, found)));
    }
    opposite(least)
}

fn carried(edge: &Edge, found: &[Verdict3]) -> Verdict3 {
    let source = found
        .get(edge.from as usize)
        .copied()
        .unwrap_or(Verdict3::Refuted);
    match edge.relation {
        Relation::Positive => source,
        Relation::Negative => opposite(source),
    }
}

fn opposite(verdict: Verdict3) -> Verdict3 {
    match verdict {
        Verdict3::Entailed => Verdict3::Refuted,
        Verdict3::Refuted => Verdict3::Entailed,
        Verdict3::Undecided => Verdict3::Undecided,
    }
}

fn lesser(one: Verdict3, other: Verdict3) -> Verdict3 {
    match (one, other) {
        (Verdict3::Refuted, _) | (_, Verdict3::Refuted) => Verdict3::Refuted,
        (Verdict3::Undecided, _) => Verdict3::Undecided,
        (Verdict3::Entailed, other) => other,
    }
}

fn count_undecided(edges: &[Edge], found: &[Verdict3]) -> usize {
    edges
        .iter()
        .filter(|edge| carried(edge, found) == Verdict3::Undecided)
        .count()
}

// Adds the sources that a node waits for so that it comes out as wanted, each with what is wanted of it.
fn wait_for(
    waiting: &mut Vec<(u32, bool)>,
    graph: &Graph,
    node: u32,
    want: bool,
    found: &[Verdict3],
) -> Result<(), NoMemory> {
    if node >= graph.count() {
        return Ok(());
    }
    let needs_all = graph.is_all(node) == want;
    for edge in graph.incoming(node) {
        if carried(edge, found) == Verdict3::Undecided {
            let wanted = match edge.relation {
                Relation::Positive => want,
                Relation::Negative => !want,
            };
            waiting.push((edge.from, wanted))?;
            if !needs_all {
                return Ok(());
            }
        }
    }
    Ok(())
}

fn first_undecided_source(edges: &[Edge], found: &[Verdict3]) -> Option<u32> {
    for edge in edges {
        if carried(edge, found) == Verdict3::Undecided {
            return Some(edge.from);
        }
    }
    None
}

// An atom one of whose sides closes at once, by a want or a bar.
fn unit(problem: &Problem, verdicts: &[Verdict3]) -> Option<u32> {
    for paths in problem.wants.as_slice() {
        if let Some(atom) = unit_of_want(paths.as_slice(), verdicts) {
            return Some(atom);
        }
    }
    for bar in problem.bars.as_slice() {
        if let Some(atom) = only_undecided(bar.as_slice(), verdicts) {
            return Some(atom);
        }
    }
    None
}

// An undecided atom of a literal that stands in each path of a want which may still be entailed.
fn unit_of_want(paths: &[Seq<Literal>], verdicts: &[Verdict3]) -> Option<u32> {
    if has_entailed(verdicts, paths) {
        return None;
    }
    for path in paths {
        if !is_refuted(verdicts, path.as_slice()) {
            return common(path.as_slice(), paths, verdicts);
        }
    }
    None
}

// The atom of the first undecided literal of a path that stands in each path without a refuted literal.
fn common(path: &[Literal], paths: &[Seq<Literal>], verdicts: &[Verdict3]) -> Option<u32> {
    for literal in path {
        if is_undecided(verdicts, literal.atom) && is_in_each(*literal, paths, verdicts) {
            return Some(literal.atom);
        }
    }
    None
}

fn is_in_each(literal: Literal, paths: &[Seq<Literal>], verdicts: &[Verdict3]) -> bool {
    for path in paths {
        if !stands_in(literal, path.as_slice()) && !is_refuted(verdicts, path.as_slice()) {
            return false;
        }
    }
    true
}

fn stands_in(literal: Literal, path: &[Literal]) -> bool {
    for other in path {
        if *other == literal {
            return true;
        }
    }
    false
}

// The atom of the only undecided literal of a bar, whose other literals are entailed.
fn only_undecided(bar: &[Literal], verdicts: &[Verdict3]) -> Option<u32> {
    let mut only = None;
    for literal in bar {
        if is_forced(verdicts, literal.atom, !literal.want) {
            return None;
        }
        if is_undecided(verdicts, literal.atom) {
            if only.is_some() {
                return None;
            }
            only = Some(literal.atom);
        }
    }
    only
}

// The first undecided atom of a want that waits, or of a bar that is not out.
fn first(problem: &Problem, verdicts: &[Verdict3]) -> Option<u32> {
    for paths in problem.wants.as_slice() {
        if !has_entailed(verdicts, paths.as_slice()) {
            if let Some(atom) = first_in(paths.as_slice(), verdicts) {
                return Some(atom);
            }
        }
    }
    first_in(problem.bars.as_slice(), verdicts)
}

// The first undecided atom in a path without a refuted literal.
fn first_in(paths: &[Seq<Literal>], verdicts: &[Verdict3]) -> Option<u32> {
    for path in paths {
        if !is_refuted(verdicts, path.as_slice()) {
            for literal in path.as_slice() {
                if is_undecided(verdicts, literal.atom) {
                    return Some(literal.atom);
                }
            }
        }
    }
    None
}

// The atom that weighs most in the paths that a want waits for and the bars that are not out.
fn heaviest(
    alloc: Global,
    problem: &Problem,
    verdicts: &[Verdict3],
) -> Result<Option<u32>, NoMemory> {
    let mut weights = Vec::with_capacity(alloc, verdicts.len())?;
    for _ in 0..verdicts.len() {
        weights.push(0)?;
    }
    for paths in problem.wants.as_slice() {
        if !has_entailed(verdicts, paths.as_slice()) {
            weigh(&mut weights, paths.as_slice(), verdicts);
        }
    }
    weigh(&mut weights, problem.bars.as_slice(), verdicts);
    Ok(greatest_place(&weights))
}

// Adds the weight of each path without a refuted literal to that of its undecided atoms.
fn weigh(weights: &mut Vec<u64>, paths: &[Seq<Literal>], verdicts: &[Verdict3]) {
    for path in paths {
        if !is_refuted(verdicts, path.as_slice()) {
            weigh_path(weights, path.as_slice(), verdicts);
        }
    }
}

// A path of one undecided literal weighs five times one of two, and so on.
fn weigh_path(weights: &mut Vec<u64>, path: &[Literal], verdicts: &[Verdict3]) {
    let mut weight = 5u64 * 5 * 5 * 5 * 5 * 5 * 5 * 5;
    for literal in path {
        if is_undecided(verdicts, literal.atom) {
            weight = (weight / 5).max(1);
        }
    }
    for literal in path {
        if is_undecided(verdicts, literal.atom) {
            add_weight(weights, literal.atom as usize, weight);
        }
    }
}

fn add_weight(weights: &mut Vec<u64>, place: usize, weight: u64) {
    if place < weights.len() {
        weights[place] = weights[place].saturating_add(weight);
    }
}

// The place of the first of the greatest numbers, if there is one above zero.
fn greatest_place(weights: &[u64]) -> Option<u32> {
    let mut greatest = 0;
    let mut found = None;
    for (place, weight) in weights.iter().enumerate() {
        if *weight > greatest {
            greatest = *weight;
            found = u32::try_from(place).ok();
        }
    }
    found
}

fn is_undecided(verdicts: &[Verdict3], atom: u32) -> bool {
    matches!(verdicts.get(atom as usize), Some(Verdict3::Undecided))
}
