ghost use Rattle.std.specs.Prelude.{◌≡◌, ◌<◌, ◌-◌, [], length, vec_len, slice_index_or, slice_set, true, Some, OnOk, OnErr, IfOk};
ghost use Rattle.std.specs.List.{All};
ghost use Rattle.interval_domains.specs.declared.domain.SlotDomain.{SlotDomain};
ghost use Rattle.interval_domains.specs.Members.{members, slot_of};
ghost use Rattle.interval_domains.specs.Picks.{HasNoOption};
ghost use Rattle.key_table.specs.Atoms.{atom_fits};
ghost use Rattle.key_table.specs.Contexts.{HasVerdict};
ghost use Rattle.key_table.specs.OptionSets.{HasOption, kept};
ghost use Rattle.key_table.specs.declared.atom.Atom.{Atom};
ghost use Rattle.rule_problem.specs.Problems.{problem_fits};
ghost use Rattle.domain_store.specs.Kept.{atom_at};
ghost use Rattle.domain_store.specs.NodeVerdicts.{AreOwnVerdicts};
ghost use Rattle.domain_store.specs.PickedPayments.{IsPayment};
ghost use Rattle.domain_store.specs.Stores.{HasNoVoid, context_of, more, before};
ghost use Rattle.domain_store.specs.Verdicts.{AtomHasVerdict, LiteralHasVerdict, PathHasVerdict, HasGoalVerdict};

use crate::nodes::{lesser, node_verdicts, opposite};
use crate::picks::picks_of;
use crate::slots::{full_domains, node_places, slot_places};
use indexmap::IndexSet;
use interval_domains::{SlotDomain, SlotSet};
use key_table::{Atom, KeyTable, NoMemory, Payment, Verdict3, atom_law, left_law, slot_law};
use rule_problem::{Literal, Problem, fits_law};
use std::alloc::Global;
use std::marker::Model;
use std::mem;

/// What assumptions on a problem's atoms leave open. For each slot of these atoms it keeps exactly the options on which
/// each assumption on that slot has its truth, of which there is always one.
#[derive(Drop)]
pub struct Store<'a> {
    table: &'a KeyTable,
    problem: &'a Problem,
    domains: Vec<SlotDomain>,
    // For each atom of the problem the place of its slot's domain.
    places: Vec<usize>,
    // For each node of the graph the place of its atom's slot's domain, 0 where it has no atom.
    node_places: Vec<usize>,
    assumed: Vec<(u32, bool)>,
    // For each assumption the domain that it replaced.
    replaced: Vec<SlotDomain>,
}

impl<'a> Model for Store<'a> {
    ghost use Rattle.domain_store.specs.Stores as stores;

    ghost Value = { stores.Seen };

    ghost use Rattle.domain_store.specs.Kept.{IsKept};

    ghost view = { λ s. record { table = s.table.now; problem = s.problem.now; assumptions = s.assumed.items } };

    ghost invariant = { λ s. IsKept (record { table = s.table.now; problem = s.problem.now; assumptions = s.assumed.items }) s.domains.items s.places.items s.node_places.items s.replaced.items };
}

impl<'a> Store<'a> {
    /// The store of a problem that fits, with no assumption: each slot of the problem's atoms has all its options.
    pub fn new(
        alloc: Global,
        table: &'a KeyTable,
        problem: &'a Problem,
    ) -> Result<Store<'a>, NoMemory>
        requires { problem_fits table.now problem.now ≡ true }
        ensures { IfOk result (λ s. s ≡ record { table = table.now; problem = problem.now; assumptions = [] }) }
    {
        fits_law();
        let mut slots = IndexSet::new(alloc);
        let places = slot_places(alloc, &mut slots, problem.atoms.as_slice())?;
        let node_places = node_places(alloc, &slots, &problem.graph)?;
        let domains = full_domains(alloc, table, &slots)?;
        Ok(Store {
            table,
            problem,
            domains,
            places,
            node_places,
            assumed: Vec::new(alloc),
            replaced: Vec::new(alloc),
        })
    }

    /// The problem that it was made for, which fits the table.
    pub fn problem(&self) -> &Problem
        ensures value { result.now ≡ self.now.problem }
        ensures fits { problem_fits self.now.table self.now.problem ≡ true }
    {
        self.problem
    }

    /// The assumptions in order: numbers of the problem's atoms with their truths. They leave some option to each slot.
    pub fn assumptions(&self) -> &[(u32, bool)]
        ensures value { result.now ≡ self.now.assumptions }
        ensures open { HasNoVoid self.now }
    {
        slot_law();
        self.assumed.as_slice()
    }

    /// The assumption stands last. For want of memory nothing changes.
    pub fn assume(&mut self, alloc: Global, atom: u32, truth: bool) -> Result<(), NoMemory>
        requires known { atom < length self.old.problem.atoms }
        requires undecided { AtomHasVerdict self.old atom Verdict3.Undecided }
        ensures ok { OnOk result (self.new ≡ more self.old atom truth) }
        ensures err { OnErr result (self.new ≡ self.old) }
    {
        slot_law();
        left_law();
        let place = place_at(&self.places, atom);
        let narrowed = narrowed(
            alloc,
            self.table,
            &self.domains[place],
            &self.problem.atoms.as_slice()[atom as usize],
            truth,
        )?;
        self.replaced.reserve(1)?;
        self.assumed.push((atom, truth))?;
        let old = mem::replace(&mut self.domains[place], narrowed);
        self.replaced.push(old)?;
        Ok(())
    }

    /// The last assumption is taken away.
    pub fn undo(&mut self)
        requires { 0 < length self.old.assumptions }
        ensures { self.new ≡ before self.old (length self.old.assumptions - 1) }
    {
        slot_law();
        if let (Some((atom, _)), Some(old)) = (self.assumed.pop(), self.replaced.pop()) {
            let place = place_at(&self.places, atom);
            put_back(&mut self.domains, place, old);
        }
    }

    /// The verdict of an atom, by its number, in the context of the assumptions: on all options that they leave to its
    /// slot.
    pub fn atom_verdict(&self, atom: u32) -> Verdict3
        requires { atom < length self.now.problem.atoms }
        ensures { AtomHasVerdict self.now atom result }
    {
        left_law();
        let domain = &self.domains[self.places[atom as usize]];
        domain.verdict(self.table, &self.problem.atoms.as_slice()[atom as usize])
    }

    /// The verdict of a path: refuted where some literal is refuted, else entailed where all are entailed, else
    /// undecided.
    pub fn path_verdict(&self, path: &[Literal]) -> Verdict3
        requires { All (λ (l : Literal). l.atom < length self.now.problem.atoms) path.now }
        ensures { PathHasVerdict self.now path.now result }
    {
        let mut verdict = Verdict3::Entailed;
        for literal in path {
            verdict = lesser(verdict, self.literal_verdict(*literal));
            if verdict == Verdict3::Refuted {
                return verdict;
            }
        }
        verdict
    }

    // The verdict of an atom, turned round where false is wanted of it.
    fn literal_verdict(&self, literal: Literal) -> Verdict3
        requires { literal.atom < length self.now.problem.atoms }
        ensures { LiteralHasVerdict self.now literal result }
    {
        slot_law();
        left_law();
        let _ = &self.table;
        let verdict = self.atom_verdict(literal.atom);
        if literal.want {
            verdict
        } else {
            opposite(verdict)
        }
    }

    /// The verdict of the goal: what the graph makes of the verdicts of its atoms.
    pub fn goal_verdict(&self, alloc: Global) -> Result<Verdict3, NoMemory>
        ensures { IfOk result (HasGoalVerdict self.now) }
    {
        atom_law();
        let own = self.own_verdicts(alloc)?;
        let verdicts = node_verdicts(alloc, &self.problem.graph, &own)?;
        Ok(verdicts[self.problem.goal as usize])
    }

    // For each node the verdict of its atom, refuted where it has none.
    fn own_verdicts(&self, alloc: Global) -> Result<Vec<Verdict3>, NoMemory>
        ensures { IfOk result (λ verdicts. AreOwnVerdicts self.now verdicts.items) }
    {
        let graph = &self.problem.graph;
        let mut verdicts = Vec::with_capacity(alloc, graph.count() as usize)?;
        for node in 0..graph.count() {
            verdicts.push(self.own_verdict(node))?;
        }
        Ok(verdicts)
    }

    // The verdict of a node's atom, refuted where it has none.
    fn own_verdict(&self, node: u32) -> Verdict3
        requires { node < length self.now.problem.graph }
        ensures { (atom : Atom) → atom_at self.now.problem.graph node ≡ Some (Some atom) → HasVerdict self.now.table (context_of self.now) atom result }
    {
        left_law();
        fits_law();
        match self.problem.graph.atom(node) {
            Some(atom) => {
                let domain = &self.domains[self.node_places[node as usize]];
                domain.verdict(self.table, atom)
            }
            None => Verdict3::Refuted,
        }
    }

    /// A legal payment with the pick of each slot of the problem's atoms and nothing else. So each atom that is entailed
    /// holds of it, and none that is refuted.
    pub fn payment(&self, alloc: Global) -> Result<Payment, NoMemory>
        ensures { IfOk result (IsPayment self.now) }
    {
        picks_of(alloc, &self.domains)
    }
}

// The place of the domain of an atom's slot.
fn place_at(places: &Vec<usize>, atom: u32) -> usize
    requires { atom < vec_len places.now }
    ensures { result ≡ slice_index_or places.now.items atom result }
{
    places[atom as usize]
}

// Puts a domain at a place, at which another one was.
fn put_back(domains: &mut Vec<SlotDomain>, place: usize, domain: SlotDomain)
    requires { place < vec_len domains.old }
    ensures { domains.new.items ≡ slice_set domains.old.items place domain }
{
    domains[place] = domain;
}

// The options of a domain on which the atom has the truth, of which there are some.
fn narrowed(
    alloc: Global,
    table: &KeyTable,
    domain: &SlotDomain,
    atom: &Atom,
    truth: bool,
) -> Result<SlotDomain, NoMemory>
    requires fits { atom_fits table.now atom.now ≡ true }
    requires own { atom.now.slot ≡ slot_of domain.now }
    requires open { HasNoOption (kept atom.now truth (members domain.now)) → ⊥ }
    ensures slot { IfOk result (λ d. slot_of d ≡ slot_of domain.now) }
    ensures kept { IfOk result (λ d. members d ≡ kept atom.now truth (members domain.now)) }
    ensures filled { IfOk result (λ d. HasOption (members d)) }
{
    let mut narrowed = domain.copy(alloc)?;
    narrowed.keep(alloc, table, atom, truth)?;
    let is_void = narrowed.is_void();
    prove!(!is_void);
    Ok(narrowed)
}
