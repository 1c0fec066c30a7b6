ghost use Rattle.std.specs.Prelude.{◌≡◌, ◌≤◌, ◌<◌, ◌+◌, ◌++◌, ◌∷◌, [], vec_len, vec_capacity, false, if◌then◌else◌};
ghost use Rattle.std.specs.Ordering.{is_eq};
ghost use Rattle.key_table.specs.Slots.{slot_cmp};
ghost use Rattle.contradiction_checker.specs.Assumed.{is_on, assumed_on, premises_of};
ghost use Rattle.contradiction_checker.specs.Decisions.{atom_verdict};
ghost use Rattle.contradiction_checker.specs.Findings.{IsRight, IsFoundAt, KeepsFound};
ghost use Rattle.contradiction_checker.specs.Trails.{IsLinked};
ghost use Rattle.contradiction_checker.specs.Tries.{leaves};

use crate::chain::chain_of;
use crate::finding::{Finding, Known};
use crate::options::{Assumed, Question, Values};
use crate::trail::{Trail, keep, set_at};
use key_table::{Atom, KeyTable, Slot, Verdict3, slot_law};
use std::cmp::Ordering;

/// What is taken for true: atoms of a certificate by their numbers, each with a truth.
#[derive(Clone, Copy)]
pub(crate) struct Premises<'a> {
    pub(crate) table: &'a KeyTable,
    pub(crate) atoms: &'a [Atom],
    pub(crate) trail: &'a Trail,
}

// Whether two slots are equal.
fn is_same(slot: &Slot, other: &Slot) -> bool
    ensures { result ≡ is_eq (slot_cmp slot.now other.now) }
{
    slot_law();
    slot.cmp(other) == Ordering::Equal
}

// Whether an assumption stands on the slot.
fn stands_on(atoms: &[Atom], assumed: &Assumed, slot: &Slot) -> bool
    ensures { result ≡ is_on atoms.now slot.now assumed.now }
{
    match atoms.get(assumed.atom as usize) {
        Some(atom) => is_same(slot, &atom.slot),
        None => false,
    }
}

// Keeps an assumption where it stands on the slot.
fn keep_on(atoms: &[Atom], slot: &Slot, assumed: Assumed, mine: &mut Vec<Assumed>)
    requires { vec_len mine.old < vec_capacity mine.old }
    ensures items { mine.new.items ≡ (if is_on atoms.now slot.now assumed then mine.old.items ++ assumed ∷ [] else mine.old.items) }
    ensures len { vec_len mine.new ≤ vec_len mine.old + 1 }
    ensures room { vec_capacity mine.old ≤ vec_capacity mine.new }
{
    if stands_on(atoms, &assumed, slot) {
        keep(mine, assumed);
    }
}

impl<'a> Premises<'a> {
    /// Leaves in `mine` the assumptions on the slot.
    pub(crate) fn gather(&self, slot: &Slot, mine: &mut Vec<Assumed>)
        requires linked { IsLinked self.now.atoms.now self.now.trail.now }
        requires room { vec_len self.now.trail.now.assumed ≤ vec_capacity mine.old }
        ensures value { mine.new.items ≡ assumed_on self.now.atoms.now slot.now self.now.trail.now.assumed.items }
        ensures room { vec_capacity mine.old ≤ vec_capacity mine.new }
    {
        slot_law();
        mine.clear();
        let trail = self.trail;
        let chain = chain_of(trail.last_chain, slot);
        let mut end = trail.end(chain);
        while end > 0 {
            let place = end - 1;
            keep_on(self.atoms, slot, trail.assumed[place], mine);
            end = trail.end_before(self.atoms, chain, place);
        }
        mine.reverse();
    }

    /// Whether an option is left on which the atom has the truth, where these are the assumptions on its slot.
    pub(crate) fn leaves(&self, atom: &Atom, truth: bool, mine: &[Assumed]) -> bool
        requires { mine.now ≡ assumed_on self.now.atoms.now atom.now.slot self.now.trail.now.assumed.items }
        ensures { result ≡ leaves self.now.table.now (premises_of self.now) atom.now truth }
    {
        let question = Question {
            atoms: self.atoms,
            assumed: mine,
            atom,
            truth,
        };
        match Values::of(self.table, atom.slot.key) {
            Some(values) => question.has_option(values),
            None => false,
        }
    }

    /// Whether an option is left on which the atom has the truth. What stands in `mine` is lost.
    pub(crate) fn is_left(&self, atom: &Atom, truth: bool, mine: &mut Vec<Assumed>) -> bool
        requires linked { IsLinked self.now.atoms.now self.now.trail.now }
        requires room { vec_len self.now.trail.now.assumed ≤ vec_capacity mine.old }
        ensures value { result ≡ leaves self.now.table.now (premises_of self.now) atom.now truth }
        ensures room { vec_capacity mine.old ≤ vec_capacity mine.new }
    {
        self.gather(&atom.slot, mine);
        self.leaves(atom, truth, mine)
    }

    // Asks whether an option is left on which the atom has the truth, and keeps the answer with what is known.
    #[inline(never)]
    fn find(
        &self,
        atom: &Atom,
        truth: bool,
        place: usize,
        known: Known,
        findings: &mut Vec<Finding>,
        mine: &mut Vec<Assumed>,
    ) -> bool
        requires linked { IsLinked self.now.atoms.now self.now.trail.now }
        requires room { vec_len self.now.trail.now.assumed ≤ vec_capacity mine.old }
        requires known { IsRight self.now.table.now self.now.atoms.now self.now.trail.now atom.now known }
        requires before { IsFoundAt self.now.table.now self.now.atoms.now self.now.trail.now atom.now place findings.old.items }
        ensures value { result ≡ leaves self.now.table.now (premises_of self.now) atom.now truth }
        ensures found { KeepsFound self.now.table.now self.now.atoms.now self.now.trail.now atom.now place findings.old.items findings.new.items }
        ensures found_at { IsFoundAt self.now.table.now self.now.atoms.now self.now.trail.now atom.now place findings.new.items }
        ensures room { vec_capacity mine.old ≤ vec_capacity mine.new }
        ensures room_for_findings { vec_capacity findings.old ≤ vec_capacity findings.new }
    {
        let trail = self.trail;
        let left = self.is_left(atom, truth, mine);
        let finding = Finding {
            chain: chain_of(trail.last_chain, &atom.slot),
            time: trail.time,
            known: known.with(truth, left),
        };
        set_at(findings, place, finding);
        left
    }

    /// Whether an option is left on which the atom has the truth: what was found before, at the atom's place, where the
    /// assumptions on its slot stayed since.
    pub(crate) fn is_left_at(
        &self,
        atom: &Atom,
        truth: bool,
        place: usize,
        findings: &mut Vec<Finding>,
        mine: &mut Vec<Assumed>,
    ) -> bool
        requires linked { IsLinked self.now.atoms.now self.now.trail.now }
        requires room { vec_len self.now.trail.now.assumed ≤ vec_capacity mine.old }
        requires before { IsFoundAt self.now.table.now self.now.atoms.now self.now.trail.now atom.now place findings.old.items }
        ensures value { result ≡ leaves self.now.table.now (premises_of self.now) atom.now truth }
        ensures found { KeepsFound self.now.table.now self.now.atoms.now self.now.trail.now atom.now place findings.old.items findings.new.items }
        ensures found_at { IsFoundAt self.now.table.now self.now.atoms.now self.now.trail.now atom.now place findings.new.items }
        ensures room { vec_capacity mine.old ≤ vec_capacity mine.new }
        ensures room_for_findings { vec_capacity findings.old ≤ vec_capacity findings.new }
    {
        let known = self.known_at(atom, place, findings);
        match known.left(truth) {
            Some(left) => left,
            None => self.find(atom, truth, place, known, findings, mine),
        }
    }

    // What is known still of the atom, by what was found at its place.
    fn known_at(&self, atom: &Atom, place: usize, findings: &[Finding]) -> Known
        requires { IsFoundAt self.now.table.now self.now.atoms.now self.now.trail.now atom.now place findings.now }
        ensures { IsRight self.now.table.now self.now.atoms.now self.now.trail.now atom.now result }
    {
        match findings.get(place) {
            Some(finding) => finding.known_in(self.trail),
            None => Known::nothing(),
        }
    }

    /// The verdict of the atom, refuted where no option is left, by what was found before at its place.
    pub(crate) fn verdict_at(
        &self,
        atom: &Atom,
        place: usize,
        findings: &mut Vec<Finding>,
        mine: &mut Vec<Assumed>,
    ) -> Verdict3
        requires linked { IsLinked self.now.atoms.now self.now.trail.now }
        requires room { vec_len self.now.trail.now.assumed ≤ vec_capacity mine.old }
        requires before { IsFoundAt self.now.table.now self.now.atoms.now self.now.trail.now atom.now place findings.old.items }
        ensures value { result ≡ atom_verdict self.now.table.now (premises_of self.now) atom.now }
        ensures found { KeepsFound self.now.table.now self.now.atoms.now self.now.trail.now atom.now place findings.old.items findings.new.items }
        ensures room { vec_capacity mine.old ≤ vec_capacity mine.new }
        ensures room_for_findings { vec_capacity findings.old ≤ vec_capacity findings.new }
    {
        match self.known_at(atom, place, findings).verdict() {
            Some(verdict) => verdict,
            None => self.find_verdict(atom, place, findings, mine),
        }
    }

    #[inline(never)]
    fn find_verdict(
        &self,
        atom: &Atom,
        place: usize,
        findings: &mut Vec<Finding>,
        mine: &mut Vec<Assumed>,
    ) -> Verdict3
        requires linked { IsLinked self.now.atoms.now self.now.trail.now }
        requires room { vec_len self.now.trail.now.assumed ≤ vec_capacity mine.old }
        requires before { IsFoundAt self.now.table.now self.now.atoms.now self.now.trail.now atom.now place findings.old.items }
        ensures value { result ≡ atom_verdict self.now.table.now (premises_of self.now) atom.now }
        ensures found { KeepsFound self.now.table.now self.now.atoms.now self.now.trail.now atom.now place findings.old.items findings.new.items }
        ensures room { vec_capacity mine.old ≤ vec_capacity mine.new }
        ensures room_for_findings { vec_capacity findings.old ≤ vec_capacity findings.new }
    {
        if !self.is_left_at(atom, true, place, findings, mine) {
            return Verdict3::Refuted;
        }
        if !self.is_left_at(atom, false, place, findings, mine) {
            return Verdict3::Entailed;
        }
        Verdict3::Undecided
    }
}
