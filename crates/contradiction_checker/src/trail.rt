ghost use Rattle.std.specs.Prelude.{◌≡◌, ◌<◌, ◌≤◌, ◌+◌, ◌-◌, ◌^◌, ◌++◌, ◌∷◌, List, [], length, take, replicate, slice_set, vec_len, vec_capacity, IfOk, true, false};
ghost use Rattle.contradiction_checker.specs.declared.options.Assumed.{Assumed};
ghost use Rattle.contradiction_checker.specs.Chains.{chain_at, EndsBy, numbers_of};
ghost use Rattle.contradiction_checker.specs.Findings.{has_stayed};
ghost use Rattle.contradiction_checker.specs.Trails.{IsLinked, Passes, Widens, HasRoom};
ghost use Rattle.contradiction_checker.specs.Turning.{Turns, with_truth};

use crate::chain::chain_at;
use crate::options::Assumed;
use key_table::{Atom, NoMemory, slot_law};
use std::alloc::Global;

/// The assumptions of a walk, the outermost first, in chains, so that those on one slot are found without going over all.
/// Assumptions on one slot are in one chain.
#[derive(Drop)]
pub(crate) struct Trail {
    pub(crate) assumed: Vec<Assumed>,
    // For each assumption a place by which those before it in its chain end.
    pub(crate) before: Vec<usize>,
    // For each chain a place by which all of it end.
    pub(crate) heads: Vec<usize>,
    // For each chain the time at which an assumption of it last came, went or turned.
    pub(crate) changed: Vec<u32>,
    pub(crate) last_chain: u32,
    // How often the assumptions changed.
    pub(crate) time: u32,
}

/// Pushes an item where there is room for it.
pub(crate) fn keep<T: Copy>(kept: &mut Vec<T>, item: T)
    requires { vec_len kept.old < vec_capacity kept.old }
    ensures items { kept.new.items ≡ kept.old.items ++ item ∷ [] }
    ensures len { vec_len kept.new ≡ vec_len kept.old + 1 }
    ensures room { vec_capacity kept.old ≤ vec_capacity kept.new }
{
    match kept.push(item) {
        Ok(()) => (),
        Err(_) => unreachable!(),
    }
}

/// Sets an item, where there is such a one.
pub(crate) fn set_at<T: Copy>(list: &mut Vec<T>, place: usize, item: T)
    ensures items { list.new.items ≡ slice_set list.old.items place item }
    ensures room { vec_capacity list.old ≤ vec_capacity list.new }
{
    if place < list.len() {
        list[place] = item;
    }
}

/// Leaves so many of one item.
pub(crate) fn fill<T: Copy>(list: &mut Vec<T>, count: usize, item: T)
    requires { count ≤ vec_capacity list.old }
    ensures items { list.new.items ≡ replicate count item }
    ensures room { vec_capacity list.old ≤ vec_capacity list.new }
{
    list.clear();
    for _place in 0..count {
        keep(list, item);
    }
}

fn make_false(assumed: &mut Assumed)
    ensures { assumed.new ≡ with_truth assumed.old.atom false }
{
    assumed.truth = false;
}

impl Trail {
    /// Takes room for the assumptions of a certificate with so many atoms and items.
    pub(crate) fn for_sizes(alloc: Global, atoms: u32, items: u32) -> Result<Trail, NoMemory>
        ensures { IfOk result (HasRoom atoms items) }
    {
        let assumed = Vec::with_capacity(alloc, items as usize)?;
        let before = Vec::with_capacity(alloc, items as usize)?;
        let heads = Vec::with_capacity(alloc, atoms as usize + 1)?;
        let changed = Vec::with_capacity(alloc, atoms as usize + 1)?;
        Ok(Trail {
            assumed,
            before,
            heads,
            changed,
            last_chain: 0,
            time: 0,
        })
    }

    /// Drops all assumptions, and has chains for so many atoms.
    pub(crate) fn clear(&mut self, atoms: u32)
        requires heads { atoms < vec_capacity self.old.heads }
        requires changed { atoms < vec_capacity self.old.changed }
        ensures items { self.new.assumed.items ≡ [] }
        ensures len { vec_len self.new.assumed ≡ 0 }
        ensures time { self.new.time ≡ 0 }
        ensures linked { (atoms : List Atom) → IsLinked atoms self.new }
        ensures room { Widens self.old self.new }
    {
        self.assumed.clear();
        self.before.clear();
        fill(&mut self.heads, atoms as usize + 1, 0);
        fill(&mut self.changed, atoms as usize + 1, 0);
        self.last_chain = atoms;
        self.time = 0;
    }

    /// Whether the assumptions of a chain stayed as they are from before a time on.
    pub(crate) fn has_stayed(&self, chain: usize, time: u32) -> bool
        ensures { result ≡ has_stayed self.now.changed.items chain time }
    {
        match self.changed.get(chain) {
            Some(at) => *at < time,
            None => false,
        }
    }

    /// A place by which all of a chain end.
    pub(crate) fn end(&self, chain: usize) -> usize
        ensures within { result ≤ length self.now.assumed.items }
        ensures ends { (atoms : List Atom) → IsLinked atoms self.now → EndsBy atoms self.now.last_chain chain (numbers_of self.now.assumed.items) result }
    {
        let count = self.assumed.len();
        match self.heads.get(chain) {
            Some(head) if *head < count => *head,
            _ => count,
        }
    }

    /// A place by which those of a chain before an assumption end, where it is in the chain, and else its own place.
    pub(crate) fn end_before(&self, atoms: &[Atom], chain: usize, place: usize) -> usize
        requires within { place < length self.now.assumed.items }
        requires linked { IsLinked atoms.now self.now }
        ensures within { result ≤ place }
        ensures ends { EndsBy atoms.now self.now.last_chain chain (take place (numbers_of self.now.assumed.items)) result }
    {
        let before = self.before[place];
        if before < place && chain_at(atoms, self.last_chain, self.assumed[place].atom) == chain {
            before
        } else {
            place
        }
    }

    /// Assumes that an atom is true.
    pub(crate) fn push(&mut self, atoms: &[Atom], atom: u32)
        requires linked { IsLinked atoms.now self.old }
        requires room { vec_len self.old.assumed < vec_capacity self.old.assumed }
        requires room_before { vec_len self.old.assumed < vec_capacity self.old.before }
        requires time { self.old.time + 1 < 2 ^ 32 }
        ensures items { self.new.assumed.items ≡ self.old.assumed.items ++ with_truth atom true ∷ [] }
        ensures len { vec_len self.new.assumed ≡ vec_len self.old.assumed + 1 }
        ensures time { self.new.time ≡ self.old.time + 1 }
        ensures passes { Passes atoms.now self.old self.new }
        ensures linked { IsLinked atoms.now self.new }
        ensures room { Widens self.old self.new }
    {
        slot_law();
        let chain = chain_at(atoms, self.last_chain, atom);
        let before = self.end(chain);
        keep(&mut self.assumed, Assumed { atom, truth: true });
        keep(&mut self.before, before);
        set_at(&mut self.heads, chain, self.assumed.len());
        set_at(&mut self.changed, chain, self.time);
        self.time += 1;
    }

    // Drops the last assumption.
    fn pop(&mut self, atoms: &[Atom])
        requires linked { IsLinked atoms.now self.old }
        requires some { 0 < vec_len self.old.assumed }
        ensures items { self.new.assumed.items ≡ take (vec_len self.old.assumed - 1) self.old.assumed.items }
        ensures len { vec_len self.new.assumed + 1 ≡ vec_len self.old.assumed }
        ensures time { self.new.time ≡ self.old.time }
        ensures passes { Passes atoms.now self.old self.new }
        ensures linked { IsLinked atoms.now self.new }
        ensures room { Widens self.old self.new }
    {
        slot_law();
        let last = self.assumed.len() - 1;
        let chain = chain_at(atoms, self.last_chain, self.assumed[last].atom);
        let before = self.before[last];
        self.assumed.truncate(last);
        self.before.truncate(last);
        set_at(&mut self.heads, chain, before);
        set_at(&mut self.changed, chain, self.time);
    }

    /// Goes on to the false side of the last split whose true side stands. False where there is none.
    pub(crate) fn turn(&mut self, atoms: &[Atom]) -> bool
        requires linked { IsLinked atoms.now self.old }
        requires time { self.old.time + 1 < 2 ^ 32 }
        ensures turned { Turns result self.old.assumed.items self.new.assumed.items }
        ensures len { vec_len self.new.assumed ≤ vec_len self.old.assumed }
        ensures time { self.new.time ≤ self.old.time + 1 }
        ensures passes { Passes atoms.now self.old self.new }
        ensures linked { IsLinked atoms.now self.new }
        ensures room { Widens self.old self.new }
    {
        slot_law();
        while !self.assumed.is_empty() {
            let last = self.assumed.len() - 1;
            if self.assumed[last].truth {
                let chain = chain_at(atoms, self.last_chain, self.assumed[last].atom);
                make_false(&mut self.assumed[last]);
                set_at(&mut self.changed, chain, self.time);
                self.time += 1;
                return true;
            }
            self.pop(atoms);
        }
        false
    }
}
