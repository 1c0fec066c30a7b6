ghost use Rattle.std.specs.Prelude.{◌≡◌, [], ◌+◌, ◌<◌, ◌≤◌, length, map, take, drop, slice_get, vec_len, option_map, IfSome, IfOk, OnOk, OnErr, Some, option_copied};
ghost use Rattle.key_table.specs.Slots.{slot_cmp, at};
ghost use Rattle.key_table.specs.Payments.{AreAscending, PutLaw, value_of, with_value, under, is_legal};
ghost use Rattle.key_table.specs.Places.{AreBefore, AreAfter, AreFilled, AreRuns, IsPlace, IsSplit, entries_of, parts_of, with_entry, front_under, are_legal};

use crate::entries::{Entries, Under};
use crate::slot::order;
use crate::{Datum, KeyTable, NoMemory, Slot, Text};
use std::alloc::Global;
use std::cmp::Ordering;
use std::marker::Model;

/// A finite map from slots to values, which contracts see as its entries in ascending order of slots.
// The entries are cut into runs, of which none is empty, so that a put moves the entries of one run alone.
#[derive(Debug, Drop)]
pub struct Payment {
    runs: Vec<Run>,
    count: usize,
}

type Run = Vec<(Slot, Datum)>;

// The most entries of a run.
const MOST_RUN: usize = 512;

// A run with fewer entries takes one that goes between it and the run in front of it.
const HALF_RUN: usize = 256;

impl Model for Payment {
    ghost use Rattle.std.specs.Prelude.{◌≡◌, length};
    ghost use Rattle.key_table.specs.Payments.{Entries};
    ghost use Rattle.key_table.specs.Places.{entries_of, AreRuns};

    ghost Value = { Entries };

    ghost view = { λ p. entries_of p.runs.items };

    ghost invariant = { λ p. AreRuns p.runs.items × (p.count ≡ length (entries_of p.runs.items)) };
}

impl Payment {
    ghost use Rattle.key_table.specs.declared.slot.Slot.{Slot};
    ghost use Rattle.key_table.specs.declared.slot.Datum.{Datum};

    /// The payment in which no slot is there.
    pub fn empty(alloc: Global) -> Payment
        ensures { result ≡ [] }
    {
        Payment {
            runs: Vec::new(alloc),
            count: 0,
        }
    }

    /// The slot has the datum, and all other slots stay.
    pub fn put(&mut self, slot: Slot, datum: Datum) -> Result<(), NoMemory>
        ensures ok { OnOk result (self.new ≡ with_value self.old slot datum) }
        ensures err { OnErr result (self.new ≡ self.old) }
    {
        // No memory holds more entries than a usize counts.
        if self.count == usize::MAX {
            return Err(NoMemory);
        }
        let added = put_into(&mut self.runs, slot, datum)?;
        self.count += added;
        Ok(())
    }

    /// What stands at a slot. `None` exactly where the slot is not there.
    pub fn get(&self, slot: &Slot) -> Option<&Datum>
        ensures { option_copied result ≡ value_of slot.now self.now }
    {
        self.value_at(slot.key, slot.sub.as_ref())
    }

    /// What `get` answers for the slot with this key and sub name. It needs no owned slot.
    pub fn value_at(&self, key: u32, sub: Option<&Text>) -> Option<&Datum>
        ensures { option_copied result ≡ value_of (at key (option_copied sub.entry)) self.now }
    {
        value_in(&self.runs, key, sub)
    }

    /// The number of slots that are there. They stand in strictly ascending order: by key, no sub name first, then by its
    /// bytes.
    pub fn count(&self) -> usize
        ensures count { result ≡ length self.now }
        ensures ascending { AreAscending self.now }
    {
        self.count
    }

    /// The entries, in order.
    pub fn iter(&self) -> Entries<'_>
        ensures { result ≡ self.now }
    {
        Entries::new(&[], &self.runs)
    }

    /// The entries under a key, in order.
    pub fn under(&self, key: u32) -> Under<'_>
        ensures { result ≡ under key self.now }
    {
        Under::new(key, entries_from(&self.runs, key))
    }

    /// The slot at a place.
    pub fn slot_of(&self, place: usize) -> &Slot
        requires { place < length self.now }
        ensures { option_map (λ (e : Slot × Datum). e.0) (slice_get self.now place) ≡ Some result.now }
    {
        let entry = entry_at(&self.runs, place);
        &entry.0
    }

    /// The value of the slot at a place.
    pub fn datum_of(&self, place: usize) -> &Datum
        requires { place < length self.now }
        ensures { option_map (λ (e : Slot × Datum). e.1) (slice_get self.now place) ≡ Some result.now }
    {
        let entry = entry_at(&self.runs, place);
        &entry.1
    }

    /// Whether each entry fits the table.
    pub fn legal(&self, table: &KeyTable) -> bool
        ensures { result ≡ is_legal table.now self.now }
    {
        are_legal(&self.runs, table)
    }

    /// An equal payment.
    pub fn copy(&self) -> Result<Payment, NoMemory>
        ensures { IfOk result (λ p. p ≡ self.now) }
    {
        Ok(Payment {
            runs: copy_of(&self.runs)?,
            count: self.count,
        })
    }
}

/// After a put the slot has the datum, and every other slot has what it had.
pub fn put_law()
    ensures { PutLaw }
{}

// Puts a datum at a slot, and says how many entries that added.
fn put_into(runs: &mut Vec<Run>, slot: Slot, datum: Datum) -> Result<usize, NoMemory>
    requires { AreRuns runs.old.items }
    ensures ok { OnOk result (entries_of runs.new.items ≡ with_value (entries_of runs.old.items) slot datum) }
    ensures added { IfOk result (λ added. length (entries_of runs.new.items) ≡ length (entries_of runs.old.items) + added) }
    ensures one { IfOk result (λ added. added ≤ 1) }
    ensures err { OnErr result (entries_of runs.new.items ≡ entries_of runs.old.items) }
    ensures are_runs { AreRuns runs.new.items }
{
    if runs.is_empty() {
        begin(runs, 0, (slot, datum))?;
        return Ok(1);
    }
    put_among(runs, slot, datum)
}

// Puts a datum at a slot, and says how many entries that added.
fn put_among(runs: &mut Vec<Run>, slot: Slot, datum: Datum) -> Result<usize, NoMemory>
    requires some { 0 < vec_len runs.old }
    requires are_runs { AreRuns runs.old.items }
    ensures ok { OnOk result (entries_of runs.new.items ≡ with_value (entries_of runs.old.items) slot datum) }
    ensures added { IfOk result (λ added. length (entries_of runs.new.items) ≡ length (entries_of runs.old.items) + added) }
    ensures one { IfOk result (λ added. added ≤ 1) }
    ensures err { OnErr result (entries_of runs.new.items ≡ entries_of runs.old.items) }
    ensures are_runs { AreRuns runs.new.items }
{
    let i = run_of(runs, slot.key, slot.sub.as_ref());
    match place(&runs[i], slot.key, slot.sub.as_ref()) {
        Ok(place) => {
            let run = &mut runs[i];
            run[place].1 = datum;
            Ok(0)
        }
        Err(place) => {
            insert_at(runs, i, place, (slot, datum))?;
            Ok(1)
        }
    }
}

// Adds an entry at a place of a run. A full run is split first, unless the entry goes behind it.
fn insert_at(
    runs: &mut Vec<Run>,
    i: usize,
    place: usize,
    entry: (Slot, Datum),
) -> Result<(), NoMemory>
    requires run { i < vec_len runs.old }
    requires place { IfSome (slice_get runs.old.items i) (λ run. place ≤ length run.items) }
    requires filled { AreFilled runs.old.items }
    ensures ok { OnOk result (entries_of runs.new.items ≡ with_entry runs.old.items i place entry) }
    ensures err { OnErr result (entries_of runs.new.items ≡ entries_of runs.old.items) }
    ensures filled { AreFilled runs.new.items }
{
    let len = runs[i].len();
    if len < MOST_RUN {
        insert_into(runs, i, place, entry)
    } else if place < len {
        insert_into_half(runs, i, place, entry)
    } else {
        insert_behind(runs, i, entry)
    }
}

// Adds an entry at a place of a run.
fn insert_into(
    runs: &mut Vec<Run>,
    i: usize,
    place: usize,
    entry: (Slot, Datum),
) -> Result<(), NoMemory>
    requires run { i < vec_len runs.old }
    requires place { IfSome (slice_get runs.old.items i) (λ run. place ≤ length run.items) }
    requires filled { AreFilled runs.old.items }
    ensures ok { OnOk result (entries_of runs.new.items ≡ with_entry runs.old.items i place entry) }
    ensures err { OnErr result (entries_of runs.new.items ≡ entries_of runs.old.items) }
    ensures filled { AreFilled runs.new.items }
{
    let run = &mut runs[i];
    run.insert(place, entry)?;
    Ok(())
}

// Splits a run in two halves, and adds an entry at a place of it.
fn insert_into_half(
    runs: &mut Vec<Run>,
    i: usize,
    place: usize,
    entry: (Slot, Datum),
) -> Result<(), NoMemory>
    requires run { i < vec_len runs.old }
    requires two { IfSome (slice_get runs.old.items i) (λ run. 2 ≤ length run.items) }
    requires place { IfSome (slice_get runs.old.items i) (λ run. place ≤ length run.items) }
    requires filled { AreFilled runs.old.items }
    ensures ok { OnOk result (entries_of runs.new.items ≡ with_entry runs.old.items i place entry) }
    ensures err { OnErr result (entries_of runs.new.items ≡ entries_of runs.old.items) }
    ensures filled { AreFilled runs.new.items }
{
    let middle = split(runs, i)?;
    if place <= middle {
        insert_into(runs, i, place, entry)
    } else {
        insert_into(runs, i + 1, place - middle, entry)
    }
}

// Adds an entry between a run and the next one: to that one where it is less than half full, else as a run of its own.
fn insert_behind(runs: &mut Vec<Run>, i: usize, entry: (Slot, Datum)) -> Result<(), NoMemory>
    requires run { i < vec_len runs.old }
    requires filled { AreFilled runs.old.items }
    ensures ok { OnOk result (entries_of runs.new.items ≡ with_entry runs.old.items (i + 1) 0 entry) }
    ensures err { OnErr result (entries_of runs.new.items ≡ entries_of runs.old.items) }
    ensures filled { AreFilled runs.new.items }
{
    if i + 1 < runs.len() && runs[i + 1].len() < HALF_RUN {
        insert_into(runs, i + 1, 0, entry)
    } else {
        begin(runs, i + 1, entry)
    }
}

// Adds a run of one entry in front of a run, or behind the last one.
fn begin(runs: &mut Vec<Run>, i: usize, entry: (Slot, Datum)) -> Result<(), NoMemory>
    requires run { i ≤ vec_len runs.old }
    requires filled { AreFilled runs.old.items }
    ensures ok { OnOk result (entries_of runs.new.items ≡ with_entry runs.old.items i 0 entry) }
    ensures err { OnErr result (entries_of runs.new.items ≡ entries_of runs.old.items) }
    ensures filled { AreFilled runs.new.items }
{
    let mut run = Vec::new(*runs.allocator());
    run.push(entry)?;
    runs.insert(i, run)?;
    Ok(())
}

// Splits a run in two halves, and says how many entries the first one has.
fn split(runs: &mut Vec<Run>, i: usize) -> Result<usize, NoMemory>
    requires run { i < vec_len runs.old }
    requires two { IfSome (slice_get runs.old.items i) (λ run. 2 ≤ length run.items) }
    requires filled { AreFilled runs.old.items }
    ensures ok { IfOk result (λ middle. IsSplit runs.old.items runs.new.items i middle) }
    ensures err { OnErr result (runs.new.items ≡ runs.old.items) }
{
    // Room for the tail comes first, so that once it is split off nothing can fail.
    runs.reserve(1)?;
    let run = &mut runs[i];
    let middle = run.len() / 2;
    let tail = run.split_off(middle)?;
    runs.insert(i + 1, tail)?;
    Ok(middle)
}

// What stands at a slot.
fn value_in<'a>(runs: &'a [Run], key: u32, sub: Option<&Text>) -> Option<&'a Datum>
    requires { AreRuns runs.now }
    ensures { option_copied result ≡ value_of (at key (option_copied sub.entry)) (entries_of runs.now) }
{
    if runs.is_empty() {
        return None;
    }
    let run = &runs[run_of(runs, key, sub)];
    match place(run, key, sub) {
        Ok(place) => {
            let entry = &run[place];
            Some(&entry.1)
        }
        Err(_) => None,
    }
}

// The last run that begins with no later slot than the given one, or the first run.
fn run_of(runs: &[Run], key: u32, sub: Option<&Text>) -> usize
    requires some { 0 < length runs.now }
    requires are_runs { AreRuns runs.now }
    ensures within { result < length runs.now }
    ensures before { AreBefore (at key (option_copied sub.entry)) (entries_of (take result runs.now)) }
    ensures after { AreAfter (at key (option_copied sub.entry)) (entries_of (drop (result + 1) runs.now)) }
{
    let mut first = 0;
    let mut end = runs.len();
    while first + 1 < end {
        let middle = first + (end - first) / 2;
        let run = &runs[middle];
        let entry = &run[0];
        match order(key, sub, &entry.0) {
            Ordering::Less => end = middle,
            _ => first = middle,
        }
    }
    first
}

// The place of a slot in a run, or the place to which it goes.
fn place(entries: &[(Slot, Datum)], key: u32, sub: Option<&Text>) -> Result<usize, usize>
    requires { AreAscending entries.now }
    ensures { IsPlace (at key (option_copied sub.entry)) entries.now result }
{
    entries.binary_search_by(|entry| order(key, sub, &entry.0).reverse())
}

// The entries that do not stand before the slots of a key.
fn entries_from(runs: &[Run], key: u32) -> Entries<'_>
    requires { AreRuns runs.now }
    ensures { front_under key result ≡ under key (entries_of runs.now) }
{
    if runs.is_empty() {
        return Entries::none();
    }
    let i = run_of(runs, key, None);
    let run = &runs[i];
    let first = first_place(run, key);
    Entries::new(&run[first..], &runs[i + 1..])
}

// The place of the first entry of a run that does not stand before the slots of a key.
fn first_place(entries: &[(Slot, Datum)], key: u32) -> usize
    requires { AreAscending entries.now }
    ensures within { result ≤ length entries.now }
    ensures before { AreBefore (at key None) (take result entries.now) }
    ensures from { IfSome (slice_get entries.now result) (λ e. key ≤ e.0.key) }
{
    match place(entries, key, None) {
        Ok(place) => place,
        Err(place) => place,
    }
}

// The entry at a place, which is counted from the first run on.
fn entry_at(runs: &[Run], place: usize) -> &(Slot, Datum)
    requires { place < length (entries_of runs.now) }
    ensures { slice_get (entries_of runs.now) place ≡ Some result.now }
{
    let mut left = place;
    for run in runs {
        if left < run.len() {
            return &run[left];
        }
        left -= run.len();
    }
    unreachable!()
}

// Whether each entry of the runs fits the table.
fn are_legal(runs: &[Run], table: &KeyTable) -> bool
    ensures { result ≡ are_legal table.now runs.now }
{
    runs.iter().all(|run| is_run_legal(run, table))
}

// Whether each entry of a run fits the table.
fn is_run_legal(entries: &[(Slot, Datum)], table: &KeyTable) -> bool
    ensures { result ≡ is_legal table.now entries.now }
{
    entries
        .iter()
        .all(|entry| table.datum_fits(&entry.0, &entry.1))
}

// Runs with the same entries.
fn copy_of(runs: &Vec<Run>) -> Result<Vec<Run>, NoMemory>
    ensures { IfOk result (λ copy. parts_of copy.items ≡ parts_of runs.now.items) }
{
    let mut copy = Vec::with_capacity(*runs.allocator(), runs.len())?;
    for run in runs {
        copy.push(copy_run(run)?)?;
    }
    Ok(copy)
}

// A run with the same entries.
fn copy_run(run: &Run) -> Result<Run, NoMemory>
    ensures { IfOk result (λ copy. copy.items ≡ run.now.items) }
{
    let mut copy = Vec::with_capacity(*run.allocator(), run.len())?;
    for (slot, datum) in run {
        copy.push((slot.copy()?, datum.copy()?))?;
    }
    Ok(copy)
}
