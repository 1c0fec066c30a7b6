//! What assumptions leave to a slot, as its set of options tells it, and what a store knows under assumptions.

ghost use Rattle.std.specs.Prelude.{◌≡◌, length};

use crate::cases::expanded;
use crate::certificates::problem;
use crate::values::{atom, entry};
use domain_store::Store;
use interval_domains::{SlotDomain, SlotSet};
use key_table::{Atom, Datum, KeyTable, Payment, Slot, Verdict3};
use rule_problem::{Literal, problem_fits};
use std::alloc::Global;
use std::test::Fail;

// The keys of both tables.
const KEYS: &[u8] = br#"key = [
{ name = "method", kind = "enum", variants = ["card", "wallet", "bank"] },
{ name = "amount", kind = "number", min = 0, max = 9223372036854775807 },
{ name = "card_bin", kind = "text" },
{ name = "data", kind = "metadata" },
{ name = "nothing", kind = "enum", variants = [] },
{ name = "part", kind = "number", min = 10, max = 20 },
{ name = "whole", kind = "number", min = -9223372036854775808, max = 9223372036854775807 },
{ name = "seven", kind = "number", min = 7, max = 7 },
]"#;

// An atom and assumptions on its slot, each an atom behind a `+` where it is true and a `-` where it is false. In front of them
// what is known of the atom, or `void` where no option is left, and the option that is picked.
const ASKED: &str = "entailed 1=number:6 of any 1 >:3 given +any 1 >:5
refuted 1=number:6 of any 1 <:3 given +any 1 >:5
undecided 1=number:6 of any 1 >:9 given +any 1 >:5
undecided absent of any 1 >:3 given -any 1 >:5
refuted absent of any 1 >:9 given -any 1 >:5
entailed 2=text:|256*a| of none 2 text:|255*9| given +none 2 text:|255*9|
refuted absent of any 2 text:34 given -any 2 text:34
undecided absent of none 2 given -any 2 text:34
refuted absent of any 0
undecided absent of none 0
undecided absent of any 0 variant:0 variant:1 variant:2
refuted absent of none 0 variant:0 variant:1 variant:2
entailed 0=variant:0 of any 0 variant:2 variant:1 variant:0 given +none 0
undecided 0=variant:0 of any 0 variant:2 given +none 0
refuted 0=variant:0 of any 0 given +none 0
entailed 0=variant:1 of any 0 variant:2 variant:1 given +none 0 variant:0
refuted 0=variant:1 of any 0 variant:0 given +none 0 variant:0
entailed 0=variant:2 of any 0 variant:2 given +none 0 variant:0 variant:1
void - of none 0 given +none 0 variant:0 variant:1 variant:2
void - of any 0 variant:0 given +any 0
refuted absent of none 0 given -none 0
undecided absent of none 0 given -any 0
refuted absent of any 0 variant:1 given -any 0 variant:1
undecided absent of any 0 variant:0 given -any 0 variant:1
entailed 0=variant:1 of any 0 variant:1 given -none 0 variant:1;+none 0
refuted absent of none 0 given -any 0 variant:0 variant:1 variant:2
entailed 0=variant:2 of none 0 variant:0 variant:1 given +any 0 variant:0 variant:2;+any 0 variant:1 variant:2
void - of any 0 variant:0 given +any 0 variant:0;+any 0 variant:1
entailed 0=variant:1 of any 0 variant:1 variant:1 given +any 0 variant:1 variant:1
refuted absent of any 4
refuted absent of none 4
refuted absent of none 4 given -none 4
refuted absent of none 4 given -any 4
void - of any 4 given +none 4
refuted 5=number:10 of any 5 =:9 given +none 5
undecided 5=number:10 of any 5 =:10 given +none 5
undecided 5=number:10 of any 5 =:20 given +none 5
refuted 5=number:10 of any 5 =:21 given +none 5
entailed 5=number:10 of any 5 !=:9 given +none 5
undecided 5=number:10 of any 5 !=:10 given +none 5
undecided 5=number:10 of any 5 !=:20 given +none 5
entailed 5=number:10 of any 5 !=:21 given +none 5
refuted 5=number:10 of any 5 <:10 given +none 5
undecided 5=number:10 of any 5 <:11 given +none 5
undecided 5=number:10 of any 5 <:20 given +none 5
entailed 5=number:10 of any 5 <:21 given +none 5
refuted 5=number:10 of any 5 <=:9 given +none 5
undecided 5=number:10 of any 5 <=:10 given +none 5
undecided 5=number:10 of any 5 <=:19 given +none 5
entailed 5=number:10 of any 5 <=:20 given +none 5
entailed 5=number:10 of any 5 >:9 given +none 5
undecided 5=number:10 of any 5 >:10 given +none 5
undecided 5=number:10 of any 5 >:19 given +none 5
refuted 5=number:10 of any 5 >:20 given +none 5
entailed 5=number:10 of any 5 >=:10 given +none 5
undecided 5=number:10 of any 5 >=:11 given +none 5
undecided 5=number:10 of any 5 >=:20 given +none 5
refuted 5=number:10 of any 5 >=:21 given +none 5
refuted 5=number:10 of any 5 given +none 5
entailed 5=number:10 of none 5 given +none 5
void - of none 5 given +any 5
undecided absent of none 5 given -any 5
refuted absent of none 5 given -none 5
refuted absent of any 5 given -none 5
void - of none 5 given +any 5 =:9
entailed 5=number:10 of any 5 <=:10 given +any 5 =:10
entailed 5=number:20 of any 5 >=:20 given +any 5 =:20
void - of none 5 given +any 5 =:21
undecided 5=number:10 of any 5 =:10 given +any 5 !=:9
refuted 5=number:11 of any 5 =:10 given +any 5 !=:10
refuted 5=number:10 of any 5 >:19 given +any 5 !=:20
void - of none 5 given +any 5 <:10
entailed 5=number:10 of any 5 =:10 given +any 5 <:11
void - of none 5 given +any 5 <=:9
entailed 5=number:10 of any 5 =:10 given +any 5 <=:10
entailed 5=number:20 of any 5 =:20 given +any 5 >:19
void - of none 5 given +any 5 >:20
entailed 5=number:20 of any 5 =:20 given +any 5 >=:20
void - of none 5 given +any 5 >=:21
refuted absent of any 5 =:10 given -any 5 =:10
undecided absent of none 5 given -any 5 =:10
refuted absent of none 5 given -any 5 >=:10
refuted absent of none 5 given -any 5 <=:20
void - of none 5 given -any 5 >=:10;+none 5
entailed 5=number:20 of any 5 =:20 given -any 5 !=:20;+none 5
entailed 5=number:10 of any 5 =:10 given -any 5 >:10;+none 5
entailed 5=number:20 of any 5 =:20 given -any 5 <:20;+none 5
undecided absent of any 5 <:20 given -none 5 <:20
refuted absent of any 5 =:20 given -none 5 <:20
entailed 5=number:10 of any 5 =:10 given -none 5 =:10;+none 5
entailed 5=number:20 of any 5 =:20 given +none 5 <:20
entailed 5=number:10 of any 5 =:10 given +none 5 >:10
entailed 5=number:10 of any 5 =:10 given +none 5 !=:10
entailed 5=number:15 of any 5 =:15 given +none 5 <:15 >:15
refuted absent of none 5 <:15 >=:15
undecided 5=number:10 of any 5 =:15 given +any 5 <:12 >:18 =:15
refuted 5=number:10 of none 5 =:15 <:12 >:18 given +any 5 <:12 >:18 =:15
refuted 5=number:10 of any 5 =:12 =:13 =:14 =:16 =:17 =:18 given +any 5 <:12 >:18 =:15
entailed 5=number:10 of any 5 <=:11 =:15 >=:19 given +any 5 <:12 >:18 =:15
entailed 5=number:15 of any 5 =:15 >:18 given +any 5 <:12 >:18 =:15;+none 5 <:15
entailed 5=number:19 of any 5 >=:19 given +any 5 <:12 >:18 =:15;+none 5 <:15;+none 5 =:15
void - of any 5 =:15 given +any 5 <:12 >:18 =:15;-any 5 =:15;+any 5 >=:12;+any 5 <=:18
entailed 5=number:10 of any 5 <=:12 given +any 5 =:12 =:10 =:11
undecided 5=number:10 of any 5 <:15 given +any 5 >=:15 <:15
refuted 5=number:12 of any 5 =:13 =:15 given +any 5 =:16 =:12 =:14
entailed 5=number:12 of none 5 =:13 =:15 given +any 5 =:16 =:12 =:14
undecided 5=number:12 of any 5 !=:12 given +any 5 =:16 =:12 =:14
entailed 5=number:13 of any 5 =:13 =:15 given +none 5 <:13 >:15 =:14
refuted 6=number:-9223372036854775808 of any 6 <:-9223372036854775808 given +none 6
undecided 6=number:-9223372036854775808 of any 6 <=:-9223372036854775808 given +none 6
entailed 6=number:-9223372036854775808 of any 6 >=:-9223372036854775808 given +none 6
undecided 6=number:-9223372036854775808 of any 6 >:-9223372036854775808 given +none 6
undecided 6=number:-9223372036854775808 of any 6 =:-9223372036854775808 given +none 6
undecided 6=number:-9223372036854775808 of any 6 !=:-9223372036854775808 given +none 6
refuted 6=number:-9223372036854775808 of any 6 >:9223372036854775807 given +none 6
undecided 6=number:-9223372036854775808 of any 6 >=:9223372036854775807 given +none 6
entailed 6=number:-9223372036854775808 of any 6 <=:9223372036854775807 given +none 6
undecided 6=number:-9223372036854775808 of any 6 <:9223372036854775807 given +none 6
undecided 6=number:-9223372036854775808 of any 6 =:9223372036854775807 given +none 6
undecided 6=number:-9223372036854775808 of any 6 !=:9223372036854775807 given +none 6
refuted 6=number:-9223372036854775807 of any 6 =:-9223372036854775808 given +any 6 >:-9223372036854775808
entailed 6=number:9223372036854775807 of any 6 =:9223372036854775807 given +any 6 >=:9223372036854775807
void - of none 6 given +any 6 >:9223372036854775807
void - of none 6 given +any 6 <:-9223372036854775808
entailed 6=number:9223372036854775806 of any 6 =:9223372036854775806 given +any 6 <:9223372036854775807;+any 6 >:9223372036854775805
entailed 6=number:-9223372036854775808 of none 6 given +any 6 !=:-9223372036854775808 !=:9223372036854775807
entailed 6=number:9223372036854775807 of any 6 =:9223372036854775807 given +none 6 !=:9223372036854775807
entailed 6=number:-9223372036854775807 of any 6 >:-9223372036854775808 given +none 6 =:9223372036854775807 =:-9223372036854775808
entailed 6=number:-9223372036854775807 of any 6 <:9223372036854775807 given +none 6 =:9223372036854775807 =:-9223372036854775808
refuted absent of none 6 given -any 6 <=:9223372036854775807
entailed 6=number:-9223372036854775808 of any 6 <:0 >:0 given +any 6 =:9223372036854775807 =:-9223372036854775808
refuted 6=number:-9223372036854775808 of any 6 =:0 given +any 6 =:9223372036854775807 =:-9223372036854775808
undecided 6=number:-9223372036854775808 of any 6 <:0 given +any 6 =:9223372036854775807 =:-9223372036854775808
undecided 6=number:1 of any 6 =:1 given +any 6 <:0 >:0;+any 6 >=:0
entailed 6=number:-9223372036854775808 of any 6 <:0 >:99 given +none 6 |100*=:# |
refuted 6=number:-9223372036854775808 of any 6 |100*=:# | given +none 6 |100*=:# |
entailed 7=number:7 of any 7 =:7 given +none 7
void - of none 7 given +any 7 !=:7
refuted absent of none 7 given -any 7 =:7
refuted absent of any 2
undecided absent of none 2
undecided absent of any 2 text:
entailed 2=text:|256*a| of none 2 given +none 2
undecided 2=text:|256*a| of any 2 text:a given +none 2
undecided 2=text:|256*a| of none 2 text:a given +none 2
refuted 2=text:|256*a| of any 2 given +none 2
void - of none 2 given +any 2
refuted absent of none 2 given -none 2
undecided 2=text:a of any 2 text:b given +any 2 text:b text:ab text:a
entailed 2=text:a of any 2 text:a text:b text:ab given +any 2 text:b text:ab text:a
refuted 2=text:a of any 2 text:c given +any 2 text:b text:ab text:a
entailed 2=text:a of none 2 text:c given +any 2 text:b text:ab text:a
undecided 2=text:a of none 2 text:a given +any 2 text:b text:ab text:a
undecided 2=text: of any 2 text: given +any 2 text:a text:
void - of any 2 text: given +any 2 text:;+none 2 text:
entailed 2=text:b of any 2 text:b given +any 2 text:b text:ab;+none 2 text:ab
refuted 2=text:|256*a| of any 2 text:a given +none 2 text:a text:b
undecided 2=text:|256*a| of any 2 text:c given +none 2 text:a text:b
entailed 2=text:|256*a| of none 2 text:a given +none 2 text:a text:b
undecided 2=text:|256*a| of none 2 text:c given +none 2 text:a text:b
entailed 2=text:|255*a| of any 2 text:|255*a| given +any 2 text:|255*a|
refuted 2=text:|255*a| of none 2 text:|255*a| given +any 2 text:|255*a|
refuted 2=text:|256*a| of any 2 text:|255*a| given -any 2 text:|255*a|;+none 2
undecided absent of none 2 text:|255*a| given -any 2 text:|255*a|
undecided 2=text:z of any 2 text:z given +any 2 text:é text:z
undecided 2=text:Z of none 2 text:a given +any 2 text:a text:Z
undecided absent of any 2 text:a given -none 2 text:a
refuted absent of any 2 text:b given -none 2 text:a
entailed 2=text:a of any 2 text:a given -none 2 text:a;+none 2
refuted 2=text:|256*a| of any 2 text:a text:b text:c given -any 2 text:a text:b;-any 2 text:c;+none 2
refuted absent of none 2 given -none 2 text:a;-any 2 text:a
void - of none 2 given -none 2 text:a;-any 2 text:a;+none 2
undecided absent of none 3/x
refuted absent of any 3/x
entailed 3/x=text:gold of any 3/x text:gold given +any 3/x text:gold
refuted 3/x=text:gold of any 3/x text:silver given +any 3/x text:gold
refuted 3/|255*s|=text:|256*a| of any 3/|255*s| text:a given +none 3/|255*s| text:a
entailed 3/=text:|256*a| of none 3/ given +none 3/
refuted absent of any 3/x text:gold given -any 3/x text:gold
void - of none 3/x given -none 3/x;+none 3/x";

// What stands behind a `+` or a `-`, and whether it is a `+`.
fn signed(word: &str) -> Option<(&str, bool)> {
    match word.strip_prefix('-') {
        Some(text) => Some((text, false)),
        None => Some((word.strip_prefix('+')?, true)),
    }
}

// The options that assumptions leave to a slot.
fn domain_left(
    alloc: Global,
    table: &KeyTable,
    slot: &Slot,
    assumptions: &str,
) -> Option<SlotDomain> {
    if !table.slot_fits(slot) {
        return None;
    }
    let mut domain = SlotDomain::full(alloc, table, slot).ok()?;
    for word in assumptions.split_terminator(';') {
        let (text, truth) = signed(word)?;
        let atom = atom(alloc, text)?;
        if !table.atom_fits(&atom) || atom.slot != *domain.slot() {
            return None;
        }
        domain.keep(alloc, table, &atom, truth).ok()?;
    }
    Some(domain)
}

fn word_of(verdict: Verdict3) -> &'static str {
    match verdict {
        Verdict3::Entailed => "entailed",
        Verdict3::Refuted => "refuted",
        Verdict3::Undecided => "undecided",
    }
}

// Whether the option is as a word says: `absent`, or an entry of the slot.
fn pick_is(alloc: Global, slot: &Slot, picked: &Option<Datum>, word: &str) -> bool {
    match entry(alloc, word) {
        Some((place, datum)) => place == *slot && *picked == Some(datum),
        None => picked.is_none() && word == "absent",
    }
}

// Whether a set of options tells this of an atom, and picks this.
fn domain_tells(
    alloc: Global,
    table: &KeyTable,
    domain: &SlotDomain,
    atom: &Atom,
    wanted: &str,
) -> Option<bool> {
    let (verdict, pick) = wanted.split_once(' ')?;
    if domain.is_void() {
        return Some(verdict == "void" && pick == "-");
    }
    if !table.atom_fits(atom) || atom.slot != *domain.slot() {
        return None;
    }
    if word_of(domain.verdict(table, atom)) != verdict {
        return Some(false);
    }
    let picked = domain.pick(alloc).ok()?;
    Some(pick_is(alloc, domain.slot(), &picked, pick))
}

// Whether the options are as a line says.
fn is_told(alloc: Global, table: &KeyTable, line: &str) -> Option<bool> {
    let (wanted, words) = line.split_once(" of ")?;
    let (asked, assumptions) = words.split_once(" given ").unwrap_or((words, ""));
    let atom = atom(alloc, asked)?;
    let domain = domain_left(alloc, table, &atom.slot, assumptions)?;
    domain_tells(alloc, table, &domain, &atom, wanted)
}

#[test]
fn assumptions_leave_options(rt: HostRuntime) -> Result<(), Fail> {
    let alloc = rt.alloc();
    let table = KeyTable::from_toml(alloc, KEYS)?;
    for line in expanded(alloc, ASKED)?.lines() {
        assert_eq!(rt; is_told(alloc, &table, line), Some(true), "at {line}");
    }
    Ok(())
}

// What a store is told: that the atom with a number is true behind a `+`, that it is false behind a `-`, or to take the last
// assumption back. Behind that stand the number of assumptions then; what is known of each atom, of the path on which the last
// two are true, and of the goal, which is the last one: `+` where it is entailed, `-` where it is refuted; and the payment.
const STEPS: &str = "+0 1 ++??? 1=number:201
+2 2 +++++ 1=number:201;2=text:34
undo 1 ++??? 1=number:201
-2 2 ++--- 1=number:201
undo 1 ++??? 1=number:201
undo 0 ?????
-1 1 --?-?
+2 2 --+-+ 2=text:34
undo 1 --?-?
-2 2 -----
undo 1 --?-?
undo 0 ?????
+1 1 ?+??? 1=number:101
+0 2 ++??? 1=number:201
undo 1 ?+??? 1=number:101
-0 2 -+??? 1=number:101
-2 3 -+--- 1=number:101
undo 2 -+??? 1=number:101
undo 1 ?+??? 1=number:101
undo 0 ?????
+2 1 ??+?+ 2=text:34
-0 2 -?+?+ 2=text:34
+1 3 -++++ 1=number:101;2=text:34";

// An amount above 200 is wanted, one above 100 is barred, and the goal is one text.
const AMOUNTS: &str = "atoms any 1 >:200, any 1 >:100, any 2 text:34
wants +0
bars +1
graph value 2 text:34, all, edge +0 1
goal 1";

fn take_step(alloc: Global, store: &mut Store<'_>, word: &str) -> Option<()>
    requires { length store.old.problem.atoms ≡ 3 }
    ensures { store.new.problem ≡ store.old.problem }
{
    if word == "undo" {
        if store.assumptions().is_empty() {
            return None;
        }
        store.undo();
        return Some(());
    }
    let (number, truth) = signed(word)?;
    let number: u32 = number.parse().ok()?;
    if number >= 3 || store.atom_verdict(number) != Verdict3::Undecided {
        return None;
    }
    store.assume(alloc, number, truth).ok()
}

fn mark(verdict: Verdict3) -> char {
    match verdict {
        Verdict3::Entailed => '+',
        Verdict3::Refuted => '-',
        Verdict3::Undecided => '?',
    }
}

// What is known of the atoms, of the path and of the goal.
fn marks(alloc: Global, store: &Store<'_>) -> Option<String>
    requires { length store.now.problem.atoms ≡ 3 }
{
    let mut marks = String::new(alloc);
    for number in 0..3 {
        marks.push(mark(store.atom_verdict(number))).ok()?;
    }
    let path = [1, 2].map(|atom| Literal { atom, want: true });
    marks.push(mark(store.path_verdict(&path))).ok()?;
    marks.push(mark(store.goal_verdict(alloc).ok()?)).ok()?;
    Some(marks)
}

// Whether a payment has these entries and no other.
fn payment_is(alloc: Global, payment: &Payment, entries: &str) -> Option<bool> {
    for word in entries.split_terminator(';') {
        let (slot, datum) = entry(alloc, word)?;
        if payment.get(&slot) != Some(&datum) {
            return Some(false);
        }
    }
    Some(payment.count() == entries.split_terminator(';').count())
}

// Whether a store is as a line says after its step.
fn is_stepped(alloc: Global, store: &mut Store<'_>, line: &str) -> Option<bool>
    requires { length store.old.problem.atoms ≡ 3 }
    ensures { store.new.problem ≡ store.old.problem }
{
    let (word, rest) = line.split_once(' ')?;
    let (count, rest) = rest.split_once(' ')?;
    let (wanted, entries) = rest.split_once(' ').unwrap_or((rest, ""));
    take_step(alloc, store, word)?;
    Some(
        store.assumptions().len() == count.parse::<usize>().ok()?
            && marks(alloc, store)?.as_str() == wanted
            && payment_is(alloc, &store.payment(alloc).ok()?, entries)?,
    )
}

#[test]
fn stores_take_assumptions_back(rt: HostRuntime) -> Result<(), Fail> {
    let alloc = rt.alloc();
    let table = KeyTable::from_toml(alloc, KEYS)?;
    let problem = problem(alloc, AMOUNTS).ok_or(AMOUNTS)?;
    assert!(rt; problem_fits(&table, &problem));
    assert_eq!(rt; problem.atoms.as_slice().len(), 3);
    let mut store = Store::new(alloc, &table, &problem)?;
    for line in STEPS.lines() {
        assert_eq!(rt;
            is_stepped(alloc, &mut store, line),
            Some(true),
            "at {line}"
        );
    }
    Ok(())
}
