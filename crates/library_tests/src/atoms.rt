//! Whether payments are legal, and whether atoms fit and hold.

use crate::cases::expanded;
use crate::values::{atom, payment};
use key_table::{Atom, KeyTable, Payment, atom_holds};
use std::alloc::Global;
use std::collections::BTreeSet;
use std::test::Fail;

// The keys by which ATOMS is judged.
const KEYS: &[u8] = br#"key = [
{ name = "method", kind = "enum", variants = ["card", "wallet"] },
{ name = "amount", kind = "number", min = 10, max = 20 },
{ name = "bin", kind = "text" },
{ name = "data", kind = "metadata" },
]"#;

// A payment and an atom, after four marks, each 1 or 0: whether each slot is legal, whether the payment is, whether the atom
// fits, and whether it holds of the payment. No two lines have one atom.
const ATOMS: &str = "1111 0=variant:0 any 0 variant:0
1111 0=variant:1 any 0 variant:1 variant:0
1110 0=variant:1 none 0 variant:0 variant:1
1111 0=variant:0 none 0 variant:1
1110 0=variant:0 any 0 variant:1
1001 0=variant:2 any 0 variant:2
1001 0=number:0 any 0 =:0
1001 0=text:card any 0 text:card
0001 0/a=variant:0 any 0/a variant:0
1110 0=variant:0 any 1 =:5
1110 0=variant:0 none 1 =:5
1011 1=number:9 any 1 =:9
1111 1=number:10 any 1 =:10
1111 1=number:20 any 1 =:20
1011 1=number:21 any 1 =:21
1001 1=variant:15 any 1 variant:15
1001 1=text:15 any 1 text:15
0001 1/a=number:15 any 1/a =:15
1110 1=number:15 any 1 =:14
1111 1=number:15 any 1 =:15
1110 1=number:15 any 1 =:16
1111 1=number:15 any 1 !=:14
1110 1=number:15 any 1 !=:15
1111 1=number:15 any 1 !=:16
1110 1=number:15 any 1 <:14
1110 1=number:15 any 1 <:15
1111 1=number:15 any 1 <:16
1110 1=number:15 any 1 <=:14
1111 1=number:15 any 1 <=:15
1111 1=number:15 any 1 <=:16
1111 1=number:15 any 1 >:14
1110 1=number:15 any 1 >:15
1110 1=number:15 any 1 >:16
1111 1=number:15 any 1 >=:14
1111 1=number:15 any 1 >=:15
1110 1=number:15 any 1 >=:16
1110 1=number:15 any 1
1111 1=number:15 none 1
1111 1=number:15 none 1 <:15 >:15
1111 1=number:15 any 1 |4096*<=:# |
1101 1=number:15 any 1 |4097*<=:# |
1111 2=text: any 2 text:
1110 2=text:card any 2 text:car text:cards text:Card
1111 2=text:|255*a| any 2 text:|255*a|
1101 2=text:|256*a| any 2 text:|256*a|
1111 2=text:|1024*a| none 2 text:a
1011 2=text:|1025*a| none 2 text:b
1001 2=variant:0 any 2 variant:0
1001 2=number:0 any 2 =:0
0001 2/a=text:a any 2/a text:a
1111 3/=text: any 3/ text:
1111 3/|255*s|=text:a any 3/|255*s| text:a
0001 3/|256*s|=text:a any 3/|256*s| text:a
1111 3/a=text:|255*a| any 3/a text:|255*a|
1101 3/a=text:|256*a| any 3/a text:|256*a|
1111 3/a=text:|1024*a| none 3/a text:a
1011 3/a=text:|1025*a| none 3/a text:b
1001 3/a=variant:0 any 3/a variant:0
1001 3/a=number:0 any 3/a =:0
1110 3/a=text:a any 3/b text:a
0001 3=text:a any 3 text:a
0001 4=text:a any 4 text:a
0001 4294967295=number:0 any 4294967295 =:0
1111 0=variant:0;1=number:10;3/a=text:a any 3/a text:a text:b
1011 0=variant:0;1=number:9;3/a=text:a any 3/a text:b text:a
0011 0=variant:0;2/a=text:a any 0 variant:0 variant:1";

// Whether each slot of a payment is legal.
fn slots_fit(table: &KeyTable, payment: &Payment) -> bool {
    for (slot, _) in payment.iter() {
        if !table.slot_fits(slot) {
            return false;
        }
    }
    true
}

fn marks(table: &KeyTable, payment: &Payment, atom: &Atom) -> [bool; 4] {
    [
        slots_fit(table, payment),
        payment.legal(table),
        table.atom_fits(atom),
        atom_holds(atom, payment),
    ]
}

// The four marks of a line, by its payment and its atom, and the atom.
fn judged(alloc: Global, table: &KeyTable, line: &str) -> Option<([bool; 4], Atom)> {
    let (_, rest) = line.split_once(' ')?;
    let (entries, words) = rest.split_once(' ')?;
    let atom = atom(alloc, words)?;
    Some((marks(table, &payment(alloc, entries)?, &atom), atom))
}

#[test]
fn atoms_fit_and_hold(rt: HostRuntime) -> Result<(), Fail> {
    let alloc = rt.alloc();
    let table = KeyTable::from_toml(alloc, KEYS)?;
    let lines = expanded(alloc, ATOMS)?;
    let mut atoms = BTreeSet::new(alloc);
    for line in lines.lines() {
        let (found, atom) = judged(alloc, &table, line).ok_or(line)?;
        for (found, wanted) in found.iter().zip(line.chars()) {
            assert_eq!(rt; *found, wanted == '1', "at {line}");
        }
        assert!(rt; atoms.insert(atom.copy()?)?, "at {line}");
    }
    Ok(())
}
