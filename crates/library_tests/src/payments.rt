//! What stands in payments.

use crate::cases::expanded;
use crate::values::{entry, payment, slot};
use indexmap::IndexSet;
use key_table::{Datum, Payment, Slot};
use std::alloc::Global;
use std::test::Fail;

// The number of slots that are there, what was put one after the other, and then what stands at places, or where nothing
// stands.
const PAYMENTS: &str = "9
10/b=text:B;0=variant:1;7=number:340;5=variant:2;7=number:341;10/=text:E;10/aa=text:A;10/B=text:C;10/é=text:D;10=number:-1
0 0=variant:1
1 5=variant:2
2 7=number:341
3 10=number:-1
4 10/=text:E
5 10/B=text:C
6 10/aa=text:A
7 10/b=text:B
8 10/é=text:D
- 1
- 0/a
- 10/a
- 11
===
10000
|3333*10/#b=text:#;||3333*10/#a=text:#;||3333*10/#c=text:#;|10=variant:0
0 10=variant:0
1 10/0a=text:0
2 10/0b=text:0
3 10/0c=text:0
4 10/1000a=text:1000
6 10/1000c=text:1000
34 10/100a=text:100
6659 10/2999b=text:2999
7767 10/332c=text:332
7774 10/3332a=text:3332
7777 10/333a=text:333
8001 10/3c=text:3
9992 10/999b=text:999
9993 10/999c=text:999
9999 10/9c=text:9
- 10/3333a
- 10/0
- 10/0d
- 9/0
- 11/0
";

// The number of slots that are put, by hash.
fn count_slots(alloc: Global, entries: &str) -> Option<usize> {
    let mut slots = IndexSet::new(alloc);
    for word in entries.split_terminator(';') {
        slots.insert(entry(alloc, word)?.0).ok()?;
    }
    Some(slots.len())
}

// Whether the entry is found, and stands at the place, behind a lesser slot.
fn stands(payment: &Payment, place: usize, slot: &Slot, datum: &Datum) -> bool {
    place < payment.count()
        && payment.get(slot) == Some(datum)
        && payment.slot_of(place) == slot
        && payment.datum_of(place) == datum
        && (place == 0 || payment.slot_of(place - 1) < slot)
}

// Whether a line is right of a payment.
fn is_so(alloc: Global, payment: &Payment, line: &str) -> Option<bool> {
    let (place, word) = line.split_once(' ')?;
    if place == "-" {
        return Some(payment.get(&slot(alloc, word)?).is_none());
    }
    let (slot, datum) = entry(alloc, word)?;
    Some(stands(payment, place.parse().ok()?, &slot, &datum))
}

#[test]
fn payments_have_what_was_put(rt: HostRuntime) -> Result<(), Fail> {
    let alloc = rt.alloc();
    let text = expanded(alloc, PAYMENTS)?;
    for case in text.split("===\n") {
        let (count, rest) = case.split_once('\n').ok_or(case)?;
        let (entries, lines) = rest.split_once('\n').ok_or(case)?;
        let payment = payment(alloc, entries).ok_or(entries)?.copy()?;
        assert_eq!(rt; payment.count(), count.parse()?);
        assert_eq!(rt; count_slots(alloc, entries), Some(payment.count()));
        for line in lines.lines() {
            assert_eq!(rt; is_so(alloc, &payment, line), Some(true), "at {line}");
        }
    }
    Ok(())
}
