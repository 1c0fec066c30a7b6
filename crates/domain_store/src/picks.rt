ghost use Rattle.std.specs.Prelude.{◌≡◌, OnOk, IfOk, None, true, map};
ghost use Rattle.std.specs.List.{All};
ghost use Rattle.interval_domains.specs.declared.domain.SlotDomain.{SlotDomain};
ghost use Rattle.key_table.specs.declared.slot.Slot.{Slot};
ghost use Rattle.key_table.specs.OptionSets.{HasOption};
ghost use Rattle.key_table.specs.Payments.{value_of, is_legal};
ghost use Rattle.key_table.specs.Tables.{Table};
ghost use Rattle.interval_domains.specs.Members.{members, slot_of};
ghost use Rattle.interval_domains.specs.Picks.{IsPick};
ghost use Rattle.domain_store.specs.Kept.{StandOnce};
ghost use Rattle.domain_store.specs.PickedPayments.{with_pick, ArePicks, FitsAt, AreFitting};

use interval_domains::{SlotDomain, SlotSet};
use key_table::{Datum, NoMemory, Payment, Slot, legal_law, put_law, slot_law};
use std::alloc::Global;

/// The payment of the domains' picks.
pub(crate) fn picks_of(alloc: Global, domains: &[SlotDomain]) -> Result<Payment, NoMemory>
    requires once { StandOnce (map slot_of domains.now) }
    requires filled { All (λ (d : SlotDomain). HasOption (members d)) domains.now }
    ensures picks { IfOk result (ArePicks domains.now) }
    ensures legal { IfOk result (λ payment. (table : Table) → AreFitting table domains.now → is_legal table payment ≡ true) }
{
    let mut payment = Payment::empty(alloc);
    for domain in domains {
        put_pick(alloc, &mut payment, domain)?;
    }
    Ok(payment)
}

// Puts a domain's pick at its slot, at which nothing is there yet.
fn put_pick(alloc: Global, payment: &mut Payment, domain: &SlotDomain) -> Result<(), NoMemory>
    requires filled { HasOption (members domain.now) }
    requires fresh { value_of (slot_of domain.now) payment.old ≡ None }
    ensures pick { OnOk result (IsPick (members domain.now) (value_of (slot_of domain.now) payment.new)) }
    ensures others { OnOk result ((t : Slot) → (t ≡ slot_of domain.now → ⊥) → value_of t payment.new ≡ value_of t payment.old) }
    ensures legal { OnOk result ((table : Table) → FitsAt table domain.now → is_legal table payment.old ≡ true → is_legal table payment.new ≡ true) }
{
    slot_law();
    put_law();
    legal_law();
    let picked = domain.pick(alloc)?;
    put_picked(payment, domain.slot(), picked)
}

// Puts what was picked at its slot, nothing where absence was picked.
fn put_picked(payment: &mut Payment, slot: &Slot, picked: Option<Datum>) -> Result<(), NoMemory>
    ensures { OnOk result (payment.new ≡ with_pick payment.old slot.now picked) }
{
    match picked {
        Some(datum) => payment.put(slot.copy()?, datum),
        None => Ok(()),
    }
}
