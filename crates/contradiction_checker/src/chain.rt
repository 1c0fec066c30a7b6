ghost use Rattle.std.specs.Prelude.{◌≡◌, option_copied, fold};
ghost use Rattle.contradiction_checker.specs.Chains.{with_byte, slot_number, chain_of, chain_at};

use key_table::{Atom, Slot, Text};

// A prime below which the numbers of sub names stay.
const MODULUS: u64 = 16_777_213;

/// The chain of a slot, where the last chain has this number.
pub(crate) fn chain_of(last_chain: u32, slot: &Slot) -> usize
    ensures { result ≡ chain_of last_chain slot.now }
{
    let number = slot_number(slot.key, slot.sub.as_ref());
    (number % (last_chain as u64 + 1)) as usize
}

// A number of a slot, which few other slots have: its key and the bytes of its sub name in one.
fn slot_number(key: u32, sub: Option<&Text>) -> u64
    ensures { result ≡ slot_number key (option_copied sub.entry) }
{
    match sub {
        Some(sub) => with_bytes(key, sub.as_bytes()),
        None => key as u64,
    }
}

fn with_bytes(key: u32, bytes: &[u8]) -> u64
    ensures { result ≡ fold with_byte key bytes.now }
{
    let mut number = key as u64;
    for byte in bytes {
        number = (number * 31 + *byte as u64) % MODULUS;
    }
    number
}

/// The chain of an atom by its number.
pub(crate) fn chain_at(atoms: &[Atom], last_chain: u32, atom: u32) -> usize
    ensures { result ≡ chain_at atoms.now last_chain atom }
{
    match atoms.get(atom as usize) {
        Some(atom) => chain_of(last_chain, &atom.slot),
        None => 0,
    }
}
