ghost use Rattle.std.specs.Prelude.{◌≡◌, true};
ghost use Rattle.std.specs.List.{list_any};
ghost use Rattle.key_table.specs.Atoms.{test_holds};
ghost use Rattle.key_table.specs.Options.{holds_on};
ghost use Rattle.constraint_graph.specs.Logics.{two_valued};
ghost use Rattle.connector_settings.specs.Demands.{asked, word_tests, network_demands, only_demands, except_demands, bound_demands};
ghost use Rattle.connector_settings.specs.Takes.{accepted, taken_by, takes};
ghost use Rattle.connector_settings.specs.Fit.{settings_fit};
ghost use Rattle.connector_settings.specs.Walks.{is_met, are_met};

use crate::keys::Keys;
use crate::{Accept, Connector, Method, Settings, TypeEntry};
use key_table::{Datum, KeyTable, Op, Payment};

/// Whether the settings, which fit the table, take the payment: some connector that is not disabled has a type entry of some
/// method that accepts it. A type entry accepts a payment that has its method and its type; a network of its list, unless
/// the list is empty; a currency and a country that are in the lists of those that alone are accepted, and none that is in a
/// list of those that are not; and an amount within the bounds that are given. The country is the one of billing.
pub fn takes(table: &KeyTable, settings: &Settings, payment: &Payment) -> bool
    requires { settings_fit table.now settings.now ≡ true }
    ensures { result ≡ takes table.now settings.now payment.now }
{
    let keys = Keys::of(table);
    some_takes(keys, settings.connectors.as_slice(), payment)
}

fn some_takes(keys: Keys, connectors: &[Connector], payment: &Payment) -> bool
    ensures { result ≡ list_any (taken_by two_valued (λ atom. holds_on atom payment.now) keys) connectors.now }
{
    connectors
        .iter()
        .any(|connector| connector_takes(keys, connector, payment))
}

#[tactic(auto, using(constraint_graph::specs::TwoValues::some_is_list_any))]
fn connector_takes(keys: Keys, connector: &Connector, payment: &Payment) -> bool
    ensures { result ≡ taken_by two_valued (λ atom. holds_on atom payment.now) keys connector.now }
{
    !connector.disabled && some_method_takes(keys, connector.methods.as_slice(), payment)
}

fn some_method_takes(keys: Keys, methods: &[Method], payment: &Payment) -> bool
    ensures { result ≡ list_any (λ (m : Method). list_any (accepted two_valued (λ atom. holds_on atom payment.now) keys m.method) m.types) methods.now }
{
    methods.iter().any(|method| some_entry_accepts(
        keys,
        method.method,
        method.types.as_slice(),
        payment,
    ))
}

fn some_entry_accepts(keys: Keys, method: u32, entries: &[TypeEntry], payment: &Payment) -> bool
    ensures { result ≡ list_any (accepted two_valued (λ atom. holds_on atom payment.now) keys method) entries.now }
{
    entries
        .iter()
        .any(|entry| accepts(keys, method, entry, payment))
}

// Whether all that the entry asks holds.
fn accepts(keys: Keys, method: u32, entry: &TypeEntry, payment: &Payment) -> bool
    ensures { result ≡ accepted two_valued (λ atom. holds_on atom payment.now) keys method entry.now }
{
    has_word(payment, keys.method, &[method])
        && has_word(payment, keys.method_type, &[entry.method_type])
        && has_network(payment, keys.network, entry.networks.as_slice())
        && has_accepted(payment, keys.currency, &entry.currencies)
        && has_accepted(payment, keys.country, &entry.countries)
        && is_within(payment, keys.amount, Op::GreaterEqual, entry.minimum)
        && is_within(payment, keys.amount, Op::LessEqual, entry.maximum)
        && lacks_excluded(payment, keys.currency, &entry.currencies)
        && lacks_excluded(payment, keys.country, &entry.countries)
}

fn has_network(payment: &Payment, key: u32, networks: &[u32]) -> bool
    ensures { result ≡ are_met payment.now (network_demands key networks.now) }
{
    networks.is_empty() || has_word(payment, key, networks)
}

fn has_accepted(payment: &Payment, key: u32, accept: &Accept) -> bool
    ensures { result ≡ are_met payment.now (only_demands key accept.now) }
{
    match accept {
        Accept::Only(words) => has_word(payment, key, words.as_slice()),
        Accept::All | Accept::Except(_) => true,
    }
}

fn lacks_excluded(payment: &Payment, key: u32, accept: &Accept) -> bool
    ensures { result ≡ are_met payment.now (except_demands key accept.now) }
{
    match accept {
        Accept::Except(words) => !has_word(payment, key, words.as_slice()),
        Accept::All | Accept::Only(_) => true,
    }
}

fn is_within(payment: &Payment, key: u32, op: Op, bound: Option<i64>) -> bool
    ensures { result ≡ are_met payment.now (bound_demands key op bound) }
{
    match (bound, payment.value_at(key, None)) {
        (None, _) => true,
        (Some(bound), Some(Datum::Number(number))) => op.relates(*number, bound),
        (Some(_), _) => false,
    }
}

// Whether the key is there with one of these words.
fn has_word(payment: &Payment, key: u32, variants: &[u32]) -> bool
    ensures { result ≡ is_met payment.now (asked key (word_tests variants.now)) }
{
    match payment.value_at(key, None) {
        Some(there) => is_one_of(there, variants),
        None => false,
    }
}

#[tactic(auto, using(crate::proofs::Walks::one_of_variants, crate::proofs::Walks::one_of_number, crate::proofs::Walks::one_of_text))]
fn is_one_of(there: &Datum, variants: &[u32]) -> bool
    ensures { result ≡ list_any (test_holds there.now) (word_tests variants.now) }
{
    match there {
        Datum::Variant(variant) => variants.contains(variant),
        Datum::Number(_) | Datum::Text(_) => false,
    }
}
