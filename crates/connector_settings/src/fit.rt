ghost use Rattle.std.specs.Prelude.{◌≡◌, ◌≤◌, ◌-◌, nat_le, true, option_copied};
ghost use Rattle.std.specs.List.{list_all, sum_by};
ghost use Rattle.std.specs.Option.{SomeIff, option_map_or};
ghost use Rattle.connector_settings.specs.Fit.{is_enum, is_number, list_fits, word_fits, words_fit, accept_fits, bound_fits, entry_fits, method_fits, is_short, connector_fits, entry_count, settings_fit};

use crate::keys::Keys;
use crate::limits::{MOST_BYTES, MOST_CONNECTORS, MOST_ENTRIES, MOST_ITEMS};
use crate::{Accept, Connector, Method, Settings, TypeEntry};
use key_table::{KeyTable, Kind, Text};

/// Whether the settings fit the table: the key of each word is an enum key and the word one of its variants; so is the key
/// of a list of accepted words or of words that are not accepted, also of an empty one; `amount` is a number key where a bound
/// is given; and there are at most 256 connectors, 4,096 type entries over all of them, 4,096 items of each other list, and
/// 255 bytes of a name or an id.
pub fn settings_fit(table: &KeyTable, settings: &Settings) -> bool
    ensures { result ≡ settings_fit table.now settings.now }
{
    let connectors = settings.connectors.as_slice();
    connectors.len() <= MOST_CONNECTORS
        && are_few(connectors)
        && connectors_fit(table, Keys::of(table), connectors)
}

// Whether there are at most 4,096 type entries.
fn are_few(connectors: &[Connector]) -> bool
    ensures { result ≡ nat_le (sum_by entry_count connectors.now) 4096 }
{
    left_after_all(connectors, MOST_ENTRIES).is_some()
}

// How many are left of so many after the type entries, where there are enough.
fn left_after_all(connectors: &[Connector], most: usize) -> Option<usize>
    ensures { SomeIff result (sum_by entry_count connectors.now ≤ most) (most - sum_by entry_count connectors.now) }
{
    let mut left = most;
    for connector in connectors {
        left = left_after(connector, left)?;
    }
    Some(left)
}

fn left_after(connector: &Connector, most: usize) -> Option<usize>
    ensures { SomeIff result (entry_count connector.now ≤ most) (most - entry_count connector.now) }
{
    let mut left = most;
    for method in connector.methods.as_slice() {
        left = left.checked_sub(method.types.as_slice().len())?;
    }
    Some(left)
}

fn connectors_fit(table: &KeyTable, keys: Keys, connectors: &[Connector]) -> bool
    ensures { result ≡ list_all (connector_fits table.now keys) connectors.now }
{
    connectors
        .iter()
        .all(|connector| connector_fits(table, keys, connector))
}

fn connector_fits(table: &KeyTable, keys: Keys, connector: &Connector) -> bool
    ensures { result ≡ connector_fits table.now keys connector.now }
{
    is_short(&connector.name)
        && id_fits(connector.id.as_ref())
        && methods_fit(table, keys, connector.methods.as_slice())
}

fn id_fits(id: Option<&Text>) -> bool
    ensures { result ≡ option_map_or is_short (option_copied id.entry) true }
{
    match id {
        Some(id) => is_short(id),
        None => true,
    }
}

fn is_short(text: &Text) -> bool
    ensures { result ≡ is_short text.now }
{
    text.as_bytes().len() <= MOST_BYTES
}

fn methods_fit(table: &KeyTable, keys: Keys, methods: &[Method]) -> bool
    ensures { result ≡ list_fits (method_fits table.now keys) methods.now }
{
    methods.len() <= MOST_ITEMS && each_method_fits(table, keys, methods)
}

fn each_method_fits(table: &KeyTable, keys: Keys, methods: &[Method]) -> bool
    ensures { result ≡ list_all (method_fits table.now keys) methods.now }
{
    methods
        .iter()
        .all(|method| method_fits(table, keys, method))
}

fn method_fits(table: &KeyTable, keys: Keys, method: &Method) -> bool
    ensures { result ≡ method_fits table.now keys method.now }
{
    word_fits(table, keys.method, method.method)
        && entries_fit(table, keys, method.types.as_slice())
}

fn entries_fit(table: &KeyTable, keys: Keys, entries: &[TypeEntry]) -> bool
    ensures { result ≡ list_fits (entry_fits table.now keys) entries.now }
{
    entries.len() <= MOST_ITEMS && each_entry_fits(table, keys, entries)
}

fn each_entry_fits(table: &KeyTable, keys: Keys, entries: &[TypeEntry]) -> bool
    ensures { result ≡ list_all (entry_fits table.now keys) entries.now }
{
    entries.iter().all(|entry| entry_fits(table, keys, entry))
}

fn entry_fits(table: &KeyTable, keys: Keys, entry: &TypeEntry) -> bool
    ensures { result ≡ entry_fits table.now keys entry.now }
{
    word_fits(table, keys.method_type, entry.method_type)
        && words_fit(table, keys.network, entry.networks.as_slice())
        && accept_fits(table, keys.currency, &entry.currencies)
        && accept_fits(table, keys.country, &entry.countries)
        && bound_fits(table, keys.amount, entry.minimum)
        && bound_fits(table, keys.amount, entry.maximum)
}

fn accept_fits(table: &KeyTable, key: u32, accept: &Accept) -> bool
    ensures { result ≡ accept_fits table.now key accept.now }
{
    match accept {
        Accept::All => true,
        Accept::Only(words) | Accept::Except(words) => {
            is_enum(table, key) && words_fit(table, key, words.as_slice())
        }
    }
}

fn bound_fits(table: &KeyTable, key: u32, bound: Option<i64>) -> bool
    ensures { result ≡ bound_fits table.now key bound }
{
    bound.is_none() || is_number(table, key)
}

fn words_fit(table: &KeyTable, key: u32, words: &[u32]) -> bool
    ensures { result ≡ words_fit table.now key words.now }
{
    words.len() <= MOST_ITEMS && each_word_fits(table, key, words)
}

fn each_word_fits(table: &KeyTable, key: u32, words: &[u32]) -> bool
    ensures { result ≡ list_all (word_fits table.now key) words.now }
{
    words.iter().all(|word| word_fits(table, key, *word))
}

fn word_fits(table: &KeyTable, key: u32, word: u32) -> bool
    ensures { result ≡ word_fits table.now key word }
{
    word < table.variants(key)
}

pub(crate) fn is_enum(table: &KeyTable, key: u32) -> bool
    ensures { result ≡ is_enum table.now key }
{
    key < table.count() && table.kind_of(key) == Kind::Enum
}

pub(crate) fn is_number(table: &KeyTable, key: u32) -> bool
    ensures { result ≡ is_number table.now key }
{
    key < table.count() && table.kind_of(key) == Kind::Number
}
