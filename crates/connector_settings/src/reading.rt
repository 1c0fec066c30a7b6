ghost use Rattle.std.specs.Prelude.{◌≡◌, codes, nat_le, length, true, IfOk};
ghost use Rattle.std.specs.List.{list_all};
ghost use Rattle.serde_json.specs.View.{view};
ghost use Rattle.key_table.specs.Answers.{Answers};
ghost use Rattle.connector_settings.specs.Fit.{list_fits, entry_fits, method_fits, connector_fits, settings_fit};
ghost use Rattle.connector_settings.specs.Keys.{keys_of};
ghost use Rattle.connector_settings.specs.Reading.{entry_begun, entry_in, entry_of, items_or_none, method_of, connector_of, settings_in, settings_or_fault, settings_of};

use crate::acceptance::acceptances;
use crate::amount::amounts;
use crate::error::{LIMIT, SettingsError};
use crate::keys::Keys;
use crate::limits::{MOST_CONNECTORS, MOST_ENTRIES, MOST_ITEMS};
use crate::word::{flag_in, optional_text_in, text_in, word_in, words_in};
use crate::{Connector, Method, Settings, TypeEntry};
use json_shape::{CountingReader, Path, ShapeError, each_counted, list_up_to, optional, read};
use key_table::{KeyTable, Seq, Stop};
use serde_json::Value;
use std::alloc::Global;

/// The settings that the bytes of a file are, which fit the table, or the first fault and its place. Settings are a JSON
/// list of connectors, and a word is a string that is the name of a variant of its key, byte by byte.
///
/// Fields are judged in this order, depth first, a list's length before its items and these in order: of a connector
/// `connector_name`, `merchant_connector_id`, `disabled` and `payment_methods_enabled`; of a method `payment_method` and
/// `payment_method_types`; of a type entry `payment_method_type`, `card_networks`, `accepted_currencies`,
/// `accepted_countries`, `minimum_amount` and `maximum_amount`. Other fields are ignored. The words of `payment_method`,
/// `payment_method_type`, `card_networks`, `accepted_currencies` and `accepted_countries` are variants of the keys
/// `payment_method`, `payment_method_type`, `card_network`, `currency` and `billing_country`, and the two amounts are bounds
/// of the key `amount`.
///
/// All fields but `connector_name`, `payment_method` and `payment_method_type` may be missing or null: then the connector is
/// not disabled, the list is empty, all words are accepted, and there is no bound. An acceptance is an object whose `type` is
/// `all_accepted`, or `enable_only` or `disable_only` with a `list` of words.
///
/// - 1 NotJson, at the root: the bytes are no JSON (RFC 8259), or arrays and objects nest more than 127 deep.
/// - 2 Missing: the field isn't there.
/// - 3 WrongShape: another kind of JSON stands there than has to.
/// - 4 NotWhole: an amount that is no signed 64-bit whole number.
/// - 5 Limit: a name or an id of more than 255 bytes, more than 256 connectors, more than 4,096 items of another list; also
///   the 4,097th type entry over all connectors, before its fields.
/// - 6 UnknownWord: a string that is no variant of its key, or whose key is no enum key of the table; an empty `list` whose
///   key is no enum key of the table; an amount where the table has no number key `amount`; another string as the `type`
///   of an acceptance.
/// - 7 BadRange, at `minimum_amount`: it is above `maximum_amount`.
pub fn read_settings(
    alloc: Global,
    table: &KeyTable,
    bytes: &[u8],
) -> Result<Settings, Stop<SettingsError>>
    ensures settings { Answers (λ s. s) result (settings_of table.now bytes.now) }
    ensures fits { IfOk result (λ s. settings_fit table.now s ≡ true) }
{
    match settings_from(alloc, table, bytes) {
        Ok(settings) => Ok(settings),
        Err(Stop::Memory) => Err(Stop::Memory),
        Err(Stop::Fault(error)) => Err(Stop::Fault(SettingsError {
            code: error.code,
            path: error.path,
        })),
    }
}

fn settings_from(
    alloc: Global,
    table: &KeyTable,
    bytes: &[u8],
) -> Result<Settings, Stop<ShapeError>>
    ensures settings { Answers (λ s. s) result (settings_or_fault table.now bytes.now) }
    ensures few { IfOk result (λ s. nat_le (length s.connectors) 256 ≡ true) }
    ensures fit { IfOk result (λ s. list_all (connector_fits table.now (keys_of table.now)) s.connectors ≡ true) }
{
    let node = read(alloc, bytes)?;
    let mut begun = 0;
    settings(alloc, table, &node, &mut begun)
}

fn settings(
    alloc: Global,
    table: &KeyTable,
    node: &Value,
    begun: &mut u32,
) -> Result<Settings, Stop<ShapeError>>
    ensures settings { Answers (λ s. (s, begun.new)) result (settings_in table.now (view node.now) begun.old) }
    ensures few { IfOk result (λ s. nat_le (length s.connectors) 256 ≡ true) }
    ensures fit { IfOk result (λ s. list_all (connector_fits table.now (keys_of table.now)) s.connectors ≡ true) }
{
    let keys = Keys::of(table);
    let root = Path::root(alloc);
    let nodes = list_up_to(alloc, node, &root, MOST_CONNECTORS)?;
    let connectors = each_counted(alloc, &OneConnector { table, keys }, nodes, &root, begun)?;
    Ok(Settings { connectors })
}

// A connector.
#[derive(Clone, Copy)]
struct OneConnector<'a> {
    table: &'a KeyTable,
    keys: Keys,
}

impl<'a> CountingReader for OneConnector<'a> {
    ghost use Rattle.connector_settings.specs.Fit.{connector_fits};
    ghost use Rattle.connector_settings.specs.Reading.{connector_of};

    type Item = Connector;

    type Counts = u32;

    ghost reads = { λ r. connector_of r.table.now r.keys };

    ghost fits = { λ r. connector_fits r.table.now r.keys };

    #[tactic(auto, unfolding(crate::specs::Reading::connector_of))]
    fn read(
        &self,
        alloc: Global,
        node: &Value,
        path: &Path,
        begun: &mut u32,
    ) -> Result<Connector, Stop<ShapeError>> {
        let name = text_in(alloc, node, path, "connector_name")?;
        let id = optional_text_in(alloc, node, path, "merchant_connector_id")?;
        let disabled = flag_in(alloc, node, path, "disabled")?;
        let methods = methods_in(alloc, self.table, self.keys, node, path, begun)?;
        Ok(Connector {
            name,
            id,
            disabled,
            methods,
        })
    }
}

// The methods of a connector.
fn methods_in(
    alloc: Global,
    table: &KeyTable,
    keys: Keys,
    node: &Value,
    path: &Path,
    begun: &mut u32,
) -> Result<Seq<Method>, Stop<ShapeError>>
    ensures methods { Answers (λ s. (s, begun.new)) result (items_or_none (codes "payment_methods_enabled") (method_of table.now keys) path.now (view node.now) begun.old) }
    ensures fit { IfOk result (λ s. list_fits (method_fits table.now keys) s ≡ true) }
{
    match optional(alloc, node, path, "payment_methods_enabled")? {
        Some(list) => {
            let at = path.name("payment_methods_enabled")?;
            let nodes = list_up_to(alloc, list, &at, MOST_ITEMS)?;
            let methods = each_counted(alloc, &OneMethod { table, keys }, nodes, &at, begun)?;
            Ok(methods)
        }
        None => Ok(Seq::new(alloc)),
    }
}

// A method of a connector.
#[derive(Clone, Copy)]
struct OneMethod<'a> {
    table: &'a KeyTable,
    keys: Keys,
}

impl<'a> CountingReader for OneMethod<'a> {
    ghost use Rattle.connector_settings.specs.Fit.{method_fits};
    ghost use Rattle.connector_settings.specs.Reading.{method_of};

    type Item = Method;

    type Counts = u32;

    ghost reads = { λ r. method_of r.table.now r.keys };

    ghost fits = { λ r. method_fits r.table.now r.keys };

    #[tactic(auto, unfolding(crate::specs::Reading::method_of))]
    fn read(
        &self,
        alloc: Global,
        node: &Value,
        path: &Path,
        begun: &mut u32,
    ) -> Result<Method, Stop<ShapeError>> {
        let method = word_in(
            alloc,
            self.table,
            self.keys.method,
            node,
            path,
            "payment_method",
        )?;
        let types = types_in(alloc, self.table, self.keys, node, path, begun)?;
        Ok(Method { method, types })
    }
}

// The type entries of a method.
fn types_in(
    alloc: Global,
    table: &KeyTable,
    keys: Keys,
    node: &Value,
    path: &Path,
    begun: &mut u32,
) -> Result<Seq<TypeEntry>, Stop<ShapeError>>
    ensures types { Answers (λ s. (s, begun.new)) result (items_or_none (codes "payment_method_types") (entry_of table.now keys) path.now (view node.now) begun.old) }
    ensures fit { IfOk result (λ s. list_fits (entry_fits table.now keys) s ≡ true) }
{
    match optional(alloc, node, path, "payment_method_types")? {
        Some(list) => {
            let at = path.name("payment_method_types")?;
            let nodes = list_up_to(alloc, list, &at, MOST_ITEMS)?;
            let types = each_counted(alloc, &OneEntry { table, keys }, nodes, &at, begun)?;
            Ok(types)
        }
        None => Ok(Seq::new(alloc)),
    }
}

// A type entry of a method.
#[derive(Clone, Copy)]
struct OneEntry<'a> {
    table: &'a KeyTable,
    keys: Keys,
}

impl<'a> CountingReader for OneEntry<'a> {
    ghost use Rattle.connector_settings.specs.Fit.{entry_fits};
    ghost use Rattle.connector_settings.specs.Reading.{entry_of};

    type Item = TypeEntry;

    type Counts = u32;

    ghost reads = { λ r. entry_of r.table.now r.keys };

    ghost fits = { λ r. entry_fits r.table.now r.keys };

    #[tactic(auto, unfolding(crate::specs::Reading::entry_of))]
    fn read(
        &self,
        alloc: Global,
        node: &Value,
        path: &Path,
        begun: &mut u32,
    ) -> Result<TypeEntry, Stop<ShapeError>> {
        begin_entry(path, begun)?;
        entry(alloc, self.table, self.keys, node, path)
    }
}

// What a type entry says.
#[tactic(auto, unfolding(crate::specs::Reading::entry_in))]
fn entry(
    alloc: Global,
    table: &KeyTable,
    keys: Keys,
    node: &Value,
    path: &Path,
) -> Result<TypeEntry, Stop<ShapeError>>
    ensures entry { Answers (λ e. e) result (entry_in table.now keys path.now (view node.now)) }
    ensures fits { IfOk result (λ e. entry_fits table.now keys e ≡ true) }
{
    let method_type = word_in(
        alloc,
        table,
        keys.method_type,
        node,
        path,
        "payment_method_type",
    )?;
    let networks = words_in(alloc, table, keys.network, node, path, "card_networks")?;
    let (currencies, countries) = acceptances(alloc, table, keys, node, path)?;
    let (minimum, maximum) = amounts(alloc, table, keys.amount, node, path)?;
    Ok(TypeEntry {
        method_type,
        networks,
        currencies,
        countries,
        minimum,
        maximum,
    })
}

// One more type entry, which stands at a path. Limit there exactly where 4,096 were begun before.
#[tactic(auto, unfolding(crate::specs::Reading::entry_begun))]
fn begin_entry(path: &Path, begun: &mut u32) -> Result<(), Stop<ShapeError>>
    ensures { Answers (λ u. (u, begun.new)) result (entry_begun path.now begun.old) }
{
    if *begun >= MOST_ENTRIES as u32 {
        return Err(path.stop(LIMIT));
    }
    *begun += 1;
    Ok(())
}
