ghost use Rattle.std.specs.Prelude.{◌≡◌, ◌≤◌, ◌<◌, ◌+◌, [], length, map, option_map, IfOk, true, false};
ghost use Rattle.toml.specs.View.{view};
ghost use Rattle.key_table.specs.Answers.{Answers};
ghost use Rattle.key_table.specs.declared.stop.Stop.TheVariants.{Fault};
ghost use Rattle.key_table.specs.KeyViews.{domain_view};
ghost use Rattle.key_table.specs.Names.{is_name, is_among};
ghost use Rattle.key_table.specs.Tables.{variants, names_in, is_domain};
ghost use Rattle.key_table.specs.TableFiles.{fault, document_of, in_turn, name_of, name_added, variants_of, integer_or, bounds_of, domain_of, key_name, key_added, keys_under, table_of};

use crate::key::{Domain, MOST_NAME_BYTES};
use crate::names::Names;
use crate::{KeyTable, Stop, TableError, is_word};
use std::alloc::Global;
use toml::Value;

const NOT_TOML: u8 = 1;

const BAD_KIND: u8 = 2;

const BAD_NAME: u8 = 3;

const REPEATED: u8 = 4;

const BAD_BOUNDS: u8 = 5;

const LIMIT: u8 = 6;

const MOST_KEYS: u32 = 256;

const MOST_VARIANTS: usize = 1024;

impl KeyTable {
    /// The table that a TOML file (TOML 1.0) says. Its field `key` is an array of tables, one for each key: `name`, a word
    /// (a letter or `_`, then letters, digits and `_`) of at most 255 bytes; `kind`, one of `enum`, `number`, `text` and
    /// `metadata`; of an enum `variants`, an array of at most 1,024 words; of a number `min` and `max`, integers, each of
    /// which may be missing. Other fields are ignored, and a file without `key` has no keys.
    ///
    /// The error is the first fault in the order of the file, with the number of its key: 1 the bytes are no TOML, 2 a
    /// field is missing or has another type, or the kind is none of the four, 3 a name is no word, 4 a name or a
    /// variant is there already, 5 the least number is above the greatest, 6 there are more than 256 keys or 1,024
    /// variants, or a name has more than 255 bytes.
    pub fn from_toml(alloc: Global, bytes: &[u8]) -> Result<KeyTable, Stop<TableError>>
        ensures { Answers (λ t. t) result (table_of bytes.now) }
    {
        let document = document(alloc, bytes)?;
        keys_under(alloc, document.get("key"))
    }
}

// The fault of a key.
fn fault(code: u8, key: u32) -> Stop<TableError>
    ensures { result ≡ Fault (fault code key) }
{
    Stop::Fault(TableError {
        code,
        key: Some(key),
    })
}

// The document that the bytes are.
fn document(alloc: Global, bytes: &[u8]) -> Result<Value, Stop<TableError>>
    ensures { Answers view result (document_of bytes.now) }
{
    match toml::table_from_slice(alloc, bytes) {
        Ok(document) => Ok(Value::Table(document)),
        Err(error) if error.is_memory() => Err(Stop::Memory),
        Err(_) => Err(Stop::Fault(TableError {
            code: NOT_TOML,
            key: None,
        })),
    }
}

fn keys_under(alloc: Global, entries: Option<&Value>) -> Result<KeyTable, Stop<TableError>>
    ensures { Answers (λ t. t) result (keys_under (option_map (λ v. view v.now) entries.entry)) }
{
    let Some(entries) = entries else {
        return Ok(KeyTable::new(alloc));
    };
    match entries.as_array() {
        Some(entries) => keys(alloc, entries),
        None => Err(fault(BAD_KIND, 0)),
    }
}

fn keys(alloc: Global, entries: &[Value]) -> Result<KeyTable, Stop<TableError>>
    ensures { Answers (λ t. t) result (in_turn key_added [] (map view entries.now)) }
{
    let mut table = KeyTable::new(alloc);
    for entry in entries {
        add_key(alloc, &mut table, entry)?;
    }
    Ok(table)
}

// Adds the key that an entry is.
#[tactic(auto, using(crate::proofs::NameLemmas::with_key_new))]
fn add_key(alloc: Global, table: &mut KeyTable, entry: &Value) -> Result<(), Stop<TableError>>
    ensures { Answers (λ u. table.new) result (key_added table.old (view entry.now)) }
{
    let name = key_name(table, entry)?;
    let domain = domain(alloc, entry, table.count())?;
    table.add(alloc, name, domain)?;
    Ok(())
}

// The name of the key that an entry is. Its number is how many keys are there.
#[tactic(auto, unfolding(crate::specs::TableFiles::key_name))]
fn key_name<'a>(table: &KeyTable, entry: &'a Value) -> Result<&'a str, Stop<TableError>>
    ensures name { Answers (λ s. s.now) result (key_name table.now (view entry.now)) }
    ensures room { IfOk result (λ s. length table.now < 256) }
    ensures named { IfOk result (λ s. is_name s.now ≡ true) }
    ensures is_new { IfOk result (λ s. is_among s.now (names_in table.now) ≡ false) }
{
    let key = table.count();
    if key >= MOST_KEYS {
        return Err(fault(LIMIT, key));
    }
    if !entry.is_table() {
        return Err(fault(BAD_KIND, key));
    }
    let Some(value) = entry.get("name") else {
        return Err(fault(BAD_NAME, key));
    };
    let name = name(value, BAD_NAME, key)?;
    if table.has(name) {
        return Err(fault(REPEATED, key));
    }
    Ok(name)
}

// A name: a word of at most 255 bytes. What is no string has the given code.
fn name(value: &Value, other: u8, key: u32) -> Result<&str, Stop<TableError>>
    ensures name { Answers (λ s. s.now) result (name_of other key (view value.now)) }
    ensures named { IfOk result (λ s. is_name s.now ≡ true) }
{
    let Some(text) = value.as_str() else {
        return Err(fault(other, key));
    };
    if !is_word(text.as_bytes()) {
        return Err(fault(BAD_NAME, key));
    }
    if text.len() > MOST_NAME_BYTES {
        return Err(fault(LIMIT, key));
    }
    Ok(text)
}

// What may stand at the slots of a key.
fn domain(alloc: Global, entry: &Value, key: u32) -> Result<Domain, Stop<TableError>>
    ensures domain { Answers domain_view result (domain_of key (view entry.now)) }
    ensures well_made { IfOk result (λ d. is_domain (domain_view d) ≡ true) }
{
    match entry.get("kind").and_then(Value::as_str) {
        Some("enum") => Ok(Domain::Enum(variants(alloc, entry, key)?)),
        Some("number") => bounds(entry, key),
        Some("text") => Ok(Domain::Text),
        Some("metadata") => Ok(Domain::Metadata),
        _ => Err(fault(BAD_KIND, key)),
    }
}

fn variants(alloc: Global, entry: &Value, key: u32) -> Result<Names, Stop<TableError>>
    ensures variants { Answers (λ n. n) result (variants_of key (view entry.now)) }
    ensures well_made { IfOk result (λ n. is_domain (variants n) ≡ true) }
{
    let Some(value) = entry.get("variants") else {
        return Err(fault(BAD_KIND, key));
    };
    let Some(items) = value.as_array() else {
        return Err(fault(BAD_KIND, key));
    };
    if items.len() > MOST_VARIANTS {
        return Err(fault(LIMIT, key));
    }
    names(alloc, items, key)
}

fn names(alloc: Global, items: &[Value], key: u32) -> Result<Names, Stop<TableError>>
    requires { length items.now ≤ 1024 }
    ensures names { Answers (λ n. n) result (in_turn (name_added key) [] (map view items.now)) }
    ensures well_made { IfOk result (λ n. is_domain (variants n) ≡ true) }
{
    let mut names = Names::new(alloc);
    for item in items {
        add_name(alloc, &mut names, item, key)?;
    }
    Ok(names)
}

// Adds the variant that an item is.
fn add_name(
    alloc: Global,
    names: &mut Names,
    item: &Value,
    key: u32,
) -> Result<(), Stop<TableError>>
    requires { length names.old < 1024 }
    ensures name { Answers (λ u. names.new) result (name_added key names.old (view item.now)) }
    ensures count { length names.new ≤ length names.old + 1 }
{
    let name = name(item, BAD_KIND, key)?;
    if names.add(alloc, name)? {
        Ok(())
    } else {
        Err(fault(REPEATED, key))
    }
}

fn bounds(entry: &Value, key: u32) -> Result<Domain, Stop<TableError>>
    ensures bounds { Answers domain_view result (bounds_of key (view entry.now)) }
    ensures well_made { IfOk result (λ d. is_domain (domain_view d) ≡ true) }
{
    let least = integer_or(entry.get("min"), i64::MIN, key)?;
    let greatest = integer_or(entry.get("max"), i64::MAX, key)?;
    if least > greatest {
        return Err(fault(BAD_BOUNDS, key));
    }
    Ok(Domain::Number(least, greatest))
}

// An integer, or where it is missing the default.
fn integer_or(value: Option<&Value>, default: i64, key: u32) -> Result<i64, Stop<TableError>>
    ensures { Answers (λ z. z) result (integer_or key default (option_map (λ v. view v.now) value.entry)) }
{
    let Some(value) = value else {
        return Ok(default);
    };
    match value.as_integer() {
        Some(integer) => Ok(integer),
        None => Err(fault(BAD_KIND, key)),
    }
}
