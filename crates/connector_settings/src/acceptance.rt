ghost use Rattle.std.specs.Prelude.{◌≡◌, ◌&&◌, codes, map, true, IfOk};
ghost use Rattle.serde_json.specs.View.{view};
ghost use Rattle.key_table.specs.Answers.{Answers};
ghost use Rattle.json_shape.specs.Fields.{within_field, word_of};
ghost use Rattle.connector_settings.specs.declared.settings.Accept.TheVariants as accepts;
ghost use Rattle.connector_settings.specs.Fit.{is_enum, words_fit, accept_fits};
ghost use Rattle.connector_settings.specs.Words.{field_or};
ghost use Rattle.connector_settings.specs.Acceptances.{form_named, may_list, listed_of, acceptance_of, acceptances_of};

use crate::Accept;
use crate::error::{UNKNOWN_WORD, WRONG_SHAPE};
use crate::fit::is_enum;
use crate::keys::Keys;
use crate::limits::MOST_ITEMS;
use crate::word::OneWord;
use json_shape::{Path, ShapeError, each, field, list_up_to, optional};
use key_table::{KeyTable, Seq, Stop};
use serde_json::Value;
use std::alloc::Global;

/// The form of an acceptance.
#[derive(Clone, Copy, Debug, PartialEq, Eq)]
pub(crate) enum AcceptForm {
    All,
    Only,
    Except,
}

impl AcceptForm {
    fn named(word: &str) -> Option<AcceptForm>
        ensures { result ≡ form_named word.now }
    {
        match word {
            "all_accepted" => Some(AcceptForm::All),
            "enable_only" => Some(AcceptForm::Only),
            "disable_only" => Some(AcceptForm::Except),
            _ => None,
        }
    }
}

/// Which currencies and which countries are accepted.
#[tactic(auto, unfolding(crate::specs::Acceptances::acceptances_of))]
pub(crate) fn acceptances(
    alloc: Global,
    table: &KeyTable,
    keys: Keys,
    node: &Value,
    path: &Path,
) -> Result<(Accept, Accept), Stop<ShapeError>>
    ensures accepted { Answers (λ a. a) result (acceptances_of table.now keys path.now (view node.now)) }
    ensures fit { IfOk result (λ a. (accept_fits table.now keys.currency a.0 ≡ true) × (accept_fits table.now keys.country a.1 ≡ true)) }
{
    let currencies = acceptance_in(
        alloc,
        table,
        keys.currency,
        node,
        path,
        "accepted_currencies",
    )?;
    let countries = acceptance_in(alloc, table, keys.country, node, path, "accepted_countries")?;
    Ok((currencies, countries))
}

// The acceptance of a field, of all where it is missing or null.
fn acceptance_in(
    alloc: Global,
    table: &KeyTable,
    key: u32,
    node: &Value,
    path: &Path,
    name: &str,
) -> Result<Accept, Stop<ShapeError>>
    ensures accepted { Answers (λ a. a) result (field_or accepts.All name.now (acceptance_of table.now key) path.now (view node.now)) }
    ensures fits { IfOk result (λ a. accept_fits table.now key a ≡ true) }
{
    match optional(alloc, node, path, name)? {
        Some(found) => {
            let at = path.name(name)?;
            let accepted = acceptance(alloc, table, key, found, &at)?;
            Ok(accepted)
        }
        None => Ok(Accept::All),
    }
}

#[tactic(auto, unfolding(crate::specs::Acceptances::acceptance_of))]
fn acceptance(
    alloc: Global,
    table: &KeyTable,
    key: u32,
    node: &Value,
    path: &Path,
) -> Result<Accept, Stop<ShapeError>>
    ensures accepted { Answers (λ a. a) result (acceptance_of table.now key path.now (view node.now)) }
    ensures fits { IfOk result (λ a. accept_fits table.now key a ≡ true) }
{
    match form_in(alloc, node, path)? {
        AcceptForm::All => Ok(Accept::All),
        AcceptForm::Only => Ok(Accept::Only(listed_in(alloc, table, key, node, path)?)),
        AcceptForm::Except => Ok(Accept::Except(listed_in(alloc, table, key, node, path)?)),
    }
}

fn form_in(alloc: Global, node: &Value, path: &Path) -> Result<AcceptForm, Stop<ShapeError>>
    ensures { Answers (λ f. f) result (within_field (codes "type") (word_of 6 form_named) path.now (view node.now)) }
{
    let at = path.name("type")?;
    let Some(word) = field(alloc, node, path, "type")?.as_str() else {
        return Err(at.stop(WRONG_SHAPE));
    };
    match AcceptForm::named(word) {
        Some(form) => Ok(form),
        None => Err(at.stop(UNKNOWN_WORD)),
    }
}

// The words of the field `list`.
fn listed_in(
    alloc: Global,
    table: &KeyTable,
    key: u32,
    node: &Value,
    path: &Path,
) -> Result<Seq<u32>, Stop<ShapeError>>
    ensures words { Answers (λ ws. ws) result (within_field (codes "list") (listed_of table.now key) path.now (view node.now)) }
    ensures fit { IfOk result (λ ws. (is_enum table.now key && words_fit table.now key ws) ≡ true) }
{
    let at = path.name("list")?;
    listed(alloc, table, key, field(alloc, node, path, "list")?, &at)
}

#[tactic(auto, unfolding(crate::specs::Acceptances::listed_of))]
fn listed(
    alloc: Global,
    table: &KeyTable,
    key: u32,
    node: &Value,
    path: &Path,
) -> Result<Seq<u32>, Stop<ShapeError>>
    ensures words { Answers (λ ws. ws) result (listed_of table.now key path.now (view node.now)) }
    ensures fit { IfOk result (λ ws. (is_enum table.now key && words_fit table.now key ws) ≡ true) }
{
    let nodes = list_up_to(alloc, node, path, MOST_ITEMS)?;
    if !may_list(table, key, nodes) {
        return Err(path.stop(UNKNOWN_WORD));
    }
    each(alloc, &OneWord { table, key }, nodes, path)
}

// Whether a list may stand for words of a key: where it is empty, the key has to be an enum.
fn may_list(table: &KeyTable, key: u32, nodes: &[Value]) -> bool
    ensures { result ≡ may_list table.now key (map view nodes.now) }
{
    !nodes.is_empty() || is_enum(table, key)
}
