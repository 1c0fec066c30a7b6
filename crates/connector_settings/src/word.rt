ghost use Rattle.std.specs.Prelude.{◌≡◌, false, [], true, IfOk};
ghost use Rattle.std.specs.Option.{option_map_or};
ghost use Rattle.serde_json.specs.View.{view};
ghost use Rattle.key_table.specs.Answers.{Answers};
ghost use Rattle.json_shape.specs.Fields.{within_field, within_optional};
ghost use Rattle.connector_settings.specs.Fit.{is_short, word_fits, words_fit};
ghost use Rattle.connector_settings.specs.Words.{field_or, text_of, flag_of, variant_of, variants_of};

use crate::error::{UNKNOWN_WORD, WRONG_SHAPE};
use crate::limits::{MOST_BYTES, MOST_ITEMS};
use json_shape::{Path, Reader, ShapeError, each, field, list_up_to, optional, text_up_to};
use key_table::{KeyTable, Seq, Stop, Text};
use serde_json::Value;
use std::alloc::Global;

/// The text of a field, of at most 255 bytes.
pub(crate) fn text_in(
    alloc: Global,
    node: &Value,
    path: &Path,
    name: &str,
) -> Result<Text, Stop<ShapeError>>
    ensures text { Answers (λ t. t) result (within_field name.now text_of path.now (view node.now)) }
    ensures fits { IfOk result (λ t. is_short t ≡ true) }
{
    let at = path.name(name)?;
    text_up_to(alloc, field(alloc, node, path, name)?, &at, MOST_BYTES)
}

/// The text of a field, of at most 255 bytes, unless it is missing or null.
pub(crate) fn optional_text_in(
    alloc: Global,
    node: &Value,
    path: &Path,
    name: &str,
) -> Result<Option<Text>, Stop<ShapeError>>
    ensures text { Answers (λ o. o) result (within_optional name.now text_of path.now (view node.now)) }
    ensures fits { IfOk result (λ o. option_map_or is_short o true ≡ true) }
{
    match optional(alloc, node, path, name)? {
        Some(text) => {
            let at = path.name(name)?;
            Ok(Some(text_up_to(alloc, text, &at, MOST_BYTES)?))
        }
        None => Ok(None),
    }
}

/// The boolean of a field, false where it is missing or null.
pub(crate) fn flag_in(
    alloc: Global,
    node: &Value,
    path: &Path,
    name: &str,
) -> Result<bool, Stop<ShapeError>>
    ensures { Answers (λ b. b) result (field_or false name.now flag_of path.now (view node.now)) }
{
    match optional(alloc, node, path, name)? {
        Some(found) => match found.as_bool() {
            Some(flag) => Ok(flag),
            None => Err(path.name(name)?.stop(WRONG_SHAPE)),
        },
        None => Ok(false),
    }
}

/// The word of a field, as the number of its variant.
pub(crate) fn word_in(
    alloc: Global,
    table: &KeyTable,
    key: u32,
    node: &Value,
    path: &Path,
    name: &str,
) -> Result<u32, Stop<ShapeError>>
    ensures word { Answers (λ w. w) result (within_field name.now (variant_of table.now key) path.now (view node.now)) }
    ensures fits { IfOk result (λ w. word_fits table.now key w ≡ true) }
{
    let at = path.name(name)?;
    OneWord { table, key }.read(alloc, field(alloc, node, path, name)?, &at)
}

/// The words of a field, none where it is missing or null.
pub(crate) fn words_in(
    alloc: Global,
    table: &KeyTable,
    key: u32,
    node: &Value,
    path: &Path,
    name: &str,
) -> Result<Seq<u32>, Stop<ShapeError>>
    ensures words { Answers (λ ws. ws) result (field_or [] name.now (variants_of table.now key) path.now (view node.now)) }
    ensures fit { IfOk result (λ ws. words_fit table.now key ws ≡ true) }
{
    match optional(alloc, node, path, name)? {
        Some(list) => {
            let at = path.name(name)?;
            let nodes = list_up_to(alloc, list, &at, MOST_ITEMS)?;
            let words = each(alloc, &OneWord { table, key }, nodes, &at)?;
            Ok(words)
        }
        None => Ok(Seq::new(alloc)),
    }
}

/// A word of a key.
#[derive(Clone, Copy)]
pub(crate) struct OneWord<'a> {
    pub(crate) table: &'a KeyTable,
    pub(crate) key: u32,
}

impl<'a> Reader for OneWord<'a> {
    ghost use Rattle.connector_settings.specs.Fit.{word_fits};
    ghost use Rattle.connector_settings.specs.Words.{variant_of};

    type Item = u32;

    ghost reads = { λ r. variant_of r.table.now r.key };

    ghost fits = { λ r. word_fits r.table.now r.key };

    fn read(&self, _alloc: Global, node: &Value, path: &Path) -> Result<u32, Stop<ShapeError>> {
        let Some(word) = node.as_str() else {
            return Err(path.stop(WRONG_SHAPE));
        };
        match self.table.variant(self.key, word.as_bytes()) {
            Some(variant) => Ok(variant),
            None => Err(path.stop(UNKNOWN_WORD)),
        }
    }
}
