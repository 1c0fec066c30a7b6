ghost use Rattle.std.specs.Prelude.{◌≡◌, true, IfOk};
ghost use Rattle.serde_json.specs.View.{view};
ghost use Rattle.key_table.specs.Answers.{Answers};
ghost use Rattle.json_shape.specs.Fields.{within_optional};
ghost use Rattle.connector_settings.specs.Fit.{is_number, bound_fits};
ghost use Rattle.connector_settings.specs.Amounts.{amount_of, in_order, amounts_of};

use crate::error::{BAD_RANGE, UNKNOWN_WORD};
use crate::fit::is_number;
use json_shape::{Path, ShapeError, optional, whole};
use key_table::{KeyTable, Stop};
use serde_json::Value;
use std::alloc::Global;

/// The least and the greatest amount, where they are given.
#[tactic(auto, unfolding(crate::specs::Amounts::amounts_of))]
pub(crate) fn amounts(
    alloc: Global,
    table: &KeyTable,
    key: u32,
    node: &Value,
    path: &Path,
) -> Result<(Option<i64>, Option<i64>), Stop<ShapeError>>
    ensures amounts { Answers (λ a. a) result (amounts_of table.now key path.now (view node.now)) }
    ensures fit { IfOk result (λ a. (bound_fits table.now key a.0 ≡ true) × (bound_fits table.now key a.1 ≡ true)) }
{
    let least = amount_in(alloc, table, key, node, path, "minimum_amount")?;
    let greatest = amount_in(alloc, table, key, node, path, "maximum_amount")?;
    if !are_in_order(least, greatest) {
        return Err(path.name("minimum_amount")?.stop(BAD_RANGE));
    }
    Ok((least, greatest))
}

// Whether the least amount is not above the greatest, where both are given.
fn are_in_order(least: Option<i64>, greatest: Option<i64>) -> bool
    ensures { result ≡ in_order least greatest }
{
    match (least, greatest) {
        (Some(least), Some(greatest)) => least <= greatest,
        _ => true,
    }
}

// The amount of a field, unless it is missing or null.
fn amount_in(
    alloc: Global,
    table: &KeyTable,
    key: u32,
    node: &Value,
    path: &Path,
    name: &str,
) -> Result<Option<i64>, Stop<ShapeError>>
    ensures amount { Answers (λ o. o) result (within_optional name.now (amount_of table.now key) path.now (view node.now)) }
    ensures fits { IfOk result (λ o. bound_fits table.now key o ≡ true) }
{
    match optional(alloc, node, path, name)? {
        Some(found) => {
            let at = path.name(name)?;
            Ok(Some(amount(alloc, table, key, found, &at)?))
        }
        None => Ok(None),
    }
}

#[tactic(auto, unfolding(crate::specs::Amounts::amount_of))]
fn amount(
    alloc: Global,
    table: &KeyTable,
    key: u32,
    node: &Value,
    path: &Path,
) -> Result<i64, Stop<ShapeError>>
    ensures amount { Answers (λ z. z) result (amount_of table.now key path.now (view node.now)) }
    ensures keyed { IfOk result (λ z. is_number table.now key ≡ true) }
{
    let number = whole(alloc, node, path)?;
    if !is_number(table, key) {
        return Err(path.stop(UNKNOWN_WORD));
    }
    Ok(number)
}
