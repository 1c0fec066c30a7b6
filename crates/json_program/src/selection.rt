ghost use Rattle.std.specs.Prelude.{◌≡◌, ◌≤◌, ◌&&◌, codes, true, pos, int_le, IfOk};
ghost use Rattle.std.specs.List.{list_all};
ghost use Rattle.serde_json.specs.View.{view};
ghost use Rattle.key_table.specs.Answers.{Answers};
ghost use Rattle.key_table.specs.Integers.{is_signed};
ghost use Rattle.euclid_ast.specs.Limits.{is_few, is_account, is_share, is_selection};
ghost use Rattle.json_shape.specs.Fields.{within_field, items, word_of};
ghost use Rattle.json_program.specs.Selections.{account_of, natural_of, amount_of, share_of, decision_named, selection_named, selection_in, selection_of};

use crate::error::{UNKNOWN_FORM, WRONG_SHAPE};
use crate::field::{optional_text_in, short_text_in, whole_in};
use crate::limits::{MOST_ITEMS, MOST_POINTS, MOST_SPLIT};
use euclid_ast::{Account, Selection, Share, ThreeDs};
use json_shape::{Path, Reader, ShapeError, each, field, list_up_to};
use key_table::{Seq, Stop};
use serde_json::Value;
use std::alloc::Global;

/// The form of a selection.
#[derive(Clone, Copy, Debug, PartialEq, Eq)]
pub(crate) enum SelectionForm {
    Priority,
    Volume,
    Fixed,
    Rate,
    Auth,
    Nothing,
}

impl SelectionForm {
    fn named(word: &str) -> Option<SelectionForm>
        ensures { result ≡ selection_named word.now }
    {
        match word {
            "priority" => Some(SelectionForm::Priority),
            "volume_split" => Some(SelectionForm::Volume),
            "surcharge_fixed" => Some(SelectionForm::Fixed),
            "surcharge_rate" => Some(SelectionForm::Rate),
            "three_ds" => Some(SelectionForm::Auth),
            "none" => Some(SelectionForm::Nothing),
            _ => None,
        }
    }
}

/// A selection.
#[tactic(auto, unfolding(crate::specs::Selections::selection_of))]
pub(crate) fn selection(
    alloc: Global,
    node: &Value,
    path: &Path,
) -> Result<Selection, Stop<ShapeError>>
    ensures selection { Answers (λ s. s) result (selection_of path.now (view node.now)) }
    ensures fits { IfOk result (λ s. is_selection s ≡ true) }
{
    let form = form_in(alloc, node, path)?;
    selection_in(alloc, form, node, path)
}

fn form_in(alloc: Global, node: &Value, path: &Path) -> Result<SelectionForm, Stop<ShapeError>>
    ensures { Answers (λ f. f) result (within_field (codes "type") (word_of 6 selection_named) path.now (view node.now)) }
{
    let at = path.name("type")?;
    let Some(word) = field(alloc, node, path, "type")?.as_str() else {
        return Err(at.stop(WRONG_SHAPE));
    };
    match SelectionForm::named(word) {
        Some(form) => Ok(form),
        None => Err(at.stop(UNKNOWN_FORM)),
    }
}

fn selection_in(
    alloc: Global,
    form: SelectionForm,
    node: &Value,
    path: &Path,
) -> Result<Selection, Stop<ShapeError>>
    ensures selection { Answers (λ s. s) result (selection_in form path.now (view node.now)) }
    ensures fits { IfOk result (λ s. is_selection s ≡ true) }
{
    if form == SelectionForm::Nothing {
        return Ok(Selection::Nothing);
    }
    let at = path.name("data")?;
    let data = field(alloc, node, path, "data")?;
    match form {
        SelectionForm::Priority => Ok(Selection::Priority(accounts(alloc, data, &at)?)),
        SelectionForm::Volume => Ok(Selection::Volume(shares(alloc, data, &at)?)),
        SelectionForm::Fixed => Ok(Selection::SurchargeFixed(amount_in(alloc, data, &at)?)),
        SelectionForm::Rate => {
            let points = natural_in(alloc, data, &at, "basis_points", MOST_POINTS)?;
            Ok(Selection::SurchargeRate(points))
        }
        SelectionForm::Auth => Ok(Selection::Auth(decision_in(alloc, data, &at)?)),
        SelectionForm::Nothing => Ok(Selection::Nothing),
    }
}

fn accounts(alloc: Global, node: &Value, path: &Path) -> Result<Seq<Account>, Stop<ShapeError>>
    ensures accounts { Answers (λ s. s) result (items 4096 account_of path.now (view node.now)) }
    ensures fit { IfOk result (λ s. (is_few s && list_all is_account s) ≡ true) }
{
    let nodes = list_up_to(alloc, node, path, MOST_ITEMS)?;
    each(alloc, &OneAccount, nodes, path)
}

fn shares(alloc: Global, node: &Value, path: &Path) -> Result<Seq<Share>, Stop<ShapeError>>
    ensures shares { Answers (λ s. s) result (items 4096 share_of path.now (view node.now)) }
    ensures fit { IfOk result (λ s. (is_few s && list_all is_share s) ≡ true) }
{
    let nodes = list_up_to(alloc, node, path, MOST_ITEMS)?;
    each(alloc, &OneShare, nodes, path)
}

// The amount of a field, which is not negative.
fn amount_in(alloc: Global, node: &Value, path: &Path) -> Result<i64, Stop<ShapeError>>
    ensures amount { Answers (λ z. z) result (within_field (codes "amount") amount_of path.now (view node.now)) }
    ensures fits { IfOk result (λ z. (int_le (pos 0) z && is_signed z) ≡ true) }
{
    let amount = whole_in(alloc, node, path, "amount")?;
    if amount < 0 {
        return Err(path.name("amount")?.stop(WRONG_SHAPE));
    }
    Ok(amount)
}

// The number of a field, which is not negative and at most so much.
fn natural_in(
    alloc: Global,
    node: &Value,
    path: &Path,
    name: &str,
    most: u16,
) -> Result<u16, Stop<ShapeError>>
    ensures number { Answers (λ n. n) result (within_field name.now (natural_of most) path.now (view node.now)) }
    ensures most { IfOk result (λ n. n ≤ most) }
{
    let number = whole_in(alloc, node, path, name)?;
    if number < 0 || number > i64::from(most) {
        return Err(path.name(name)?.stop(WRONG_SHAPE));
    }
    Ok(number as u16)
}

fn decision_in(alloc: Global, node: &Value, path: &Path) -> Result<ThreeDs, Stop<ShapeError>>
    ensures { Answers (λ d. d) result (within_field (codes "decision") (word_of 3 decision_named) path.now (view node.now)) }
{
    let at = path.name("decision")?;
    match field(alloc, node, path, "decision")?.as_str() {
        Some("three_ds") => Ok(ThreeDs::ThreeDs),
        Some("no_three_ds") => Ok(ThreeDs::NoThreeDs),
        _ => Err(at.stop(WRONG_SHAPE)),
    }
}

// An account.
struct OneAccount;

impl Reader for OneAccount {
    ghost use Rattle.euclid_ast.specs.Limits.{is_account};
    ghost use Rattle.json_program.specs.Selections.{account_of};

    type Item = Account;

    ghost reads = { λ _. account_of };

    ghost fits = { λ _ a. is_account a };

    #[tactic(auto, unfolding(crate::specs::Selections::account_of))]
    fn read(&self, alloc: Global, node: &Value, path: &Path) -> Result<Account, Stop<ShapeError>> {
        let connector = short_text_in(alloc, node, path, "connector")?;
        let id = optional_text_in(alloc, node, path, "merchant_connector_id")?;
        Ok(Account { connector, id })
    }
}

// An account and its part of the volume.
struct OneShare;

impl Reader for OneShare {
    ghost use Rattle.euclid_ast.specs.Limits.{is_share};
    ghost use Rattle.json_program.specs.Selections.{share_of};

    type Item = Share;

    ghost reads = { λ _. share_of };

    ghost fits = { λ _ s. is_share s };

    #[tactic(auto, unfolding(crate::specs::Selections::share_of))]
    fn read(&self, alloc: Global, node: &Value, path: &Path) -> Result<Share, Stop<ShapeError>> {
        let at = path.name("connector")?;
        let account = OneAccount.read(alloc, field(alloc, node, path, "connector")?, &at)?;
        let split = natural_in(alloc, node, path, "split", MOST_SPLIT)?;
        Ok(Share {
            account,
            split: split as u8,
        })
    }
}
