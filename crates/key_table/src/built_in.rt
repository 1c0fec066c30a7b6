ghost use Rattle.std.specs.Prelude.{◌≡◌, ◌≤◌, ◌<◌, ◌+◌, ◌++◌, length, [], map, OnOk, IfOk, true};
ghost use Rattle.std.specs.List.{list_all};
ghost use Rattle.key_table.specs.Tables.{variants};
ghost use Rattle.key_table.specs.Names.{is_name};
ghost use Rattle.key_table.specs.BuiltIn.{method_keys, enum_keys, built_in};
ghost use Rattle.key_table.specs.NameLists.{with_key, with_names};

use crate::key::Domain;
use crate::names::Names;
use crate::{KeyTable, NoMemory};
use std::alloc::Global;

// Adds an enum key with these variants.
fn add_enum(alloc: Global, table: &mut KeyTable, name: &str, words: &[&str]) -> Result<(), NoMemory>
    requires room { length table.old < 256 }
    requires few { length words.now ≤ 1024 }
    requires named { is_name name.now ≡ true }
    requires words_named { list_all is_name (map (λ w. w.now) words.now) ≡ true }
    ensures ok { OnOk result (table.new ≡ with_key table.old name.now (variants (with_names (map (λ w. w.now) words.now)))) }
    ensures count { length table.new ≤ length table.old + 1 }
{
    table.add(alloc, name, Domain::Enum(Names::of(alloc, words)?))
}

// The keys that say how is paid.
fn method_keys(alloc: Global) -> Result<KeyTable, NoMemory>
    ensures { IfOk result (λ t. t ≡ method_keys) }
{
    let mut table = KeyTable::new(alloc);
    let methods = [
        "card",
        "wallet",
        "bank_transfer",
        "bank_redirect",
        "pay_later",
    ];
    add_enum(alloc, &mut table, "payment_method", &methods)?;
    let types = [
        "credit",
        "debit",
        "google_pay",
        "apple_pay",
        "paypal",
        "klarna",
        "ach",
        "sepa",
        "ideal",
    ];
    add_enum(alloc, &mut table, "payment_method_type", &types)?;
    let networks = ["Visa", "Mastercard", "AmericanExpress", "Discover", "JCB"];
    add_enum(alloc, &mut table, "card_network", &networks)?;
    Ok(table)
}

// These and the other keys that have variants.
fn enum_keys(alloc: Global) -> Result<KeyTable, NoMemory>
    ensures { IfOk result (λ t. t ≡ enum_keys) }
{
    let mut table = method_keys(alloc)?;
    add_enum(
        alloc,
        &mut table,
        "authentication_type",
        &["three_ds", "no_three_ds"],
    )?;
    add_enum(
        alloc,
        &mut table,
        "capture_method",
        &["automatic", "manual"],
    )?;
    add_enum(
        alloc,
        &mut table,
        "currency",
        &["USD", "EUR", "GBP", "INR", "NOK", "JPY"],
    )?;
    add_enum(
        alloc,
        &mut table,
        "billing_country",
        &["US", "GB", "DE", "FR", "IN", "NO", "JP"],
    )?;
    Ok(table)
}

impl KeyTable {
    /// The built-in table.
    pub fn built_in(alloc: Global) -> Result<KeyTable, NoMemory>
        ensures { IfOk result (λ t. t ≡ built_in) }
    {
        let mut table = enum_keys(alloc)?;
        table.add(alloc, "amount", Domain::Number(0, i64::MAX))?;
        table.add(alloc, "card_bin", Domain::Text)?;
        table.add(alloc, "business_label", Domain::Text)?;
        table.add(alloc, "metadata", Domain::Metadata)?;
        Ok(table)
    }
}
