ghost use Rattle.std.specs.Prelude.{◌≡◌, ◌++◌, ◌∷◌, [], IfOk, OnOk};
ghost use Rattle.connector_settings.specs.Demands.{asked, word_tests, network_demands, only_demands, except_demands, bound_demands, demands_of};

use crate::keys::Keys;
use crate::{Accept, TypeEntry};
use key_table::{NoMemory, Op, Seq, Test};
use std::alloc::Global;

/// That a key is there and some test is true of it, or that this is not so.
#[derive(Debug, Drop)]
pub(crate) struct Demand {
    pub(crate) key: u32,
    pub(crate) tests: Seq<Test>,
    pub(crate) truth: bool,
}

/// What a type entry of a method asks of a payment.
pub(crate) fn demands(
    alloc: Global,
    keys: Keys,
    method: u32,
    entry: &TypeEntry,
) -> Result<Vec<Demand>, NoMemory>
    ensures { IfOk result (λ ds. ds.items ≡ demands_of keys method entry.now) }
{
    let mut demands = Vec::new(alloc);
    ask_word(alloc, &mut demands, keys.method, method)?;
    ask_word(alloc, &mut demands, keys.method_type, entry.method_type)?;
    ask_networks(alloc, &mut demands, keys.network, entry.networks.as_slice())?;
    ask_only(alloc, &mut demands, keys.currency, &entry.currencies)?;
    ask_only(alloc, &mut demands, keys.country, &entry.countries)?;
    ask_bound(
        alloc,
        &mut demands,
        keys.amount,
        Op::GreaterEqual,
        entry.minimum,
    )?;
    ask_bound(
        alloc,
        &mut demands,
        keys.amount,
        Op::LessEqual,
        entry.maximum,
    )?;
    bar_except(alloc, &mut demands, keys.currency, &entry.currencies)?;
    bar_except(alloc, &mut demands, keys.country, &entry.countries)?;
    Ok(demands)
}

fn ask_word(alloc: Global, demands: &mut Vec<Demand>, key: u32, word: u32) -> Result<(), NoMemory>
    ensures { OnOk result (demands.new.items ≡ demands.old.items ++ asked key (word_tests (word ∷ [])) ∷ []) }
{
    ask(demands, key, one_of(alloc, &[word])?, true)
}

fn ask_networks(
    alloc: Global,
    demands: &mut Vec<Demand>,
    key: u32,
    networks: &[u32],
) -> Result<(), NoMemory>
    ensures { OnOk result (demands.new.items ≡ demands.old.items ++ network_demands key networks.now) }
{
    if networks.is_empty() {
        return Ok(());
    }
    ask(demands, key, one_of(alloc, networks)?, true)
}

fn ask_only(
    alloc: Global,
    demands: &mut Vec<Demand>,
    key: u32,
    accept: &Accept,
) -> Result<(), NoMemory>
    ensures { OnOk result (demands.new.items ≡ demands.old.items ++ only_demands key accept.now) }
{
    match accept {
        Accept::Only(words) => ask(demands, key, one_of(alloc, words.as_slice())?, true),
        Accept::All | Accept::Except(_) => Ok(()),
    }
}

fn bar_except(
    alloc: Global,
    demands: &mut Vec<Demand>,
    key: u32,
    accept: &Accept,
) -> Result<(), NoMemory>
    ensures { OnOk result (demands.new.items ≡ demands.old.items ++ except_demands key accept.now) }
{
    match accept {
        Accept::Except(words) => ask(demands, key, one_of(alloc, words.as_slice())?, false),
        Accept::All | Accept::Only(_) => Ok(()),
    }
}

fn ask_bound(
    alloc: Global,
    demands: &mut Vec<Demand>,
    key: u32,
    op: Op,
    bound: Option<i64>,
) -> Result<(), NoMemory>
    ensures { OnOk result (demands.new.items ≡ demands.old.items ++ bound_demands key op bound) }
{
    let Some(number) = bound else {
        return Ok(());
    };
    let mut tests = Seq::new(alloc);
    tests.push(Test::Number(op, number))?;
    ask(demands, key, tests, true)
}

fn ask(demands: &mut Vec<Demand>, key: u32, tests: Seq<Test>, truth: bool) -> Result<(), NoMemory>
    ensures { OnOk result (demands.new.items ≡ demands.old.items ++ record { key = key; tests = tests; truth = truth } ∷ []) }
{
    demands.push(Demand { key, tests, truth })?;
    Ok(())
}

// One test for each word.
fn one_of(alloc: Global, variants: &[u32]) -> Result<Seq<Test>, NoMemory>
    ensures { IfOk result (λ tests. tests ≡ word_tests variants.now) }
{
    let mut tests = Seq::new(alloc);
    for variant in variants {
        tests.push(Test::Variant(*variant))?;
    }
    Ok(tests)
}
