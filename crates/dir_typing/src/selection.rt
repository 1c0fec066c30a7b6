ghost use Rattle.std.specs.Prelude.{◌≡◌, ◌==◌, map};
ghost use Rattle.std.specs.List.{sum_by};
ghost use Rattle.euclid_ast.specs.declared.selection.Share.{Share};
ghost use Rattle.euclid_ast.specs.declared.program.Rule.{Rule};
ghost use Rattle.dir_typing.specs.Selections.{family_of, outputs_of, first_family, is_empty_list, misses_100, differs, selection_code};

use crate::fault::{EMPTY_SELECTION, MIXED_OUTPUTS, SPLIT_SUM};
use euclid_ast::{Program, Rule, Selection, Share};

/// What the splits of a volume list add up to, in percent.
const WHOLE: u32 = 100;

/// What a selection is about: where payments go, what is charged on top, or who authenticates the payer.
#[derive(Clone, Copy, Debug, PartialEq, Eq)]
pub enum Family {
    Routing,
    Surcharge,
    ThreeDs,
}

fn family_of(selection: &Selection) -> Option<Family>
    ensures { result ≡ family_of selection.now }
{
    match selection {
        Selection::Priority(_) | Selection::Volume(_) => Some(Family::Routing),
        Selection::SurchargeFixed(_) | Selection::SurchargeRate(_) => Some(Family::Surcharge),
        Selection::Auth(_) => Some(Family::ThreeDs),
        Selection::Nothing => None,
    }
}

/// The family of the first output that has one. The default's comes before those of the rules.
pub(crate) fn first_family(program: &Program) -> Option<Family>
    ensures { result ≡ first_family (outputs_of program.now) }
{
    match family_of(&program.default_selection) {
        Some(family) => Some(family),
        None => first_family_in(program.rules.as_slice()),
    }
}

fn first_family_in(rules: &[Rule]) -> Option<Family>
    ensures { result ≡ first_family (map (λ (rule : Rule). rule.selection) rules.now) }
{
    for rule in rules {
        if let Some(family) = family_of(&rule.selection) {
            return Some(family);
        }
    }
    None
}

/// The code of the first thing that is wrong with a selection of a rule, or of the default.
pub(crate) fn selection_code(
    in_rule: bool,
    first: Option<Family>,
    selection: &Selection,
) -> Option<u8>
    ensures { result ≡ selection_code in_rule first selection.now }
{
    if in_rule && is_empty_list(selection) {
        return Some(EMPTY_SELECTION);
    }
    if misses_100(selection) {
        return Some(SPLIT_SUM);
    }
    if differs(first, selection) {
        return Some(MIXED_OUTPUTS);
    }
    None
}

fn is_empty_list(selection: &Selection) -> bool
    ensures { result ≡ is_empty_list selection.now }
{
    match selection {
        Selection::Priority(accounts) => accounts.as_slice().is_empty(),
        Selection::Volume(shares) => shares.as_slice().is_empty(),
        _ => false,
    }
}

fn misses_100(selection: &Selection) -> bool
    ensures { result ≡ misses_100 selection.now }
{
    match selection {
        Selection::Volume(shares) => { !shares.as_slice().is_empty() && !add_up(shares.as_slice()) }
        _ => false,
    }
}

// Whether the splits add up to 100. The sum is given up where it is past that.
#[tactic(auto, using(std::proofs::lemmas::List::Sums::sum_by_more_le))]
fn add_up(shares: &[Share]) -> bool
    ensures { result ≡ (sum_by (λ (share : Share). share.split) shares.now == 100) }
{
    let mut total: u32 = 0;
    for share in shares {
        total += share.split as u32;
        if total > WHOLE {
            return false;
        }
    }
    total == WHOLE
}

fn differs(first: Option<Family>, selection: &Selection) -> bool
    ensures { result ≡ differs first selection.now }
{
    match (first, family_of(selection)) {
        (Some(first), Some(family)) => family != first,
        _ => false,
    }
}
