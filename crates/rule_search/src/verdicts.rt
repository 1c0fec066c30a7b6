ghost use Rattle.std.specs.Prelude.{◌≡◌, ◌<◌, ◌^◌, length, not, OnOk};
ghost use Rattle.std.specs.List.{list_all, list_any};
ghost use Rattle.rule_search.specs.Told.{is_forced, is_entailed, is_refuted, has_entailed, are_refuted, AreVerdicts};

use domain_store::Store;
use key_table::{NoMemory, Seq, Verdict3, left_law};
use rule_problem::Literal;

/// Asks for the verdict of each of the problem's atoms, in order.
pub(crate) fn ask(store: &Store<'_>, verdicts: &mut Vec<Verdict3>) -> Result<(), NoMemory>
    requires few { length store.now.problem.atoms < 2 ^ 32 }
    ensures { OnOk result (AreVerdicts store.now verdicts.new.items) }
{
    left_law();
    let _open = store.assumptions();
    let count = store.problem().atoms.as_slice().len() as u32;
    verdicts.clear();
    for atom in 0..count {
        verdicts.push(store.atom_verdict(atom))?;
    }
    Ok(())
}

/// Whether the truth is forced on the atom with a number.
pub(crate) fn is_forced(verdicts: &[Verdict3], atom: u32, truth: bool) -> bool
    ensures { result ≡ is_forced verdicts.now atom truth }
{
    match verdicts.get(atom as usize) {
        Some(Verdict3::Entailed) => truth,
        Some(Verdict3::Refuted) => !truth,
        _ => false,
    }
}

/// Whether all literals of a path are entailed.
pub(crate) fn is_entailed(verdicts: &[Verdict3], path: &[Literal]) -> bool
    ensures { result ≡ is_entailed verdicts.now path.now }
{
    path.iter()
        .all(|literal| is_forced(verdicts, literal.atom, literal.want))
}

/// Whether some literal of a path is refuted.
pub(crate) fn is_refuted(verdicts: &[Verdict3], path: &[Literal]) -> bool
    ensures { result ≡ is_refuted verdicts.now path.now }
{
    path.iter()
        .any(|literal| is_forced(verdicts, literal.atom, !literal.want))
}

/// Whether each path has a refuted literal.
pub(crate) fn are_refuted(verdicts: &[Verdict3], paths: &[Seq<Literal>]) -> bool
    ensures { result ≡ are_refuted verdicts.now paths.now }
{
    paths
        .iter()
        .all(|path| is_refuted(verdicts, path.as_slice()))
}

/// Whether some path has all its literals entailed.
pub(crate) fn has_entailed(verdicts: &[Verdict3], paths: &[Seq<Literal>]) -> bool
    ensures { result ≡ has_entailed verdicts.now paths.now }
{
    paths
        .iter()
        .any(|path| is_entailed(verdicts, path.as_slice()))
}
