ghost use Rattle.std.specs.Prelude.{◌≡◌, ◌<◌, ◌∷◌, [], length, fold, true, IfOk, OnOk};
ghost use Rattle.std.specs.List.{All};
ghost use Rattle.rule_problem.specs.Distinct.{are_distinct, with_atom};
ghost use Rattle.rule_report.specs.Numbered.{atoms_at};
ghost use Rattle.rule_report.specs.Targets.{said, all_true};
ghost use Rattle.rule_report.specs.Taken.{IsTaking};

use crate::atoms::number;
use key_table::{Atom, NoMemory, Seq, atom_law};
use rule_problem::Literal;
use std::alloc::Global;

/// The atoms of a problem that is made, which are some of those that are shared, and for each of these its number in the
/// problem, where it has one.
#[derive(Drop)]
pub(crate) struct Taken {
    pub(crate) atoms: Seq<Atom>,
    pub(crate) numbers: Vec<Option<u32>>,
}

/// None of the shared atoms is taken.
pub(crate) fn none_taken(alloc: Global, shared: &[Atom]) -> Result<Taken, NoMemory>
    requires { are_distinct shared.now ≡ true }
    ensures taken { IfOk result (λ taken. IsTaking shared.now taken) }
    ensures atoms { IfOk result (λ taken. taken.atoms ≡ []) }
{
    let numbers = vec![in alloc; None; shared.len()]?;
    Ok(Taken {
        atoms: Seq::new(alloc),
        numbers,
    })
}

/// That the shared atoms with these numbers are true, as literals of the problem. Those that it lacks come last, in order.
pub(crate) fn take_all(
    alloc: Global,
    shared: &[Atom],
    places: &[u32],
    taken: &mut Taken,
) -> Result<Seq<Literal>, NoMemory>
    requires within { All (λ place. place < length shared.now) places.now }
    requires taken { IsTaking shared.now taken.old }
    ensures taken { OnOk result (IsTaking shared.now taken.new) }
    ensures atoms { OnOk result (taken.new.atoms ≡ fold with_atom taken.old.atoms (atoms_at shared.now places.now)) }
    ensures said { IfOk result (λ path. said taken.new.atoms path ≡ all_true (atoms_at shared.now places.now)) }
{
    let mut path = Seq::with_capacity(alloc, places.len())?;
    for place in places {
        path.push(take(shared, *place, taken)?)?;
    }
    Ok(path)
}

// That one shared atom is true. It comes last where the problem lacks it.
fn take(shared: &[Atom], place: u32, taken: &mut Taken) -> Result<Literal, NoMemory>
    requires within { place < length shared.now }
    requires taken { IsTaking shared.now taken.old }
    ensures taken { OnOk result (IsTaking shared.now taken.new) }
    ensures atoms { OnOk result (taken.new.atoms ≡ fold with_atom taken.old.atoms (atoms_at shared.now (place ∷ []))) }
    ensures said { IfOk result (λ literal. said taken.new.atoms (literal ∷ []) ≡ all_true (atoms_at shared.now (place ∷ []))) }
{
    atom_law();
    if let Some(known) = taken.numbers[place as usize] {
        return Ok(Literal {
            atom: known,
            want: true,
        });
    }
    let next = number(taken.atoms.as_slice().len())?;
    taken.atoms.push(shared[place as usize].copy()?)?;
    taken.numbers[place as usize] = Some(next);
    Ok(Literal {
        atom: next,
        want: true,
    })
}
