ghost use Rattle.std.specs.Prelude.{◌≡◌, ◌≤◌, vec_len, vec_capacity, length, slice_get};
ghost use Rattle.contradiction_checker.specs.Assumed.{premises_of};
ghost use Rattle.contradiction_checker.specs.Decisions.{is_void, literal_entailed, literal_refuted, path_refuted, want_refuted, bar_entailed, reason_holds};
ghost use Rattle.contradiction_checker.specs.Findings.{AreFound, test_at};
ghost use Rattle.contradiction_checker.specs.Trails.{IsLinked};
ghost use Rattle.contradiction_checker.specs.Rooms.{HasRoomFor, Extends};

use crate::finding::Finding;
use crate::notes::Notes;
use crate::options::Assumed;
use crate::premises::Premises;
use key_table::{Atom, Seq};
use rule_problem::{Item, Literal, Problem};

// Each call here writes over what stands in `mine`.
impl<'a> Premises<'a> {
    // Whether no option at all is left to the slot of the atom.
    fn is_void(&self, atom: &Atom, mine: &mut Vec<Assumed>) -> bool
        requires linked { IsLinked self.now.atoms.now self.now.trail.now }
        requires room { vec_len self.now.trail.now.assumed ≤ vec_capacity mine.old }
        ensures value { result ≡ is_void self.now.table.now (premises_of self.now) atom.now }
        ensures room { vec_capacity mine.old ≤ vec_capacity mine.new }
    {
        !self.is_left(atom, true, mine) && !self.is_left(atom, false, mine)
    }

    // Whether no option is left on which the literal is false.
    fn is_entailed(
        &self,
        atoms: &[Atom],
        literal: Literal,
        findings: &mut Vec<Finding>,
        mine: &mut Vec<Assumed>,
    ) -> bool
        requires linked { IsLinked self.now.atoms.now self.now.trail.now }
        requires room { vec_len self.now.trail.now.assumed ≤ vec_capacity mine.old }
        requires found { AreFound self.now.table.now self.now.atoms.now self.now.trail.now (slice_get atoms.now) findings.old.items }
        ensures value { result ≡ literal_entailed self.now.table.now (premises_of self.now) atoms.now literal }
        ensures found { AreFound self.now.table.now self.now.atoms.now self.now.trail.now (slice_get atoms.now) findings.new.items }
        ensures room { vec_capacity mine.old ≤ vec_capacity mine.new }
    {
        match atoms.get(literal.atom as usize) {
            Some(atom) => {
                !self.is_left_at(atom, !literal.want, literal.atom as usize, findings, mine)
            }
            None => false,
        }
    }

    // Whether no option is left on which the literal is true.
    fn is_refuted(
        &self,
        atoms: &[Atom],
        literal: Literal,
        findings: &mut Vec<Finding>,
        mine: &mut Vec<Assumed>,
    ) -> bool
        requires linked { IsLinked self.now.atoms.now self.now.trail.now }
        requires room { vec_len self.now.trail.now.assumed ≤ vec_capacity mine.old }
        requires found { AreFound self.now.table.now self.now.atoms.now self.now.trail.now (slice_get atoms.now) findings.old.items }
        ensures value { result ≡ literal_refuted self.now.table.now (premises_of self.now) atoms.now literal }
        ensures found { AreFound self.now.table.now self.now.atoms.now self.now.trail.now (slice_get atoms.now) findings.new.items }
        ensures room { vec_capacity mine.old ≤ vec_capacity mine.new }
    {
        match atoms.get(literal.atom as usize) {
            Some(atom) => {
                !self.is_left_at(atom, literal.want, literal.atom as usize, findings, mine)
            }
            None => false,
        }
    }

    // Whether some literal of the path is refuted.
    fn is_path_refuted(
        &self,
        atoms: &[Atom],
        path: &[Literal],
        findings: &mut Vec<Finding>,
        mine: &mut Vec<Assumed>,
    ) -> bool
        requires linked { IsLinked self.now.atoms.now self.now.trail.now }
        requires room { vec_len self.now.trail.now.assumed ≤ vec_capacity mine.old }
        requires found { AreFound self.now.table.now self.now.atoms.now self.now.trail.now (slice_get atoms.now) findings.old.items }
        ensures value { result ≡ path_refuted self.now.table.now (premises_of self.now) atoms.now path.now }
        ensures found { AreFound self.now.table.now self.now.atoms.now self.now.trail.now (slice_get atoms.now) findings.new.items }
        ensures room { vec_capacity mine.old ≤ vec_capacity mine.new }
    {
        for literal in path {
            if self.is_refuted(atoms, *literal, findings, mine) {
                return true;
            }
        }
        false
    }

    // Whether each path has a refuted literal.
    fn is_want_refuted(
        &self,
        atoms: &[Atom],
        paths: &[Seq<Literal>],
        findings: &mut Vec<Finding>,
        mine: &mut Vec<Assumed>,
    ) -> bool
        requires linked { IsLinked self.now.atoms.now self.now.trail.now }
        requires room { vec_len self.now.trail.now.assumed ≤ vec_capacity mine.old }
        requires found { AreFound self.now.table.now self.now.atoms.now self.now.trail.now (slice_get atoms.now) findings.old.items }
        ensures value { result ≡ want_refuted self.now.table.now (premises_of self.now) atoms.now paths.now }
        ensures found { AreFound self.now.table.now self.now.atoms.now self.now.trail.now (slice_get atoms.now) findings.new.items }
        ensures room { vec_capacity mine.old ≤ vec_capacity mine.new }
    {
        for path in paths {
            if !self.is_path_refuted(atoms, path.as_slice(), findings, mine) {
                return false;
            }
        }
        true
    }

    // Whether all literals of the bar are entailed.
    fn is_bar_entailed(
        &self,
        atoms: &[Atom],
        bar: &[Literal],
        findings: &mut Vec<Finding>,
        mine: &mut Vec<Assumed>,
    ) -> bool
        requires linked { IsLinked self.now.atoms.now self.now.trail.now }
        requires room { vec_len self.now.trail.now.assumed ≤ vec_capacity mine.old }
        requires found { AreFound self.now.table.now self.now.atoms.now self.now.trail.now (slice_get atoms.now) findings.old.items }
        ensures value { result ≡ bar_entailed self.now.table.now (premises_of self.now) atoms.now bar.now }
        ensures found { AreFound self.now.table.now self.now.atoms.now self.now.trail.now (slice_get atoms.now) findings.new.items }
        ensures room { vec_capacity mine.old ≤ vec_capacity mine.new }
    {
        for literal in bar {
            if !self.is_entailed(atoms, *literal, findings, mine) {
                return false;
            }
        }
        true
    }

    /// Whether an item is a reason that holds, by what was found before of the atoms of the problem and of its graph's nodes.
    pub(crate) fn reason_holds(&self, problem: &Problem, item: Item, notes: &mut Notes) -> bool
        requires linked { IsLinked self.now.atoms.now self.now.trail.now }
        requires room { HasRoomFor (vec_len self.now.trail.now.assumed) (length problem.now.graph) notes.old }
        requires of_atoms { AreFound self.now.table.now self.now.atoms.now self.now.trail.now (slice_get problem.now.atoms) notes.old.of_atoms.items }
        requires of_nodes { AreFound self.now.table.now self.now.atoms.now self.now.trail.now (test_at problem.now.graph) notes.old.of_nodes.items }
        ensures value { result ≡ reason_holds self.now.table.now problem.now self.now.atoms.now (premises_of self.now) item }
        ensures of_atoms { AreFound self.now.table.now self.now.atoms.now self.now.trail.now (slice_get problem.now.atoms) notes.new.of_atoms.items }
        ensures of_nodes { AreFound self.now.table.now self.now.atoms.now self.now.trail.now (test_at problem.now.graph) notes.new.of_nodes.items }
        ensures room { Extends notes.old notes.new }
    {
        let atoms = problem.atoms.as_slice();
        match item {
            Item::Void(x) => match self.atoms.get(x as usize) {
                Some(atom) => self.is_void(atom, &mut notes.mine),
                None => false,
            },
            Item::Want(w) => match problem.wants.as_slice().get(w as usize) {
                Some(paths) => self.is_want_refuted(
                    atoms,
                    paths.as_slice(),
                    &mut notes.of_atoms,
                    &mut notes.mine,
                ),
                None => false,
            },
            Item::Bar(b) => match problem.bars.as_slice().get(b as usize) {
                Some(bar) => self.is_bar_entailed(
                    atoms,
                    bar.as_slice(),
                    &mut notes.of_atoms,
                    &mut notes.mine,
                ),
                None => false,
            },
            Item::Goal => self.is_goal_refuted(
                &problem.graph,
                problem.goal,
                &mut notes.of_nodes,
                &mut notes.mine,
                &mut notes.verdicts,
            ),
            Item::Split(_) | Item::Todo => false,
        }
    }
}
