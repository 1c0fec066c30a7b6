ghost use Rattle.std.specs.Prelude.{◌≤◌, IfOk, vec_capacity};
ghost use Rattle.contradiction_checker.specs.Findings.{AreNothing};
ghost use Rattle.contradiction_checker.specs.Rooms.{HasRoomFor, Extends};

use crate::finding::Finding;
use crate::options::Assumed;
use crate::trail::fill;
use key_table::{NoMemory, Verdict3};
use std::alloc::Global;

/// What a walk notes: the assumptions on one slot, the verdicts of the nodes, and what was found of the atoms of the problem
/// and of the nodes.
#[derive(Drop)]
pub(crate) struct Notes {
    pub(crate) mine: Vec<Assumed>,
    pub(crate) verdicts: Vec<Verdict3>,
    pub(crate) of_atoms: Vec<Finding>,
    pub(crate) of_nodes: Vec<Finding>,
}

impl Notes {
    /// Takes the room.
    pub(crate) fn for_sizes(
        alloc: Global,
        atoms: u32,
        items: u32,
        nodes: u32,
    ) -> Result<Notes, NoMemory>
        ensures { IfOk result (HasRoomFor items nodes) }
    {
        let mine = Vec::with_capacity(alloc, items as usize)?;
        let verdicts = Vec::with_capacity(alloc, nodes as usize)?;
        let of_atoms = Vec::with_capacity(alloc, atoms as usize)?;
        let of_nodes = Vec::with_capacity(alloc, nodes as usize)?;
        Ok(Notes {
            mine,
            verdicts,
            of_atoms,
            of_nodes,
        })
    }

    /// Nothing is found yet of so many nodes, and of so many atoms where there is room for them, else of the first ones.
    pub(crate) fn clear(&mut self, atoms: usize, nodes: u32)
        requires { nodes ≤ vec_capacity self.old.of_nodes }
        ensures of_atoms { AreNothing self.new.of_atoms.items }
        ensures of_nodes { AreNothing self.new.of_nodes.items }
        ensures room { Extends self.old self.new }
    {
        let atoms = atoms.min(self.of_atoms.capacity());
        fill(&mut self.of_atoms, atoms, Finding::nothing());
        fill(&mut self.of_nodes, nodes as usize, Finding::nothing());
    }
}
