ghost use Rattle.std.specs.Prelude.{◌≡◌, IfOk};

use crate::notes::Notes;
use crate::trail::Trail;
use key_table::NoMemory;
use std::alloc::Global;
use std::marker::Model;

/// Room for the work of checks: for so many atoms and so many items of a certificate, and so many nodes of a graph. As many
/// atoms of the problem are not decided anew at each item.
#[derive(Drop)]
pub struct Scratch {
    pub(crate) trail: Trail,
    pub(crate) notes: Notes,
    atoms: u32,
    items: u32,
    nodes: u32,
}

impl Model for Scratch {
    ghost use Rattle.std.specs.Prelude.{ℕ};

    ghost Value = { ℕ × ℕ × ℕ };

    ghost use Rattle.contradiction_checker.specs.Trails.{HasRoom};
    ghost use Rattle.contradiction_checker.specs.Rooms.{HasRoomFor};

    ghost view = { λ s. (s.atoms, s.items, s.nodes) };

    ghost invariant = { λ s. HasRoom s.atoms s.items s.trail × HasRoomFor s.items s.nodes s.notes };
}

impl Scratch {
    /// Takes the room.
    pub fn for_sizes(alloc: Global, atoms: u32, items: u32, nodes: u32) -> Result<Scratch, NoMemory>
        ensures { IfOk result (λ s. s ≡ (atoms, items, nodes)) }
    {
        let trail = Trail::for_sizes(alloc, atoms, items)?;
        let notes = Notes::for_sizes(alloc, atoms, items, nodes)?;
        Ok(Scratch {
            trail,
            notes,
            atoms,
            items,
            nodes,
        })
    }

    /// The room: for atoms, items and nodes.
    pub fn room(&self) -> (u32, u32, u32)
        ensures { result ≡ self.now }
    {
        (self.atoms, self.items, self.nodes)
    }
}
