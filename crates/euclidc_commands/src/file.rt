ghost use Rattle.std.specs.Prelude.{ℕ, ◌≤◌, [], ◌∷◌, length, Vec, IfOk};
ghost use Rattle.std.specs.declared.alloc.Global.{Global};
ghost use Rattle.euclidc_commands.specs.Roles.{limit_of};
ghost use Rattle.euclidc_commands.specs.Runs.{bytes_in};
ghost use Rattle.euclidc_commands.specs.Stages.{Gives};

use crate::answer::Halt;
use crate::refusal::too_long;
use crate::role::Role;
use shelf_io::{ReadError, Shelf};
use std::alloc::Global;

/// The bytes of a file, of which there may be as many as its role allows.
pub fn read_file<F: Shelf>(
    alloc: Global,
    shelf: &mut F,
    name: &str,
    role: Role,
) -> Result<Vec<u8>, Halt>
    ensures stage { Gives (λ (v : Vec ℕ Global). v.items) (bytes_in role name.now) (name.now ∷ []) (F.seen shelf.old) (F.seen shelf.new) result }
    ensures few { IfOk result (λ (v : Vec ℕ Global). length v.items ≤ limit_of role) }
{
    let limit = role.limit();
    match shelf.read_up_to(alloc, name, limit + 1) {
        Ok(bytes) if bytes.len() > limit => Err(too_long(alloc, role)),
        Ok(bytes) => Ok(bytes),
        Err(ReadError::NoMemory) => Err(Halt::NoMemory),
        Err(ReadError::Failed) => Err(Halt::ReadFault),
        Err(ReadError::Absent) => Err(Halt::ReadFault),
    }
}
