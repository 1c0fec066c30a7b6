ghost use Rattle.shelf_io.specs.Seen.{ShelfSeen, SinkSeen, Reads, Puts};

use std::alloc::{AllocError, Global};

/// Why a read gave no bytes.
#[derive(Clone, Copy, Debug, PartialEq, Eq)]
pub enum ReadError {
    /// The read failed. The shelf counted a fault, and keeps the name as the name of its last fault.
    Failed,
    /// The shelf holds nothing under the name.
    Absent,
    /// There was no memory. This is no fault, and the shelf is as it was.
    NoMemory,
}

impl From<AllocError> for ReadError {
    ghost use Rattle.std.specs.Prelude.{◌≡◌};
    ghost use Rattle.shelf_io.specs.declared.traits.ReadError.TheVariants.{NoMemory};

    ghost from_gives = { λ _ e. e ≡ NoMemory };

    fn from(_: AllocError) -> Self {
        ReadError::NoMemory
    }
}

/// Not all of the bytes were written. The sink counted a fault.
#[derive(Clone, Copy, Debug, PartialEq, Eq)]
pub struct SinkFailed;

/// Files by their names. A shelf counts its faults, and keeps the name of the last one.
pub trait Shelf {
    ghost seen: { Self → ShelfSeen };

    /// The bytes of the file with this name, or their first `cap` bytes where there are more.
    /// `Failed` where the read failed, `Absent` where the shelf holds no such file, and `NoMemory` where there is no memory.
    fn read_up_to(&mut self, alloc: Global, name: &str, cap: usize) -> Result<Vec<u8>, ReadError>
        ensures { Reads (seen self.old) (seen self.new) name.now cap result };
}

/// Where bytes are written to, one after another. A sink counts its faults.
pub trait Sink {
    ghost seen: { Self → SinkSeen };

    /// Writes the bytes after those that were written before.
    /// `SinkFailed` where they were not all written. Then a front of them was.
    fn put(&mut self, bytes: &[u8]) -> Result<(), SinkFailed>
        ensures { Puts (seen self.old) (seen self.new) bytes.now result };
}
