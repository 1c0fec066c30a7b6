ghost use Rattle.std.specs.Prelude.{◌≡◌, option_copied};
ghost use Rattle.shelf_io.specs.MemShelves.{files_of, bytes_under};

use crate::{ReadError, Shelf};
use key_table::NoMemory;
use std::alloc::Global;
use std::marker::Model;

/// Files in memory. It fails on the reads that `fail_at` names by their numbers.
/// Its count of faults and its number of reads stay at 18,446,744,073,709,551,615 once they are there.
#[derive(Debug, Drop)]
pub struct MemShelf {
    alloc: Global,
    // The newest file is the first. An older one of its name stands behind it, and is not read again.
    files: Vec<(String, Vec<u8>)>,
    failing: Vec<u64>,
    reads: u64,
    faults: u64,
    last: Option<String>,
}

impl Model for MemShelf {
    ghost use Rattle.std.specs.Prelude.{option_map, string_bytes};
    ghost use Rattle.shelf_io.specs.MemShelves.{ShelfState, files_of};

    ghost Value = { ShelfState };

    ghost view = { λ s. record {
      files = files_of s.files.items;
      failing = s.failing.items;
      reads = s.reads;
      faults = s.faults;
      last = option_map string_bytes s.last;
    } };
}

impl MemShelf {
    ghost use Rattle.std.specs.Prelude.{◌≡◌, [], ◌∷◌, ◌++◌, None, OnOk, OnErr};

    /// A shelf that holds nothing, with no faults.
    pub fn new(alloc: Global) -> MemShelf
        ensures { result ≡ record { files = []; failing = []; reads = 0; faults = 0; last = None } }
    {
        MemShelf {
            alloc,
            files: Vec::new(alloc),
            failing: Vec::new(alloc),
            reads: 0,
            faults: 0,
            last: None,
        }
    }

    /// Holds the bytes under the name, in place of earlier ones.
    /// `NoMemory` where there is no memory for them. The shelf is then as it was.
    pub fn add(&mut self, name: &str, bytes: &[u8]) -> Result<(), NoMemory>
        ensures ok { OnOk result
            (self.new ≡ record self.old { files = (name.now, bytes.now) ∷ self.old.files }) }
        ensures err { OnErr result (self.new ≡ self.old) }
    {
        let name = String::from_str(self.alloc, name)?;
        let bytes = Vec::from_slice(self.alloc, bytes)?;
        self.files.insert(0, (name, bytes))?;
        Ok(())
    }

    /// Makes the read with this number fail. The first read of a shelf has the number 0.
    /// `NoMemory` where there is no memory to keep the number. The shelf is then as it was.
    pub fn fail_at(&mut self, call: u32) -> Result<(), NoMemory>
        ensures ok { OnOk result (self.new ≡ record self.old { failing = self.old.failing ++ call ∷ [] }) }
        ensures err { OnErr result (self.new ≡ self.old) }
    {
        self.failing.push(u64::from(call))?;
        Ok(())
    }

    /// The count of faults.
    pub fn faults(&self) -> u64
        ensures { result ≡ self.now.faults }
    {
        self.faults
    }
}

impl Shelf for MemShelf {
    ghost use Rattle.std.specs.Prelude.{◌≡◌, ◌⊎◌, IsErrOf};
    ghost use Rattle.shelf_io.specs.MemShelves.{shelf_seen, IsPlanned, state_after};
    ghost use Rattle.shelf_io.specs.Seen.{Reads};

    ghost seen = { shelf_seen };

    /// `Failed` where the number of this read was given to `fail_at`, and nowhere else.
    fn read_up_to(&mut self, alloc: Global, name: &str, cap: usize) -> Result<Vec<u8>, ReadError>
        ensures reads { Reads (shelf_seen self.old) (shelf_seen self.new) name.now cap result }
        ensures state { self.new ≡ state_after self.old name.now result }

        // It fails exactly as planned, want of memory aside.
        ensures unplanned { IsErrOf result ReadError.Failed → IsPlanned self.old }
        ensures planned { IsPlanned self.old →
            IsErrOf result ReadError.Failed ⊎ IsErrOf result ReadError.NoMemory }
    {
        let number = self.reads;
        if self.failing.contains(&number) {
            let last = String::from_str(self.alloc, name)?;
            self.reads = number.saturating_add(1);
            self.faults = self.faults.saturating_add(1);
            self.last = Some(last);
            return Err(ReadError::Failed);
        }
        let Some(bytes) = find(&self.files, name) else {
            self.reads = number.saturating_add(1);
            return Err(ReadError::Absent);
        };
        let read = Vec::from_slice(alloc, &bytes[..cap.min(bytes.len())])?;
        self.reads = number.saturating_add(1);
        Ok(read)
    }
}

// The bytes of the newest file with the name.
fn find<'a>(files: &'a [(String, Vec<u8>)], name: &str) -> Option<&'a [u8]>
    ensures { option_copied result ≡ bytes_under (files_of files.now) name.now }
{
    for file in files {
        if file.0.as_str() == name {
            return Some(&file.1);
        }
    }
    None
}
