ghost use Rattle.std.specs.Prelude.{◌≡◌, ◌+◌, ◌≤◌, ◌++◌, length, vec_len, vec_capacity};

use crate::{Sink, SinkFailed};
use key_table::NoMemory;
use std::alloc::Global;
use std::marker::Model;

/// Keeps in memory what is written, as far as that fits into its room and its buffer.
/// Its count of faults stays at 18,446,744,073,709,551,615 once it is there.
#[derive(Debug, Drop)]
pub struct MemSink {
    bytes: Vec<u8>,
    room: Option<u64>,
    faults: u64,
}

impl Model for MemSink {
    ghost use Rattle.std.specs.Prelude.{vec_capacity};
    ghost use Rattle.shelf_io.specs.MemSinks.{SinkState};

    ghost Value = { SinkState };

    ghost view = { λ s. record {
      written = s.bytes.items;
      room = s.room;
      buffer = vec_capacity s.bytes;
      faults = s.faults;
    } };
}

impl MemSink {
    ghost use Rattle.std.specs.Prelude.{◌≡◌, ◌+◌, ◌<◌, ◌≤◌, [], length, OnOk, OnErr};
    ghost use Rattle.shelf_io.specs.MemSinks.{space_of};

    /// A sink with nothing written, no faults and an empty buffer.
    /// It takes `room` bytes in all. With None, only its buffer bounds it.
    pub fn new(alloc: Global, room: Option<u64>) -> MemSink
        ensures { result ≡ record { written = []; room = room; buffer = 0; faults = 0 } }
    {
        MemSink {
            bytes: Vec::new(alloc),
            room,
            faults: 0,
        }
    }

    /// Makes the buffer so large that this many more bytes fit into it.
    /// `NoMemory` where there is no memory for that. The sink is then as it was.
    pub fn reserve(&mut self, bytes: usize) -> Result<(), NoMemory>
        ensures ok { OnOk result (length self.new.written + bytes ≤ self.new.buffer) }
        ensures larger { self.old.buffer ≤ self.new.buffer }
        ensures kept { self.new ≡ record self.old { buffer = self.new.buffer } }

        // It fails only where the buffer was too small.
        ensures err { OnErr result (self.new ≡ self.old) }
        ensures small { OnErr result (self.old.buffer < length self.old.written + bytes) }
    {
        self.bytes.reserve(bytes)?;
        Ok(())
    }

    /// What was written.
    pub fn bytes(&self) -> &[u8]
        ensures { result.now ≡ self.now.written }
    {
        &self.bytes
    }

    /// The count of faults.
    pub fn faults(&self) -> u64
        ensures { result ≡ self.now.faults }
    {
        self.faults
    }

    // How many more bytes fit into the buffer and into the room.
    fn space(&self) -> usize
        ensures { result ≡ space_of self.now }
    {
        let buffer = self.bytes.capacity() - self.bytes.len();
        match self.room {
            None => buffer,
            Some(room) => {
                let left = room.saturating_sub(self.bytes.len() as u64);
                buffer.min(left as usize)
            }
        }
    }
}

impl Sink for MemSink {
    ghost use Rattle.std.specs.Prelude.{◌≡◌, ◌≤◌, ◌↔◌, ◌++◌, length, take, is_ok, IsOk, if◌then◌else◌};
    ghost use Rattle.shelf_io.specs.MemSinks.{sink_seen, space_of};
    ghost use Rattle.shelf_io.specs.Seen.{Puts, next_count};

    ghost seen = { sink_seen };

    /// `SinkFailed` where the bytes do not all fit. Then those that fit are written, from the first on.
    fn put(&mut self, bytes: &[u8]) -> Result<(), SinkFailed>
        ensures puts { Puts (sink_seen self.old) (sink_seen self.new) bytes.now result }
        ensures fits { IsOk result ↔ (length bytes.now ≤ space_of self.old) }
        ensures written { self.new.written ≡ self.old.written ++ take (space_of self.old) bytes.now }
        ensures faults { self.new.faults ≡
            (if is_ok result then self.old.faults else next_count self.old.faults) }
        ensures kept { (self.new.room ≡ self.old.room) × (self.new.buffer ≡ self.old.buffer) }
    {
        let count = bytes.len().min(self.space());
        append(&mut self.bytes, &bytes[..count]);
        if count < bytes.len() {
            self.faults = self.faults.saturating_add(1);
            return Err(SinkFailed);
        }
        Ok(())
    }
}

// Appends bytes that fit into the buffer.
fn append(buffer: &mut Vec<u8>, bytes: &[u8])
    requires { vec_len buffer.old + length bytes.now ≤ vec_capacity buffer.old }
    ensures items { buffer.new.items ≡ buffer.old.items ++ bytes.now }
    ensures capacity { vec_capacity buffer.new ≡ vec_capacity buffer.old }
{
    for byte in bytes {
        buffer.push_reserved(*byte);
    }
}
