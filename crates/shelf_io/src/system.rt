ghost use Rattle.std.specs.Prelude.{◌≡◌, ◌≢◌, ◌+◌, ◌<◌, ◌≤◌, length, take, drop, vec_len, IsTrue, IfOk, IfErr, IfSome, OnOk};
ghost use Rattle.std.specs.Io.KnownBytes.{Appends, Consumes, IsAtEnd};

use crate::{ReadError, Shelf, Sink, SinkFailed};
use std::alloc::Global;
use std::fs;
use std::io::{self, Read, Write};
use std::marker::Model;
use std::rt::Files;

/// The real files, whose names are their paths. Each error of the system is a fault.
/// So is a file that is not there, and this shelf never answers `Absent`.
/// The count of faults stays at 18,446,744,073,709,551,615 once it is there.
#[derive(Drop)]
pub struct DirShelf<'r, R: Files> {
    rt: &'r R,
    faults: u64,
    last: Option<String>,
}

impl<'r, R: Files> Model for DirShelf<'r, R> {
    ghost use Rattle.std.specs.Prelude.{option_map, string_bytes};
    ghost use Rattle.shelf_io.specs.DirShelves.{DirState};

    ghost Value = { DirState };

    ghost view = { λ s. record { faults = s.faults; last = option_map string_bytes s.last } };
}

impl<'r, R: Files> DirShelf<'r, R> {
    ghost use Rattle.std.specs.Prelude.{◌≡◌, None};

    /// A shelf of the files that the runtime reaches, with no faults.
    pub fn new(rt: &'r R) -> DirShelf<'r, R>
        ensures { result ≡ record { faults = 0; last = None } }
    {
        DirShelf {
            rt,
            faults: 0,
            last: None,
        }
    }
}

impl<'r, R: Files> Shelf for DirShelf<'r, R> {
    ghost use Rattle.std.specs.Prelude.{◌≡◌, Some, IsErrOf};
    ghost use Rattle.shelf_io.specs.DirShelves.{dir_seen};
    ghost use Rattle.shelf_io.specs.Seen.{Reads, next_count};

    ghost seen = { dir_seen };

    /// Copies the name, opens it as a path, and reads until the end or until `cap` bytes.
    /// `Failed` where the system does not open or read it, and `NoMemory` where there is no memory for the copy or for the bytes.
    fn read_up_to(&mut self, alloc: Global, name: &str, cap: usize) -> Result<Vec<u8>, ReadError>
        ensures reads { Reads (dir_seen self.old) (dir_seen self.new) name.now cap result }
        ensures failed { IsErrOf result ReadError.Failed →
            self.new ≡ record { faults = next_count self.old.faults; last = Some name.now } }
    {
        let kept = String::from_str(alloc, name)?;
        let read = read_file(alloc, self.rt, name, cap);
        if let Err(ReadError::Failed) = read {
            self.faults = self.faults.saturating_add(1);
            self.last = Some(kept);
        }
        read
    }
}

fn read_file<R: Files>(alloc: Global, rt: &R, name: &str, cap: usize) -> Result<Vec<u8>, ReadError>
    ensures capped { IfOk result (λ v. length v.items ≤ cap) }
    ensures errors { IfErr result (λ e. e ≢ ReadError.Absent) }
{
    match fs::open(rt, name) {
        Ok(mut file) => read_front(alloc, &mut file, cap),
        Err(_) => Err(ReadError::Failed),
    }
}

// The bytes that a reader gives, up to its end or to `cap` bytes.
fn read_front<F: Read>(alloc: Global, reader: &mut F, cap: usize) -> Result<Vec<u8>, ReadError>
    ensures front { IfOk result (λ v. IfSome (F.remaining reader.old) (λ bytes. v.items ≡ take cap bytes)) }
    ensures capped { IfOk result (λ v. length v.items ≤ cap) }
    ensures errors { IfErr result (λ e. e ≢ ReadError.Absent) }
{
    let mut bytes = Vec::new(alloc);
    let mut count = 0;
    while count < cap {
        make_room(&mut bytes, count, cap)?;
        match read_after(reader, &mut bytes, count) {
            Ok(0) => break,
            Ok(more) => count += more,
            Err(_) => return Err(ReadError::Failed),
        }
    }
    bytes.truncate(count);
    Ok(bytes)
}

// The bytes grow by parts. The first parts double, and none is longer than the last.
const FIRST_PART: usize = 8 * 1024;

const LAST_PART: usize = 1024 * 1024;

// Makes the bytes longer than the first `count` where they are not, by one part, but no longer than `cap`.
fn make_room(bytes: &mut Vec<u8>, count: usize, cap: usize) -> Result<(), ReadError>
    requires within { count ≤ vec_len bytes.old }
    requires below { count < cap }
    requires capped { vec_len bytes.old ≤ cap }
    ensures longer { OnOk result (count < vec_len bytes.new) }
    ensures capped { vec_len bytes.new ≤ cap }
    ensures front { take count bytes.new.items ≡ take count bytes.old.items }
    ensures err { IfErr result (λ e. e ≡ ReadError.NoMemory) }
{
    let len = bytes.len();
    if count == len {
        let part = len.clamp(FIRST_PART, LAST_PART);
        bytes.resize(len.saturating_add(part).min(cap), 0)?;
    }
    Ok(())
}

// One read, into the bytes after the first `count`.
fn read_after<F: Read>(reader: &mut F, bytes: &mut [u8], count: usize) -> io::Result<usize>
    requires { count < length bytes.old }
    ensures front { take count bytes.new ≡ take count bytes.old }
    ensures fits { IfOk result (λ n. count + n ≤ length bytes.new) }
    ensures given { IfOk result (λ n.
        Consumes (F.remaining reader.old) (F.remaining reader.new) (take n (drop count bytes.new))) }
    ensures end { IfOk result (λ n. n ≡ 0 → IsAtEnd (F.remaining reader.new)) }
{
    reader.read(&mut bytes[count..])
}

/// Standard output. Each error of the system is a fault, and so is a write that takes no byte.
/// The count of faults stays at 18,446,744,073,709,551,615 once it is there.
#[derive(Drop)]
pub struct StdSink<'r, R: Print> {
    rt: &'r R,
    faults: u64,
}

impl<'r, R: Print> Model for StdSink<'r, R> {
    ghost use Rattle.std.specs.Prelude.{None};
    ghost use Rattle.shelf_io.specs.Seen.{SinkSeen};

    ghost Value = { SinkSeen };

    ghost view = { λ s. record { written = None; faults = s.faults } };
}

impl<'r, R: Print> StdSink<'r, R> {
    ghost use Rattle.std.specs.Prelude.{◌≡◌, None};

    /// A sink that writes to the runtime's standard output, with no faults.
    pub fn new(rt: &'r R) -> StdSink<'r, R>
        ensures { result ≡ record { written = None; faults = 0 } }
    {
        StdSink { rt, faults: 0 }
    }
}

impl<'r, R: Print> Sink for StdSink<'r, R> {
    ghost use Rattle.std.specs.Prelude.{◌≡◌, is_ok, if◌then◌else◌};
    ghost use Rattle.shelf_io.specs.Seen.{Puts, next_count};

    ghost seen = { λ s. s };

    /// Writes all of the bytes, and flushes.
    /// `SinkFailed` where the system fails, or takes none of the bytes that are left.
    fn put(&mut self, bytes: &[u8]) -> Result<(), SinkFailed>
        ensures puts { Puts self.old self.new bytes.now result }
        ensures faults { self.new.faults ≡
            (if is_ok result then self.old.faults else next_count self.old.faults) }
    {
        if write_all(&mut io::writer(self.rt), bytes) {
            return Ok(());
        }
        self.faults = self.faults.saturating_add(1);
        Err(SinkFailed)
    }
}

// Whether all of the bytes went out, and were flushed.
fn write_all<W: Write>(writer: &mut W, bytes: &[u8]) -> bool
    ensures { IsTrue result → Appends (W.contents writer.old) (W.contents writer.new) bytes.now }
{
    let mut count = 0;
    while count < bytes.len() {
        match writer.write(&bytes[count..]) {
            Ok(0) | Err(_) => return false,
            Ok(more) => count += more,
        }
    }
    writer.flush().is_ok()
}
