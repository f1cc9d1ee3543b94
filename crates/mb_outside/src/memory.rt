//! Shelves and sinks in memory.

ghost use Rattle.std.specs.Prelude.{◌≡◌, ◌-◌, ◌<◌, ◌≤◌, ◌==◌, ◌||◌, ◌&&◌, nat_lt, true, Some, is_some, is_none, IfSome, option_map};
ghost use Rattle.std.specs.Prelude.{[], length, take, vec_len, vec_capacity, min, is_err, IfOk, IsErrOf};
ghost use Rattle.mb_outside.specs.Counts.{next_count};
ghost use Rattle.mb_outside.specs.Shelf.{GivesPiece, PieceOf, ShelfCause};
ghost use Rattle.mb_outside.specs.Sink.{Grows, taken_by, TakesSome, SinkCause};
ghost use Rattle.mb_outside.specs.Stored.{stored_bytes, is_listed, is_empty_list};

use crate::{Failed, Shelf, ShelfFault, Sink};
use std::alloc::{AllocError, AllocFailed, Global};

/// Memory ran out: the answer of a call that takes memory and can fail by nothing else.
#[derive(Clone, Copy, Debug, PartialEq, Eq)]
pub struct Memory;

impl From<AllocError> for Memory {
    fn from(_error: AllocError) -> Memory {
        Memory
    }
}

impl<T: Drop> From<AllocFailed<T>> for Memory {
    fn from(_failed: AllocFailed<T>) -> Memory {
        Memory
    }
}

/// Files in memory. It tells them all, takes no memory, and fails where it is told to.
#[derive(Drop)]
pub struct MemShelf {
    files: Vec<(String, Vec<u8>)>,
    fails: Vec<u64>,
    calls: u64,
    faults: u64,
}

impl MemShelf {
    /// A shelf of these files, by their names; of two with one name only the first is seen. The calls
    /// listed in `fails`, counted from 1, fail, and so does each call for a file that is missing.
    pub fn new(files: Vec<(String, Vec<u8>)>, fails: Vec<u64>) -> MemShelf
        ensures told { ⟦<MemShelf as Shelf>⟧.told result ≡ stored_bytes files.items }
        ensures whole { ⟦<MemShelf as Shelf>⟧.whole result ≡ is_empty_list fails.items }
        ensures faults { ⟦<MemShelf as Shelf>⟧.faults result ≡ 0 }
        ensures fails { (result.fails.items ≡ fails.items) × (result.calls ≡ 0) }
    {
        MemShelf {
            files,
            fails,
            calls: 0,
            faults: 0,
        }
    }
}

/// Copies what a file has from the byte `at` on, as far as the buffer has room, and says how much.
pub(crate) fn copy_piece(bytes: &[u8], at: u64, buf: &mut [u8]) -> usize
    ensures count { result ≡ min (length bytes.now - at) (length buf.old) }
    ensures bound { result ≤ length buf.new }
    ensures piece { PieceOf bytes.now at buf.new result }
{
    let start = at as usize;
    if start >= bytes.len() {
        return 0;
    }
    let rest = &bytes[start..];
    let count = rest.len().min(buf.len());
    buf[..count].copy_from_slice(&rest[..count]);
    count
}

/// The bytes of the first file of this name.
pub(crate) fn bytes_of<'a>(files: &'a [(String, Vec<u8>)], name: &str) -> Option<&'a [u8]>
    ensures { option_map (λ bytes. bytes.now) result ≡ stored_bytes files.now name.now }
{
    let file = files.iter().find(|f| f.0.as_str() == name)?;
    Some(file.1.as_slice())
}

impl Shelf for MemShelf {
    ghost told = { λ s. stored_bytes s.files.items };

    ghost whole = { λ s. is_empty_list s.fails.items };

    ghost faults = { λ s. s.faults };

    fn piece(
        &mut self,
        _alloc: Global,
        name: &str,
        at: u64,
        buf: &mut [u8],
    ) -> Result<usize, ShelfFault>
        ensures told { stored_bytes self.new.files.items ≡ stored_bytes self.old.files.items }
        ensures same { is_empty_list self.new.fails.items ≡ is_empty_list self.old.fails.items }
        ensures piece { GivesPiece (stored_bytes self.old.files.items name.now) at buf.new result }
        ensures cause { ShelfCause self.old.faults self.new.faults result }
        ensures whole { is_empty_list self.old.fails.items ≡ true
            → is_some (stored_bytes self.old.files.items name.now) ≡ true → IsErrOf result ShelfFault.Failed → ⊥ }

        ensures no_memory { IsErrOf result ShelfFault.Memory → ⊥ }
        ensures calls { (self.new.calls ≡ next_count self.old.calls) × (self.new.fails.items ≡ self.old.fails.items) }
        // It fails exactly where the call is listed or the file is missing, and else gives all that has room.
        ensures fails { is_err result ≡ (is_listed self.old.fails.items self.new.calls
            || is_none (stored_bytes self.old.files.items name.now)) }
        ensures count { IfOk result (λ n. IfSome (stored_bytes self.old.files.items name.now)
            (λ bytes. n ≡ min (length bytes - at) (length buf.old))) }
    {
        self.calls = self.calls.saturating_add(1);
        if self.fails.contains(&self.calls) {
            self.faults = self.faults.saturating_add(1);
            return Err(ShelfFault::Failed);
        }
        match bytes_of(&self.files, name) {
            Some(bytes) => Ok(copy_piece(bytes, at, buf)),
            None => {
                self.faults = self.faults.saturating_add(1);
                Err(ShelfFault::Failed)
            }
        }
    }
}

/// A sink in memory. It tells all that it took, takes no memory once it is made, and fails where it
/// is told to.
#[derive(Drop)]
pub struct MemSink {
    bytes: Vec<u8>,
    room: usize,
    fails: Vec<u64>,
    calls: u64,
    faults: u64,
    ghost in_room: { vec_len bytes ≤ room },
    ghost reserved: { room ≤ vec_capacity bytes },
}

impl MemSink {
    /// A sink that takes `room` bytes in all. The calls listed in `fails`, counted from 1, fail.
    pub fn new(alloc: Global, room: usize, fails: Vec<u64>) -> Result<MemSink, Memory>
        ensures taken { IfOk result (λ s. ⟦<MemSink as Sink>⟧.taken s ≡ Some []) }
        ensures faults { IfOk result (λ s. ⟦<MemSink as Sink>⟧.faults s ≡ 0) }
        ensures room { IfOk result (λ s. s.room ≡ room) }
        ensures fails { IfOk result (λ s. (s.fails.items ≡ fails.items) × (s.calls ≡ 0)) }
    {
        Ok(MemSink {
            bytes: Vec::with_capacity(alloc, room)?,
            room,
            fails,
            calls: 0,
            faults: 0,
        })
    }

    /// What it took so far.
    pub fn bytes(&self) -> &[u8]
        ensures { ⟦<MemSink as Sink>⟧.taken self.now ≡ Some result.now }
    {
        &self.bytes
    }
}

impl Sink for MemSink {
    ghost taken = { λ s. Some s.bytes.items };

    ghost faults = { λ s. s.faults };

    fn put(&mut self, bytes: &[u8]) -> Result<usize, Failed>
        ensures count { TakesSome bytes.now result }
        ensures taken { Grows (Some self.old.bytes.items) (Some self.new.bytes.items)
            (take (taken_by result) bytes.now) }
        ensures cause { SinkCause self.old.faults self.new.faults result }

        ensures calls { (self.new.calls ≡ next_count self.old.calls) × (self.new.fails.items ≡ self.old.fails.items) }
        ensures room { self.new.room ≡ self.old.room }
        // It fails exactly where the call is listed or a byte has no room, and else takes all that has.
        ensures fails { is_err result ≡ (is_listed self.old.fails.items self.new.calls
            || (vec_len self.old.bytes == self.old.room && nat_lt 0 (length bytes.now))) }
        ensures taken_all { IfOk result (λ n. n ≡ min (length bytes.now) (self.old.room - vec_len self.old.bytes)) }
    {
        self.calls = self.calls.saturating_add(1);
        let count = bytes.len().min(self.room - self.bytes.len());
        if self.fails.contains(&self.calls) || (count == 0 && !bytes.is_empty()) {
            self.faults = self.faults.saturating_add(1);
            return Err(Failed);
        }
        self.bytes.extend_from_slice(&bytes[..count]).unwrap();
        Ok(count)
    }
}
