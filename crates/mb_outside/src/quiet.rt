//! A shelf and a sink that never fail.

ghost use Rattle.std.specs.Prelude.{◌≡◌, ◌-◌, true, false, None, length, is_err, IfOk, IfSome, min, Ok};
ghost use Rattle.mb_outside.specs.Counts.{count_after};
ghost use Rattle.mb_outside.specs.Shelf.{GivesPiece, ShelfCause};
ghost use Rattle.mb_outside.specs.Sink.{TakesSome, SinkCause};
ghost use Rattle.mb_outside.specs.Stored.{stored_or_empty};

use crate::memory::{bytes_of, copy_piece};
use crate::{Failed, Shelf, ShelfFault, Sink};
use std::alloc::Global;

/// Files in memory that never fail: one that is missing reads as an empty one. It tells them all and
/// takes no memory.
#[derive(Drop)]
pub struct NoFailShelf {
    files: Vec<(String, Vec<u8>)>,
}

impl NoFailShelf {
    /// A shelf of these files, by their names; of two with one name only the first is seen.
    pub fn new(files: Vec<(String, Vec<u8>)>) -> NoFailShelf
        ensures told { ⟦<NoFailShelf as Shelf>⟧.told result ≡ stored_or_empty files.items }
        ensures whole { ⟦<NoFailShelf as Shelf>⟧.whole result ≡ true }
        ensures faults { ⟦<NoFailShelf as Shelf>⟧.faults result ≡ 0 }
    {
        NoFailShelf { files }
    }
}

impl Shelf for NoFailShelf {
    ghost told = { λ s. stored_or_empty s.files.items };

    ghost whole = { λ s. true };

    ghost faults = { λ s. 0 };

    fn piece(
        &mut self,
        _alloc: Global,
        name: &str,
        at: u64,
        buf: &mut [u8],
    ) -> Result<usize, ShelfFault>
        ensures told { stored_or_empty self.new.files.items ≡ stored_or_empty self.old.files.items }
        ensures piece { GivesPiece (stored_or_empty self.old.files.items name.now) at buf.new result }
        ensures cause { ShelfCause 0 0 result }

        ensures files { self.new.files.items ≡ self.old.files.items }
        // It answers always, with all that has room.
        ensures never { is_err result ≡ false }
        ensures count { IfOk result (λ n. IfSome (stored_or_empty self.old.files.items name.now)
            (λ bytes. n ≡ min (length bytes - at) (length buf.old))) }
    {
        match bytes_of(&self.files, name) {
            Some(bytes) => Ok(copy_piece(bytes, at, buf)),
            None => Ok(0),
        }
    }
}

/// A sink that takes everything and never fails. It keeps the number of the bytes alone, up to 2^64 - 1,
/// and does not tell them.
#[derive(Drop)]
pub struct NoFailSink {
    bytes: u64,
}

impl NoFailSink {
    /// A sink that has taken nothing.
    pub fn new() -> NoFailSink
        ensures taken { ⟦<NoFailSink as Sink>⟧.taken result ≡ None }
        ensures faults { ⟦<NoFailSink as Sink>⟧.faults result ≡ 0 }
        ensures bytes { result.bytes ≡ 0 }
    {
        NoFailSink { bytes: 0 }
    }

    /// How many bytes it took, up to 2^64 - 1.
    pub fn bytes(&self) -> u64
        ensures { result ≡ self.now.bytes }
    {
        self.bytes
    }
}

impl Sink for NoFailSink {
    ghost taken = { λ s. None };

    ghost faults = { λ s. 0 };

    fn put(&mut self, bytes: &[u8]) -> Result<usize, Failed>
        ensures count { TakesSome bytes.now result }
        ensures cause { SinkCause 0 0 result }

        // It takes all, and counts it.
        ensures taken_all { result ≡ Ok (length bytes.now) }
        ensures counted { self.new.bytes ≡ count_after self.old.bytes (length bytes.now) }
    {
        self.bytes = self.bytes.saturating_add(bytes.len() as u64);
        Ok(bytes.len())
    }
}
