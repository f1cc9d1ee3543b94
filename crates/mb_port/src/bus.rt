//! The bus.

ghost use Rattle.std.specs.Prelude.{◌≡◌, ◌<◌, ◌%◌, ◌^◌, IfOk, IfSome, Ok, true, false};
ghost use Rattle.mb_port.specs.Routine.{Bus, Call};
ghost use Rattle.mb_port.specs.Pieces.{IsPiece};
ghost use Rattle.mb_port.specs.Flushes.{NamesPage};
ghost use Rattle.mb_port.specs.declared.types.Place.{Place};

use crate::types::{Fault, Flush, Mmu, MmuReg, Piece, Place, Space};

/// The bus as the processor sees it.
///
/// Logical addresses are translated by the implementer's rule, and a refused access is a [`Fault`].
/// Each call does what `bus` says and nothing else: generic code states its result as a routine of
/// such calls, so its caller learns all that the implementer's `bus` says.
pub trait Port {
    /// What the calls read and change.
    ghost World: { Type 0 };

    ghost world: { Self → World };

    /// What no call changes.
    ghost Rest: { Type 0 };

    ghost rest: { Self → Rest };

    /// What each call answers, and what it makes of the world.
    ghost bus: { Bus World };

    /// What no quick call changes.
    ghost Still: { Type 0 };

    ghost still: { World → Still };

    /// Which physical pieces there are.
    ghost exists: { Rest → Place → Type 0 };

    /// Reads an instruction word.
    fn fetch(&mut self, space: Space, at: u32) -> Result<u16, Fault>
        requires { at % 2 ≡ 0 }
        ensures means { bus (Call.Fetch space at) (world self.old) ≡ (result, world self.new) }
        ensures range { IfOk result (λ word. word < 256 ^ 2) }
        ensures rest { rest self.new ≡ rest self.old };

    /// Reads a piece of an operand: its big-endian value.
    fn read(&mut self, space: Space, piece: Piece) -> Result<u32, Fault>
        requires { IsPiece piece }
        ensures means { bus (Call.Read space piece) (world self.old) ≡ (result, world self.new) }
        ensures range { IfOk result (λ value. value < 256 ^ piece.len) }
        ensures rest { rest self.new ≡ rest self.old };

    /// Writes a piece of an operand. Bytes of `value` above the piece are ignored.
    fn write(&mut self, space: Space, piece: Piece, value: u32) -> Result<(), Fault>
        requires { IsPiece piece }
        ensures means { bus (Call.Write space piece value) (world self.old) ≡ (result, world self.new) }
        ensures rest { rest self.new ≡ rest self.old };

    /// What `fetch` answers, where it is known at once and changes nothing.
    fn quick_fetch(&self, space: Space, at: u32) -> Option<u16>
        requires { at % 2 ≡ 0 }
        ensures { IfSome result (λ word. bus (Call.Fetch space at) (world self.now) ≡ (Ok word, world self.now)) }
    {
        let _unknown = (space, at);
        None
    }

    /// What `read` answers, where it is known at once and changes nothing.
    fn quick_read(&self, space: Space, piece: Piece) -> Option<u32>
        requires { IsPiece piece }
        ensures { IfSome result (λ value. bus (Call.Read space piece) (world self.now) ≡ (Ok value, world self.now)) }
    {
        let _unknown = (space, piece);
        None
    }

    /// Does what `write` does, where it is done at once; else nothing has changed.
    fn quick_write(&mut self, space: Space, piece: Piece, value: u32) -> bool
        requires { IsPiece piece }
        ensures done { result ≡ true
            → bus (Call.Write space piece value) (world self.old) ≡ (Ok tt, world self.new) }
        ensures undone { result ≡ false → world self.new ≡ world self.old }
        ensures still { still (world self.new) ≡ still (world self.old) }
        ensures rest { rest self.new ≡ rest self.old }
    {
        let _unknown = (space, piece, value);
        false
    }

    /// Reads the four longs of a line of 16 bytes.
    fn read_line(&mut self, space: Space, at: u32) -> Result<[u32; 4], Fault>
        requires { at % 16 ≡ 0 }
        ensures means { bus (Call.ReadLine space at) (world self.old) ≡ (result, world self.new) }
        ensures rest { rest self.new ≡ rest self.old };

    /// Writes the four longs of a line of 16 bytes.
    fn write_line(&mut self, space: Space, at: u32, value: [u32; 4]) -> Result<(), Fault>
        requires { at % 16 ≡ 0 }
        ensures means { bus (Call.WriteLine space at value) (world self.old) ≡ (result, world self.new) }
        ensures rest { rest self.new ≡ rest self.old };

    /// Checks a piece for writing, and answers where it stands. It writes nothing to the piece.
    fn probe(&mut self, space: Space, piece: Piece) -> Result<Place, Fault>
        requires { IsPiece piece }
        ensures means { bus (Call.Probe space piece) (world self.old) ≡ (result, world self.new) }
        ensures found { IfOk result (λ place. exists (rest self.old) place × (place.len ≡ piece.len)) }
        ensures rest { rest self.new ≡ rest self.old };

    /// Reads a physical piece, without translation.
    fn get(&mut self, place: Place) -> u32
        requires { exists (rest self.old) place }
        ensures means { bus (Call.Get place) (world self.old) ≡ (result, world self.new) }
        ensures range { result < 256 ^ place.len }
        ensures rest { rest self.new ≡ rest self.old };

    /// Writes a physical piece, without translation.
    fn put(&mut self, place: Place, value: u32)
        requires { exists (rest self.old) place }
        ensures means { bus (Call.Put place value) (world self.old) ≡ (result, world self.new) }
        ensures rest { rest self.new ≡ rest self.old };

    /// The registers of the memory management unit.
    fn mmu(&self) -> Mmu
        ensures { bus Call.ReadMmu (world self.now) ≡ (result, world self.now) };

    /// Writes one of them. Only the bits that the register has are kept.
    fn set_mmu(&mut self, which: MmuReg, value: u32)
        ensures means { bus (Call.SetMmu which value) (world self.old) ≡ (result, world self.new) }
        ensures rest { rest self.new ≡ rest self.old };

    /// Drops kept translations.
    fn flush(&mut self, what: Flush)
        requires { NamesPage what }
        ensures means { bus (Call.FlushKept what) (world self.old) ≡ (result, world self.new) }
        ensures rest { rest self.new ≡ rest self.old };

    /// Tests a page (`PTEST`). The answer is the new MMUSR, which the caller writes.
    fn test(&mut self, space: Space, at: u32, write: bool) -> u32
        ensures means { bus (Call.Test space at write) (world self.old) ≡ (result, world self.new) }
        ensures rest { rest self.new ≡ rest self.old };

    /// Resets the devices, as the instruction `RESET` does.
    fn reset_devices(&mut self)
        ensures means { bus Call.ResetDevices (world self.old) ≡ (result, world self.new) }
        ensures rest { rest self.new ≡ rest self.old };
}
