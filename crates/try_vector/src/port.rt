//! The port.
//!
//! What it does is `vector_bus`; the trait's clauses are proved from it with no file.

ghost use Rattle.std.specs.Prelude.{◌≡◌, ℕ, ◌*◌, ◌/◌, ◌^◌, ◌<◌, length, replicate, IfOk};
ghost use Rattle.mb_port.specs.Pieces.{IsPiece};
ghost use Rattle.try_vector.specs.VectorBus.{Memory, HasPlace, is_refused, value_at, with_value};
ghost use Rattle.try_vector.specs.VectorBus.{vector_bus};

use mb_port::{Fault, Flush, Mmu, MmuReg, Piece, Place, Port, Space, lay, unlay};
use std::alloc::{AllocError, Global};

/// Longs from address 0 on. An access beyond them, or one that touches the byte at `hole`, is refused.
#[derive(Drop)]
pub struct VectorPort {
    pub longs: Vec<u32>,
    pub hole: u32,
    pub mmu: Mmu,
    /// Whether quick calls answer what they can. At first they answer nothing.
    pub is_quick: bool,
}

impl VectorPort {
    /// So many longs of 0, all registers 0.
    pub fn new(alloc: Global, longs: usize, hole: u32) -> Result<VectorPort, AllocError>
        ensures { IfOk result (λ port. (port.longs.items ≡ replicate longs 0) × (port.hole ≡ hole)) }
    {
        let mmu = Mmu {
            tc: 0,
            itt0: 0,
            itt1: 0,
            dtt0: 0,
            dtt1: 0,
            mmusr: 0,
            urp: 0,
            srp: 0,
        };
        Ok(VectorPort {
            longs: vec![in alloc; 0; longs]?,
            hole,
            mmu,
            is_quick: false,
        })
    }

    fn refuses(&self, at: u32, len: u8) -> bool
        ensures { result ≡
            is_refused (record { longs = self.now.longs.items; hole = self.now.hole; mmu = self.now.mmu }) at len }
    {
        let end = at as u64 + len as u64;
        let longs = (at / 4) as usize + (len as usize + 3) / 4;
        self.longs.len() < longs || (at <= self.hole && (self.hole as u64) < end)
    }

    fn value(&self, piece: Piece) -> u32
        requires piece { IsPiece piece }
        requires there { piece.at / 4 < length self.now.longs.items }
        ensures value { result ≡
            value_at (record { longs = self.now.longs.items; hole = self.now.hole; mmu = self.now.mmu }) piece }
        ensures fits { result < 256 ^ piece.len }
    {
        unlay(piece, self.longs[(piece.at / 4) as usize])
    }

    fn set_value(&mut self, piece: Piece, value: u32)
        requires piece { IsPiece piece }
        requires there { piece.at / 4 < length self.old.longs.items }
        ensures longs { self.new.longs.items ≡ (with_value
            (record { longs = self.old.longs.items; hole = self.old.hole; mmu = self.old.mmu }) piece value).longs }
        ensures rest { (self.new.hole ≡ self.old.hole) × (self.new.mmu ≡ self.old.mmu) }
    {
        let long = &mut self.longs[(piece.at / 4) as usize];
        *long = *long & !lay(piece, u32::MAX) | lay(piece, value);
    }
}

impl Port for VectorPort {
    ghost World = { Memory };

    ghost world = { λ p. record { longs = p.longs.items; hole = p.hole; mmu = p.mmu } };

    ghost Rest = { ℕ };

    ghost rest = { λ p. length p.longs.items };

    ghost bus = { vector_bus };

    ghost Still = { ℕ };

    ghost still = { λ m. m.hole };

    ghost exists = { HasPlace };

    fn fetch(&mut self, space: Space, at: u32) -> Result<u16, Fault> {
        if self.refuses(at, 2) {
            return Err(Fault {
                at,
                len: 2,
                space,
                code: true,
                write: false,
                atc: false,
            });
        }
        Ok(self.value(Piece { at, len: 2 }) as u16)
    }

    fn read(&mut self, space: Space, piece: Piece) -> Result<u32, Fault> {
        if self.refuses(piece.at, piece.len) {
            return Err(Fault {
                at: piece.at,
                len: piece.len,
                space,
                code: false,
                write: false,
                atc: false,
            });
        }
        Ok(self.value(piece))
    }

    fn write(&mut self, space: Space, piece: Piece, value: u32) -> Result<(), Fault> {
        if self.refuses(piece.at, piece.len) {
            return Err(Fault {
                at: piece.at,
                len: piece.len,
                space,
                code: false,
                write: true,
                atc: false,
            });
        }
        self.set_value(piece, value);
        Ok(())
    }

    fn quick_fetch(&self, _space: Space, at: u32) -> Option<u16> {
        if !self.is_quick || self.refuses(at, 2) {
            return None;
        }
        Some(self.value(Piece { at, len: 2 }) as u16)
    }

    fn quick_read(&self, _space: Space, piece: Piece) -> Option<u32> {
        if !self.is_quick || self.refuses(piece.at, piece.len) {
            return None;
        }
        Some(self.value(piece))
    }

    fn quick_write(&mut self, _space: Space, piece: Piece, value: u32) -> bool {
        if !self.is_quick || self.refuses(piece.at, piece.len) {
            return false;
        }
        self.set_value(piece, value);
        true
    }

    fn read_line(&mut self, space: Space, at: u32) -> Result<[u32; 4], Fault> {
        if self.refuses(at, 16) {
            return Err(Fault {
                at,
                len: 16,
                space,
                code: false,
                write: false,
                atc: false,
            });
        }
        let i = (at / 4) as usize;
        Ok([
            self.longs[i],
            self.longs[i + 1],
            self.longs[i + 2],
            self.longs[i + 3],
        ])
    }

    fn write_line(&mut self, space: Space, at: u32, value: [u32; 4]) -> Result<(), Fault> {
        if self.refuses(at, 16) {
            return Err(Fault {
                at,
                len: 16,
                space,
                code: false,
                write: true,
                atc: false,
            });
        }
        let i = (at / 4) as usize;
        self.longs[i] = value[0];
        self.longs[i + 1] = value[1];
        self.longs[i + 2] = value[2];
        self.longs[i + 3] = value[3];
        Ok(())
    }

    fn probe(&mut self, space: Space, piece: Piece) -> Result<Place, Fault> {
        if self.refuses(piece.at, piece.len) {
            return Err(Fault {
                at: piece.at,
                len: piece.len,
                space,
                code: false,
                write: true,
                atc: false,
            });
        }
        Ok(Place {
            at: piece.at,
            len: piece.len,
        })
    }

    fn get(&mut self, place: Place) -> u32 {
        self.value(Piece {
            at: place.at,
            len: place.len,
        })
    }

    fn put(&mut self, place: Place, value: u32) {
        let piece = Piece {
            at: place.at,
            len: place.len,
        };
        self.set_value(piece, value);
    }

    fn mmu(&self) -> Mmu {
        self.mmu
    }

    fn set_mmu(&mut self, which: MmuReg, value: u32) {
        self.mmu.set(which, value);
    }

    fn flush(&mut self, _what: Flush) {}

    fn test(&mut self, _space: Space, _at: u32, _write: bool) -> u32 {
        0
    }

    fn reset_devices(&mut self) {}
}
