//! The calls of a guest's bus.

ghost use Rattle.mb_port.specs.Pieces.{IsAligned};
ghost use Rattle.vm_port.specs.Watched.{Watched, watched_bus};

use crate::port::GuestPort;
use def_machine::{Reference, store, store_line, take, take_line, takes_writes};
use mb_port::{Fault, Flush, Mmu, MmuReg, Piece, Place, Port, Space};
use mb_walk::Ram;

impl<R: Ram> Port for GuestPort<'_, R> {
    ghost use Rattle.vm_port.specs.Parts.{watched_of, beyond_of};
    ghost use Rattle.vm_port.specs.Around.{Beyond};

    ghost World = { Watched };

    ghost world = { watched_of };

    ghost Rest = { Beyond R.Rest };

    ghost rest = { beyond_of };

    ghost bus = { watched_bus };

    ghost Still = { Watched };

    ghost still = { λ s. s };

    // what stands nowhere is read as 0, and takes no write
    ghost exists = { λ rest place. IsAligned place.at place.len };

    #[tactic(auto, using(def_machine::proofs::BusLemmas::places))]
    fn fetch(&mut self, space: Space, at: u32) -> Result<u16, Fault> {
        let r = Reference::fetching(space, at);
        let at = self.accessed(r).ok_or(r.refused(2, true))?;
        let place = Place { at, len: 2 };
        let word = take(&self.memory, self.devices, place).ok_or(r.refused(2, false))?;
        Ok(word as u16)
    }

    #[tactic(auto, using(def_machine::proofs::BusLemmas::places))]
    fn read(&mut self, space: Space, piece: Piece) -> Result<u32, Fault> {
        let r = Reference::reading(space, piece.at);
        let at = self.accessed(r).ok_or(r.refused(piece.len, true))?;
        let place = Place { at, len: piece.len };
        let value = take(&self.memory, self.devices, place).ok_or(r.refused(piece.len, false))?;
        Ok(value)
    }

    #[tactic(auto, using(def_machine::proofs::BusLemmas::places))]
    fn write(&mut self, space: Space, piece: Piece, value: u32) -> Result<(), Fault> {
        let r = Reference::writing(space, piece.at);
        let at = self.accessed(r).ok_or(r.refused(piece.len, true))?;
        let place = Place { at, len: piece.len };
        store(&mut self.memory, self.devices, place, value).ok_or(r.refused(piece.len, false))
    }

    fn read_line(&mut self, space: Space, at: u32) -> Result<[u32; 4], Fault> {
        let r = Reference::reading(space, at);
        let at = self.accessed(r).ok_or(r.refused(16, true))?;
        take_line(&self.memory, at).ok_or(r.refused(16, false))
    }

    fn write_line(&mut self, space: Space, at: u32, value: [u32; 4]) -> Result<(), Fault> {
        let r = Reference::writing(space, at);
        let at = self.accessed(r).ok_or(r.refused(16, true))?;
        store_line(&mut self.memory, at, value).ok_or(r.refused(16, false))
    }

    #[tactic(auto, using(def_machine::proofs::BusLemmas::places))]
    fn probe(&mut self, space: Space, piece: Piece) -> Result<Place, Fault> {
        let r = Reference::writing(space, piece.at);
        let at = self.accessed(r).ok_or(r.refused(piece.len, true))?;
        let place = Place { at, len: piece.len };
        if !takes_writes(&self.memory, self.devices, place) {
            return Err(r.refused(piece.len, false));
        }
        Ok(place)
    }

    #[tactic(auto, using(def_machine::proofs::BusLemmas::places))]
    fn get(&mut self, place: Place) -> u32 {
        take(&self.memory, self.devices, place).unwrap_or(0)
    }

    #[tactic(auto, using(def_machine::proofs::BusLemmas::places))]
    fn put(&mut self, place: Place, value: u32) {
        let _ = store(&mut self.memory, self.devices, place, value);
    }

    fn mmu(&self) -> Mmu {
        *self.registers
    }

    fn set_mmu(&mut self, which: MmuReg, value: u32) {
        self.set_register(which, value);
    }

    fn flush(&mut self, what: Flush) {
        self.flushed(what);
    }

    fn test(&mut self, space: Space, at: u32, write: bool) -> u32 {
        self.tested(space, at, write)
    }

    fn reset_devices(&mut self) {
        self.devices.reset();
    }
}
