//! The calls of the bus, and its RAM.

ghost use Rattle.std.specs.Prelude.{◌≡◌, ℕ, length, IfOk};
ghost use Rattle.mb_port.specs.Routine.{Call};
ghost use Rattle.mb_port.specs.Pieces.{IsAligned, IsPiece};
ghost use Rattle.mb_model.specs.Keeping.{rule_a};
ghost use Rattle.mb_devices.specs.Devices.{DeviceState};
ghost use Rattle.def_machine.specs.World.{World};
ghost use Rattle.def_machine.specs.Bus.{bus_of};
ghost use Rattle.mb_board.specs.Beside.{without_ram};

use crate::bus::BoardBus;
use def_machine::{Reference, store, store_line, take, take_line, takes_writes};
use mb_instr::ControlRegister;
use mb_port::{Fault, Flush, Mmu, MmuReg, Piece, Place, Port, Space};
use mb_walk::Ram;

impl BoardBus {
    /// Checks a piece for writing whose place is not known at once.
    #[inline(never)]
    #[tactic(auto, using(def_machine::proofs::BusLemmas::places))]
    fn probe_slowly(&mut self, space: Space, piece: Piece) -> Result<Place, Fault>
        requires { IsPiece piece }
        ensures means { bus_of rule_a (Call.Probe space piece) self.old ≡ (result, self.new) }
        ensures found { IfOk result (λ place. IsAligned place.at place.len × (place.len ≡ piece.len)) }
        ensures size { length self.new.ram ≡ length self.old.ram }
    {
        let r = Reference::writing(space, piece.at);
        let at = self.translated(r).ok_or(r.refused(piece.len, true))?;
        let place = Place { at, len: piece.len };
        if !takes_writes(&self.ram, &self.devices, place) {
            return Err(r.refused(piece.len, false));
        }
        Ok(place)
    }
}

impl Port for BoardBus {
    ghost World = { World };

    ghost world = { λ w. w };

    ghost Rest = { ℕ };

    ghost rest = { λ w. length w.ram };

    ghost bus = { bus_of rule_a };

    ghost Still = { DeviceState };

    ghost still = { λ w. w.devices };

    // what stands nowhere is read as 0, and takes no write
    ghost exists = { λ size place. IsAligned place.at place.len };

    #[inline(never)]
    #[tactic(auto, using(def_machine::proofs::BusLemmas::places))]
    fn fetch(&mut self, space: Space, at: u32) -> Result<u16, Fault> {
        let r = Reference::fetching(space, at);
        let at = self.translated(r).ok_or(r.refused(2, true))?;
        let place = Place { at, len: 2 };
        let word = take(&self.ram, &mut self.devices, place).ok_or(r.refused(2, false))?;
        Ok(word as u16)
    }

    #[inline(never)]
    #[tactic(auto, using(def_machine::proofs::BusLemmas::places))]
    fn read(&mut self, space: Space, piece: Piece) -> Result<u32, Fault> {
        let r = Reference::reading(space, piece.at);
        let at = self.translated(r).ok_or(r.refused(piece.len, true))?;
        let place = Place { at, len: piece.len };
        let value = take(&self.ram, &mut self.devices, place).ok_or(r.refused(piece.len, false))?;
        Ok(value)
    }

    #[inline(never)]
    #[tactic(auto, using(def_machine::proofs::BusLemmas::places))]
    fn write(&mut self, space: Space, piece: Piece, value: u32) -> Result<(), Fault> {
        let r = Reference::writing(space, piece.at);
        let at = self.translated(r).ok_or(r.refused(piece.len, true))?;
        let place = Place { at, len: piece.len };
        store(&mut self.ram, &mut self.devices, place, value).ok_or(r.refused(piece.len, false))
    }

    #[inline(always)]
    fn quick_fetch(&self, space: Space, at: u32) -> Option<u16> {
        let at = self.found_at_once(Reference::fetching(space, at), 2)?;
        Some(self.number(Place { at, len: 2 }) as u16)
    }

    #[inline(always)]
    fn quick_read(&self, space: Space, piece: Piece) -> Option<u32> {
        let at = self.found_at_once(Reference::reading(space, piece.at), piece.len)?;
        Some(self.number(Place { at, len: piece.len }))
    }

    #[inline(always)]
    fn quick_write(&mut self, space: Space, piece: Piece, value: u32) -> bool {
        let Some(at) = self.found_at_once(Reference::writing(space, piece.at), piece.len) else {
            return false;
        };
        self.set_number(Place { at, len: piece.len }, value);
        true
    }

    fn read_line(&mut self, space: Space, at: u32) -> Result<[u32; 4], Fault> {
        let r = Reference::reading(space, at);
        let at = self.translated(r).ok_or(r.refused(16, true))?;
        take_line(self, at).ok_or(r.refused(16, false))
    }

    fn write_line(&mut self, space: Space, at: u32, value: [u32; 4]) -> Result<(), Fault> {
        let r = Reference::writing(space, at);
        let at = self.translated(r).ok_or(r.refused(16, true))?;
        store_line(self, at, value).ok_or(r.refused(16, false))
    }

    #[inline(always)]
    fn probe(&mut self, space: Space, piece: Piece) -> Result<Place, Fault> {
        let r = Reference::writing(space, piece.at);
        if let Some(at) = self.found_at_once(r, piece.len) {
            return Ok(Place { at, len: piece.len });
        }
        self.probe_slowly(space, piece)
    }

    #[tactic(auto, using(def_machine::proofs::BusLemmas::places))]
    fn get(&mut self, place: Place) -> u32 {
        take(&self.ram, &mut self.devices, place).unwrap_or(0)
    }

    #[tactic(auto, using(def_machine::proofs::BusLemmas::places))]
    fn put(&mut self, place: Place, value: u32) {
        let _ = store(&mut self.ram, &mut self.devices, place, value);
    }

    fn mmu(&self) -> Mmu {
        *self.translator.mmu()
    }

    fn set_mmu(&mut self, which: MmuReg, value: u32) {
        self.translator
            .set_mmu(which, value & ControlRegister::Mmu(which).kept_bits());
    }

    fn flush(&mut self, what: Flush) {
        self.translator.flush(what);
    }

    fn test(&mut self, space: Space, at: u32, write: bool) -> u32 {
        self.tested(space, at, write)
    }

    fn reset_devices(&mut self) {
        self.devices.reset();
    }
}

impl Ram for BoardBus {
    ghost bytes = { λ w. w.ram };

    ghost Rest = { World };

    ghost rest = { without_ram };

    #[inline(always)]
    fn size(&self) -> u32 {
        self.ram.size()
    }

    #[inline(always)]
    fn number(&self, place: Place) -> u32 {
        self.ram.number(place)
    }

    #[inline(always)]
    #[tactic(auto, using(mb_walk::proofs::MemoryLemmas::lengths))]
    fn set_number(&mut self, place: Place, value: u32) {
        self.ram.set_number(place, value);
    }
}
