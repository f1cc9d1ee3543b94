//! The bus of calm steps, as its quick calls know it.

ghost use Rattle.std.specs.Prelude.{◌≡◌, ℕ, length, true, IfSome, Some};
ghost use Rattle.std.specs.Borrow.{GName};
ghost use Rattle.mb_port.specs.Pieces.{IsAligned, IsPiece};
ghost use Rattle.mb_model.specs.Keeping.{rule_a};
ghost use Rattle.mb_devices.specs.Devices.{DeviceState};
ghost use Rattle.def_machine.specs.Access.{translated};
ghost use Rattle.def_machine.specs.Bus.{bus_of};
ghost use Rattle.def_machine.specs.Places.{in_ram};
ghost use Rattle.def_machine.specs.World.{World};
ghost use Rattle.mb_mmu.specs.Sound.{IsAccess};

use crate::bus::BoardBus;
use def_machine::Reference;
use mb_port::{Fault, Flush, Mmu, MmuReg, Piece, Place, Port, Space};
use mb_walk::Ram;

/// A board's bus, whose quick calls do not ask whether the machine translates: they find a place by the micro-TLB, or
/// take each address for its own place, or do not find it at all.
#[derive(Drop)]
pub(crate) struct CalmBus<'a, const TRANSLATES: bool> {
    pub(crate) bus: &'a mut BoardBus,
}

impl<const TRANSLATES: bool> CalmBus<'_, TRANSLATES> {
    /// The place in RAM of so many bytes that a reference is known to lead to. `None` says nothing.
    #[inline(always)]
    fn found(&self, r: Reference, len: u8) -> Option<u32>
        requires access { IsAccess r }
        requires piece { IsPiece (record { at = r.at; len = len }) }
        ensures leads { IfSome result (λ at. translated rule_a r self.now.bus.now ≡ (Some at, self.now.bus.now)) }
        ensures inside { IfSome result (λ at. in_ram (length self.now.bus.now.ram) at len ≡ true) }
        ensures aligned { IfSome result (λ at. IsAligned at len) }
    {
        if TRANSLATES {
            self.bus.found_in_tlb(r, len)
        } else {
            self.bus.found_directly(r, len)
        }
    }
}

impl<const TRANSLATES: bool> Port for CalmBus<'_, TRANSLATES> {
    ghost World = { World };

    ghost world = { λ b. b.bus.now };

    // the reference that it holds, and the bytes of RAM
    ghost Rest = { GName × ℕ };

    ghost rest = { λ b. (b.bus.ghost_name, length b.bus.now.ram) };

    ghost bus = { bus_of rule_a };

    ghost Still = { DeviceState };

    ghost still = { λ w. w.devices };

    // what stands nowhere is read as 0, and takes no write
    ghost exists = { λ rest place. IsAligned place.at place.len };

    fn fetch(&mut self, space: Space, at: u32) -> Result<u16, Fault> {
        self.bus.fetch(space, at)
    }

    fn read(&mut self, space: Space, piece: Piece) -> Result<u32, Fault> {
        self.bus.read(space, piece)
    }

    fn write(&mut self, space: Space, piece: Piece, value: u32) -> Result<(), Fault> {
        self.bus.write(space, piece, value)
    }

    #[inline(always)]
    fn quick_fetch(&self, space: Space, at: u32) -> Option<u16> {
        let at = self.found(Reference::fetching(space, at), 2)?;
        Some(self.bus.number(Place { at, len: 2 }) as u16)
    }

    #[inline(always)]
    fn quick_read(&self, space: Space, piece: Piece) -> Option<u32> {
        let at = self.found(Reference::reading(space, piece.at), piece.len)?;
        Some(self.bus.number(Place { at, len: piece.len }))
    }

    #[inline(always)]
    fn quick_write(&mut self, space: Space, piece: Piece, value: u32) -> bool {
        let Some(at) = self.found(Reference::writing(space, piece.at), piece.len) else {
            return false;
        };
        self.bus.set_number(Place { at, len: piece.len }, value);
        true
    }

    fn read_line(&mut self, space: Space, at: u32) -> Result<[u32; 4], Fault> {
        self.bus.read_line(space, at)
    }

    fn write_line(&mut self, space: Space, at: u32, value: [u32; 4]) -> Result<(), Fault> {
        self.bus.write_line(space, at, value)
    }

    fn probe(&mut self, space: Space, piece: Piece) -> Result<Place, Fault> {
        self.bus.probe(space, piece)
    }

    fn get(&mut self, place: Place) -> u32 {
        self.bus.get(place)
    }

    fn put(&mut self, place: Place, value: u32) {
        self.bus.put(place, value);
    }

    fn mmu(&self) -> Mmu {
        *self.bus.mmu()
    }

    fn set_mmu(&mut self, which: MmuReg, value: u32) {
        self.bus.set_mmu(which, value);
    }

    fn flush(&mut self, what: Flush) {
        self.bus.flush(what);
    }

    fn test(&mut self, space: Space, at: u32, write: bool) -> u32 {
        self.bus.test(space, at, write)
    }

    fn reset_devices(&mut self) {
        self.bus.reset_devices();
    }
}
