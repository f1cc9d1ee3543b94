//! The board as a bus and as memory: its inner bus, with all else of it left alone.

ghost use Rattle.mb_port.specs.declared.types.Place.{Place};
ghost use Rattle.mb_port.specs.Pieces.{IsAligned};
ghost use Rattle.mb_model.specs.Keeping.{rule_a};
ghost use Rattle.def_machine.specs.World.{World};
ghost use Rattle.def_machine.specs.Bus.{bus_of};
ghost use Rattle.mb_board.specs.State.{BoardState};
ghost use Rattle.mb_board.specs.Beside.{Beside, beside, but_ram};

use crate::board::Board;
use mb_port::{Fault, Flush, Mmu, MmuReg, Piece, Place, Port, Space};
use mb_walk::Ram;

impl Port for Board {
    ghost World = { World };

    ghost world = { λ m. m.world };

    ghost Rest = { Beside };

    ghost rest = { beside };

    ghost bus = { bus_of rule_a };

    ghost Still = { World };

    ghost still = { λ w. w };

    ghost exists = { λ rest place. IsAligned place.at place.len };

    fn fetch(&mut self, space: Space, at: u32) -> Result<u16, Fault> {
        self.core.bus.fetch(space, at)
    }

    fn read(&mut self, space: Space, piece: Piece) -> Result<u32, Fault> {
        self.core.bus.read(space, piece)
    }

    fn write(&mut self, space: Space, piece: Piece, value: u32) -> Result<(), Fault> {
        self.core.bus.write(space, piece, value)
    }

    fn read_line(&mut self, space: Space, at: u32) -> Result<[u32; 4], Fault> {
        self.core.bus.read_line(space, at)
    }

    fn write_line(&mut self, space: Space, at: u32, value: [u32; 4]) -> Result<(), Fault> {
        self.core.bus.write_line(space, at, value)
    }

    fn probe(&mut self, space: Space, piece: Piece) -> Result<Place, Fault> {
        self.core.bus.probe(space, piece)
    }

    fn get(&mut self, place: Place) -> u32 {
        self.core.bus.get(place)
    }

    fn put(&mut self, place: Place, value: u32) {
        self.core.bus.put(place, value);
    }

    fn mmu(&self) -> Mmu {
        Port::mmu(&self.core.bus)
    }

    fn set_mmu(&mut self, which: MmuReg, value: u32) {
        self.core.bus.set_mmu(which, value);
    }

    fn flush(&mut self, what: Flush) {
        self.core.bus.flush(what);
    }

    fn test(&mut self, space: Space, at: u32, write: bool) -> u32 {
        self.core.bus.test(space, at, write)
    }

    fn reset_devices(&mut self) {
        self.core.bus.reset_devices();
    }
}

impl Ram for Board {
    ghost bytes = { λ m. m.world.ram };

    ghost Rest = { BoardState };

    ghost rest = { but_ram };

    fn size(&self) -> u32 {
        self.core.bus.size()
    }

    #[inline(always)]
    fn number(&self, place: Place) -> u32 {
        self.core.bus.number(place)
    }

    #[inline(always)]
    fn set_number(&mut self, place: Place, value: u32) {
        self.core.bus.set_number(place, value);
    }
}
