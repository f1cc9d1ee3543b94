//! The devices, lent to be changed.

ghost use Rattle.std.specs.Prelude.{◌≡◌};
ghost use Rattle.std.specs.Borrow.{Lends, sem};
ghost use Rattle.mb_devices.specs.contracts.devices.Devices.{the_row as devices_row};
ghost use Rattle.mb_board.specs.contracts.bus.BoardBus.{the_row as bus_row};
ghost use Rattle.mb_board.specs.contracts.board.Board.{the_row as board_row};
ghost use Rattle.def_machine.specs.Machine.{with_devices};
ghost use Rattle.mb_board.specs.State.{machine_in, with_machine};

use crate::board::Board;
use crate::bus::BoardBus;
use mb_devices::Devices;

impl BoardBus {
    /// The devices become what the caller leaves.
    fn devices_mut(&mut self) -> &mut Devices
        ensures* lends { sem 𝓛 (Lends bus_row devices_row self.entry result
            (λ devices. record self.old { devices = devices })) }
        ensures value { result.now ≡ self.old.devices }
    {
        &mut self.devices
    }
}

impl Board {
    /// The machine's devices; they become what the caller leaves.
    pub fn devices_mut(&mut self) -> &mut Devices
        ensures* lends { sem 𝓛 (Lends board_row devices_row self.entry result
            (λ devices. with_machine self.old (with_devices (machine_in self.old) devices))) }
        ensures value { result.now ≡ self.old.world.devices }
    {
        self.core.bus.devices_mut()
    }
}
