//! The devices, lent to be changed.

ghost use Rattle.std.specs.Prelude.{◌≡◌};
ghost use Rattle.std.specs.Borrow.{Lends, sem};
ghost use Rattle.mb_devices.specs.contracts.devices.Devices.{the_row as devices_row};
ghost use Rattle.vm_guest.specs.contracts.guest.Guest.{the_row as guest_row};

use crate::guest::Guest;
use mb_devices::Devices;

impl Guest {
    /// The guest's devices; they become what the caller leaves.
    pub fn devices_mut(&mut self) -> &mut Devices
        ensures* lends { sem 𝓛 (Lends guest_row devices_row self.entry result
            (λ devices. record self.old { devices = devices })) }
        ensures value { result.now ≡ self.old.devices }
    {
        &mut self.devices
    }
}
