//! A guest's devices, lent to be changed.

ghost use Rattle.std.specs.Prelude.{◌≡◌, ◌-◌, ◌≤◌, length, Some};
ghost use Rattle.std.specs.Borrow.{Lends, sem};
ghost use Rattle.mb_devices.specs.contracts.devices.Devices.{the_row as devices_row};
ghost use Rattle.vm_slices.specs.contracts.host_guest.HostGuest.{the_row as host_guest_row};
ghost use Rattle.vm_slices.specs.contracts.host.Host.{the_row as host_row};
ghost use Rattle.vm_slices.specs.Lending.{with_devices_at};
ghost use Rattle.vm_slices.specs.Members.{devices_of, numbered};
ghost use Rattle.vm_slices.specs.Places.{members_in};

use crate::host::Host;
use crate::host_guest::HostGuest;
use mb_devices::Devices;

impl HostGuest {
    /// The guest's devices; they become what the caller leaves.
    fn devices_mut(&mut self) -> &mut Devices
        ensures* lends { sem 𝓛 (Lends host_guest_row devices_row self.entry result
            (λ devices. record self.old { guest = record self.old.guest { devices = devices } })) }
        ensures value { result.now ≡ self.old.guest.devices }
    {
        self.guest.devices_mut()
    }
}

impl Host {
    /// A guest's devices; they become what the caller leaves, and all else stays.
    pub fn devices_mut(&mut self, guest: u8) -> &mut Devices
        requires { (1 ≤ guest) × (guest ≤ length (members_in self.old)) }
        ensures* lends { sem 𝓛 (Lends host_row devices_row self.entry result
            (λ devices. record self.old { guests = with_devices_at (guest - 1) devices self.old.guests })) }
        ensures value { numbered guest (devices_of (members_in self.old)) ≡ Some result.now }
    {
        self.guests[guest as usize - 1].devices_mut()
    }
}
