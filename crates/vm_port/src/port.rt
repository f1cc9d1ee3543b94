//! A guest's bus: what it is made of.

ghost use Rattle.std.specs.Prelude.{◌≡◌};

use crate::memory::GuestMemory;
use mb_devices::Devices;
use mb_port::Mmu;
use mb_walk::Ram;
use vm_tlb::Tlb;

/// A guest's bus, by the rule of guests: its RAM with its tables behind it, its devices and its translation.
///
/// Between any two calls the tables map the guest's shadow, each entry to its frame in the guest's RAM. Whether the
/// shadow says what the guest's translation does is nothing to the bus: `law_held` has the law that its runs keep that.
#[derive(Drop)]
pub struct GuestPort<'a, R: Ram> {
    pub(crate) memory: GuestMemory<'a, R>,
    pub(crate) devices: &'a mut Devices,
    pub(crate) registers: &'a mut Mmu,
    pub(crate) tlb: &'a mut Tlb,
}

impl<'a, R: Ram> GuestPort<'a, R> {
    /// The bus of a guest, with its memory and what else of the guest it goes over.
    pub fn new(
        memory: GuestMemory<'a, R>,
        devices: &'a mut Devices,
        registers: &'a mut Mmu,
        tlb: &'a mut Tlb,
    ) -> GuestPort<'a, R>
        ensures memory { result.memory ≡ memory.entry }
        ensures devices { (result.devices.ghost_name ≡ devices.entry.ghost_name)
            × (result.devices.now ≡ devices.old) }
        ensures registers { (result.registers.ghost_name ≡ registers.entry.ghost_name)
            × (result.registers.now ≡ registers.old) }
        ensures tlb { (result.tlb.ghost_name ≡ tlb.entry.ghost_name) × (result.tlb.now ≡ tlb.old) }
    {
        GuestPort {
            memory,
            devices,
            registers,
            tlb,
        }
    }

    /// Whether the shadow may have changed since the bus was made: an entry was put, or one may have gone.
    pub fn has_changed(&self) -> bool
        ensures { result ≡ self.now.memory.changed }
    {
        self.memory.changed
    }
}
