//! The registers.

ghost use Rattle.std.specs.Prelude.{◌≡◌, IfSome, Some};
ghost use Rattle.mb_devices.specs.Registers.{disk_register_at, own_register_at, register_row};
ghost use Rattle.vm_disk.specs.Disk.{DiskState};

use mb_port::Place;
use vm_disk::DiskRegister;

/// Where the devices stand.
pub const BASE: u32 = 0xfff0_0000;

/// A register of a device. Each exists at its own size alone.
#[derive(Clone, Copy, Debug, PartialEq, Eq)]
pub enum Register {
    /// A byte: reading takes the oldest received byte, writing sends one.
    Data,
    /// A byte: whether a byte is received, in bit 0, and whether one was dropped, in bit 2.
    Status,
    /// A byte: bit 0 lets a received byte ask for an interrupt.
    Ctrl,
    /// A long: how many steps the timer counts.
    Period,
    /// A long: how many steps are left.
    Count,
    /// A long: 1 where the timer asks for an interrupt.
    Ack,
    /// A long: 1 switches off.
    Power,
    /// A long: the size of RAM.
    Size,
    /// A long, which stands where a disk is attached.
    Disk(DiskRegister),
}

impl Register {
    /// The register of just this address and size, among those that every board has.
    pub(crate) fn at(place: Place) -> Option<Register>
        ensures register { result ≡ own_register_at place }
        ensures size { IfSome result (λ r. place.len ≡ (register_row r).size) }
    {
        match (place.at.wrapping_sub(BASE), place.len) {
            (0x00, 1) => Some(Register::Data),
            (0x01, 1) => Some(Register::Status),
            (0x02, 1) => Some(Register::Ctrl),
            (0x10, 4) => Some(Register::Period),
            (0x14, 4) => Some(Register::Count),
            (0x18, 4) => Some(Register::Ack),
            (0x20, 4) => Some(Register::Power),
            (0x24, 4) => Some(Register::Size),
            _ => None,
        }
    }

    /// The same among those of a disk.
    pub(crate) fn of_disk(place: Place) -> Option<Register>
        ensures register { (d : DiskState) → result ≡ disk_register_at (Some d) place }
        ensures size { IfSome result (λ r. place.len ≡ (register_row r).size) }
    {
        match (place.at.wrapping_sub(BASE), place.len) {
            (0x30, 4) => Some(Register::Disk(DiskRegister::Blocks)),
            (0x34, 4) => Some(Register::Disk(DiskRegister::Block)),
            (0x38, 4) => Some(Register::Disk(DiskRegister::Command)),
            (0x3c, 4) => Some(Register::Disk(DiskRegister::Data)),
            _ => None,
        }
    }
}
