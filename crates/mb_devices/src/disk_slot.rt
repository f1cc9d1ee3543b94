//! A disk that may be attached.

ghost use Rattle.std.specs.Prelude.{◌≡◌, ◌<◌, ◌^◌, option_map, IfSome};
ghost use Rattle.vm_disk.specs.Disk.{rested};
ghost use Rattle.vm_disk.specs.Registers.{disk_row};
ghost use Rattle.mb_devices.specs.Registers.{disk_register_at, register_row, value_on};

use crate::register::Register;
use mb_port::Place;
use vm_disk::{Disk, DiskRegister};

/// The register of just this address and size; none where no disk is attached.
pub(crate) fn register_at(disk: &Option<Disk>, place: Place) -> Option<Register>
    ensures register { result ≡ disk_register_at disk.now place }
    ensures size { IfSome result (λ r. place.len ≡ (register_row r).size) }
{
    match disk {
        Some(_) => Register::of_disk(place),
        None => None,
    }
}

/// Reads a register; 0 where no disk is attached.
pub(crate) fn read(disk: &mut Option<Disk>, register: DiskRegister) -> u32
    ensures value { result ≡ value_on (disk_row register) disk.old }
    ensures after { disk.new ≡ option_map (disk_row register).after_read disk.old }
    ensures bound { result < 2 ^ 32 }
{
    match disk {
        Some(disk) => disk.read(register.offset()),
        None => 0,
    }
}

/// Writes a register; nothing happens where no disk is attached.
pub(crate) fn write(disk: &mut Option<Disk>, register: DiskRegister, value: u32)
    ensures { disk.new ≡ option_map ((disk_row register).written value) disk.old }
{
    match disk {
        Some(disk) => disk.write(register.offset(), value),
        None => {}
    }
}

/// What RESET does.
pub(crate) fn reset(disk: &mut Option<Disk>)
    ensures { disk.new ≡ option_map rested disk.old }
{
    match disk {
        Some(disk) => disk.reset(),
        None => {}
    }
}
