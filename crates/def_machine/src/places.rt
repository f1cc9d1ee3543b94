//! Physical places: memory, and the registers of devices.

ghost use Rattle.std.specs.Prelude.{◌≡◌, ◌<◌, ◌^◌, ◌||◌, length, if◌then◌else◌, is_some, Some, IfNone, IfSome};
ghost use Rattle.mb_port.specs.Pieces.{IsAligned};
ghost use Rattle.mb_walk.specs.Memory.{number_at, with_number};
ghost use Rattle.mb_devices.specs.Registers.{read_of, register_at, write_of};
ghost use Rattle.def_machine.specs.Places.{in_ram};

use mb_devices::Devices;
use mb_port::Place;
use mb_walk::Ram;

/// Whether memory holds the whole of a place.
#[inline(always)]
pub fn in_ram<R: Ram>(ram: &R, place: Place) -> bool
    ensures { result ≡ in_ram (length (R.bytes ram.now)) place.at place.len }
{
    u64::from(place.at) + u64::from(place.len) <= u64::from(ram.size())
}

/// Reads memory or a register. `None` where nothing answers the read, and nothing has changed.
#[inline(always)]
pub fn take<R: Ram>(ram: &R, devices: &mut Devices, place: Place) -> Option<u32>
    requires { IsAligned place.at place.len }
    ensures taken { (result, devices.new) ≡ (if in_ram (length (R.bytes ram.now)) place.at place.len
        then (Some (number_at (R.bytes ram.now) place.at place.len), devices.old) else read_of place devices.old) }
    ensures range { IfSome result (λ number. number < 256 ^ place.len) }
{
    if in_ram(ram, place) {
        Some(ram.number(place))
    } else {
        devices.read(place)
    }
}

/// Writes memory or a register. `None` where nothing takes the write, and nothing has changed.
#[inline(always)]
#[tactic(auto, using(mb_walk::proofs::MemoryLemmas::lengths))]
pub fn store<R: Ram>(ram: &mut R, devices: &mut Devices, place: Place, value: u32) -> Option<()>
    requires { IsAligned place.at place.len }
    ensures ram { R.bytes ram.new ≡ (if in_ram (length (R.bytes ram.old)) place.at place.len
        then with_number (R.bytes ram.old) place.at place.len value else R.bytes ram.old) }
    ensures devices { (result, devices.new) ≡ (if in_ram (length (R.bytes ram.old)) place.at place.len
        then (Some tt, devices.old) else write_of place value devices.old) }
    ensures unchanged { IfNone result ((R.bytes ram.new ≡ R.bytes ram.old) × (devices.new ≡ devices.old)) }
    ensures size { length (R.bytes ram.new) ≡ length (R.bytes ram.old) }
    ensures rest { R.rest ram.new ≡ R.rest ram.old }
{
    if in_ram(ram, place) {
        ram.set_number(place, value);
        Some(())
    } else {
        devices.write(place, value)
    }
}

/// Whether memory or a register takes a write.
#[inline(always)]
pub fn takes_writes<R: Ram>(ram: &R, devices: &Devices, place: Place) -> bool
    ensures { result
        ≡ (in_ram (length (R.bytes ram.now)) place.at place.len || is_some (register_at devices.now place)) }
{
    in_ram(ram, place) || devices.has(place)
}
