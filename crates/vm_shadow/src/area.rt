//! The longs of an area.

ghost use Rattle.std.specs.Prelude.{◌≡◌, ℕ, ◌+◌, ◌*◌, ◌%◌, ◌^◌, ◌≤◌, ◌<◌, ◌⊎◌, length, MatchOption};
ghost use Rattle.vm_shadow.specs.Area.{OnlyArea, longs, in_root as root_place, in_slot as slot_place};
ghost use Rattle.law_links.specs.Paths.{updated};
ghost use Rattle.vm_shadow.specs.Area.{link as link_of, page_long as long_of, IsPageLong};
ghost use Rattle.vm_shadow.specs.declared.nodes.TheConstants.{SLOTS};

use mb_model::PAGE_SIZE;
use mb_port::Space;
use mb_walk::Ram;

/// The bytes of an area.
pub const AREA_BYTES: u32 = 0x1_0000;

/// The number of a root's entry among the longs of an area.
pub fn in_root(space: Space, index: u32) -> u32
    requires { index < 128 }
    ensures number { result ≡ root_place space index }
    ensures low { result < 256 }
{
    match space {
        Space::User => index,
        Space::Super => 128 + index,
    }
}

/// The number of an entry of a slot.
pub fn in_slot(slot: u32, index: u32) -> u32
    requires slot { slot < SLOTS }
    requires index { index < 128 }
    ensures number { result ≡ slot_place slot index }
    ensures inside { result < 16384 }
{
    256 + 128 * slot + index
}

/// The descriptor of the table in a slot.
pub fn link(area: u32, slot: u32) -> u32
    requires aligned { area % AREA_BYTES ≡ 0 }
    requires slot { slot < SLOTS }
    ensures { result ≡ link_of area slot }
{
    area + 1024 + 512 * slot + 10
}

/// The slot of the table that a descriptor leads to.
pub fn led(area: u32, long: u32) -> Option<u32>
    requires aligned { area % AREA_BYTES ≡ 0 }
    requires link { (long ≡ 0) ⊎ ((slot : ℕ) × ((slot < SLOTS) × (long ≡ link_of area slot))) }
    ensures { MatchOption result (long ≡ 0) (λ slot. (slot < SLOTS) × (long ≡ link_of area slot)) }
{
    if long == 0 {
        None
    } else {
        Some((long - area - 1024) / 512)
    }
}

/// The descriptor of a page.
pub fn page_long(frame: u32, writable: bool) -> u32
    requires { frame < 2 ^ 20 }
    ensures long { result ≡ long_of frame writable }
    ensures lawful { IsPageLong result }
{
    PAGE_SIZE * frame + if writable { 25 } else { 29 }
}

/// A long of an area.
pub fn long_in<R: Ram>(ram: &R, area: u32, index: u32) -> u32
    requires aligned { area % AREA_BYTES ≡ 0 }
    requires inside { area + AREA_BYTES ≤ length (R.bytes ram.now) }
    requires index { index < 16384 }
    ensures { result ≡ longs (R.bytes ram.now) area index }
{
    ram.long(area + 4 * index)
}

/// Sets a long of an area.
pub fn set_in<R: Ram>(ram: &mut R, area: u32, index: u32, long: u32)
    requires aligned { area % AREA_BYTES ≡ 0 }
    requires inside { area + AREA_BYTES ≤ length (R.bytes ram.old) }
    requires index { index < 16384 }
    ensures longs { longs (R.bytes ram.new) area ≡ updated (longs (R.bytes ram.old) area) index long }
    ensures outside { OnlyArea area (R.bytes ram.old) (R.bytes ram.new) }
    ensures rest { R.rest ram.new ≡ R.rest ram.old }
{
    ram.set_long(area + 4 * index, long);
}

/// Sets all longs of an area to 0.
pub fn wipe<R: Ram>(ram: &mut R, area: u32)
    requires aligned { area % AREA_BYTES ≡ 0 }
    requires inside { area + AREA_BYTES ≤ length (R.bytes ram.old) }
    ensures longs { (at : ℕ) → at < 16384 → longs (R.bytes ram.new) area at ≡ 0 }
    ensures outside { OnlyArea area (R.bytes ram.old) (R.bytes ram.new) }
    ensures rest { R.rest ram.new ≡ R.rest ram.old }
{
    for index in 0..AREA_BYTES / 4 {
        set_in(ram, area, index, 0);
    }
}
